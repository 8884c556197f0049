// What every docset and every scorer does.
ghost use Rattle.std.specs.Prelude.{◌≡◌, ℕ, min, List, [], ◌++◌, length, take, drop, Float};
ghost use Rattle.docset.specs.Pairs.{Rising, docs_of, first_doc_of, first_doc, first_score, rest};

pub type DocId = u32;

// stands after the last document: a docset answers a number and no `Option`, as in tantivy
pub const TERMINATED: DocId = 2_147_483_647;

// how many documents `fill_buffer` writes at most
pub const COLLECT_BLOCK_BUFFER_LEN: usize = 64;

pub trait DocSet {
    // the documents still to come, each with its score
    ghost coming: { Self → List (ℕ × Float) };

    // they rise strictly below `TERMINATED`
    ghost rising: { (x : Self) → Rising (coming x) };

    // The first document still to come, or `TERMINATED`.
    fn doc(&self) -> DocId
        ensures { result ≡ first_doc (coming self.now) };

    // Leaves the first document behind, and answers the next.
    fn advance(&mut self) -> DocId
        ensures next { result ≡ first_doc (coming self.new) }
        ensures rest { coming self.new ≡ rest (coming self.old) };

    // Takes the next documents to the front of the buffer, until it is full or none is to come.
    fn fill_buffer(&mut self, buffer: &mut [DocId; COLLECT_BLOCK_BUFFER_LEN]) -> usize
        ensures filled { result ≡ min 64 (length (coming self.old)) }
        ensures front { buffer.new ≡ docs_of (take result (coming self.old)) ++ drop result buffer.old }
        ensures rest { coming self.new ≡ drop result (coming self.old) }
    {
        let mut doc = self.doc();
        for (i, slot) in buffer.iter_mut().enumerate() {
            if doc == TERMINATED {
                return i;
            }
            *slot = doc;
            doc = self.advance();
        }
        COLLECT_BLOCK_BUFFER_LEN
    }
}

pub trait Scorer: DocSet {
    // The score of the first document still to come, or 0.
    fn score(&self) -> f32
        ensures { result ≡ first_score (Self.DocSet.coming self.now) };
}

// How many documents are still to come; leaves none.
pub fn count<S: Scorer>(scorer: &mut S) -> u32
    ensures number { result ≡ length (S.DocSet.coming scorer.old) }
    ensures none { S.DocSet.coming scorer.new ≡ [] }
{
    // A loop: `advance` answers the next document at once, and an iterator would have to remember it.
    let mut count = 0;
    let mut doc = scorer.doc();
    while doc != TERMINATED {
        count += 1;
        doc = scorer.advance();
    }
    count
}

// The document at a place among those still to come, found block by block; or `TERMINATED`.
pub fn doc_at<S: Scorer + Drop>(mut scorer: S, place: usize) -> DocId
    ensures { result ≡ first_doc_of (drop place (docs_of (S.DocSet.coming scorer))) }
{
    // A loop: an iterator over blocks would lend the buffer that it writes next.
    let mut before = place;
    let mut buffer = [0; COLLECT_BLOCK_BUFFER_LEN];
    loop {
        let len = scorer.fill_buffer(&mut buffer);
        if before < len {
            return buffer[before];
        }
        if len == 0 {
            return TERMINATED;
        }
        before -= len;
    }
}
