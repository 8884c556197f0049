// All documents below a number.
ghost use Rattle.std.specs.Prelude.{◌≡◌, ◌≤◌, ◌↔◌, Ok, IfOk};
ghost use Rattle.std.specs.Result.{result_map_both};
ghost use Rattle.docset.specs.Checks.{all_check, accepted};
ghost use Rattle.docset.specs.Pairs.{all_below, terminated};

use crate::fault::ScorerFault;
use crate::scorer::{DocId, DocSet, Scorer, TERMINATED};

#[derive(Drop)]
pub struct AllDocs {
    doc: u32,
    number: u32,
    ghost below: { number ≤ terminated },
}

impl AllDocs {
    ghost use Rattle.docset.specs.Walks.{all_coming};

    // All documents below the number, each with score 1, where all of them are below `TERMINATED`.
    pub fn try_new(number: u32) -> Result<AllDocs, ScorerFault>
        ensures answer { result_map_both (λ _. tt) (λ e. e) result ≡ all_check number }
        ensures docs { IfOk result (λ docs. all_coming docs ≡ all_below number) }
    {
        if number > TERMINATED {
            return Err(ScorerFault::NotRising);
        }
        Ok(AllDocs { doc: 0, number })
    }

    // Whether all documents below the number are below `TERMINATED`.
    pub fn check(number: u32) -> Result<(), ScorerFault>
        ensures answer { result ≡ all_check number }
        ensures exact { (result ≡ Ok tt) ↔ (number ≤ 2147483647) }
    {
        AllDocs::try_new(number).map(|_| ())
    }

    // All documents below the number, each with score 1; none where the check refuses.
    pub fn new(number: u32) -> AllDocs
        ensures { all_coming result ≡ accepted (all_check number) (all_below number) }
    {
        AllDocs::try_new(number).unwrap_or(AllDocs { doc: 0, number: 0 })
    }
}

impl DocSet for AllDocs {
    ghost use Rattle.docset.specs.Walks.{all_coming, all_rising};

    ghost coming = { all_coming };

    ghost rising = { all_rising };

    fn doc(&self) -> DocId {
        if self.doc >= self.number {
            return TERMINATED;
        }
        self.doc
    }

    fn advance(&mut self) -> DocId {
        if self.doc < self.number {
            self.doc += 1;
        }
        self.doc()
    }
}

impl Scorer for AllDocs {
    fn score(&self) -> f32 {
        if self.doc < self.number { 1.0 } else { 0.0 }
    }
}
