// A list of documents and one of their scores, which the caller holds.
ghost use Rattle.std.specs.Prelude.{◌≡◌, ◌↔◌, true, length, Ok, IfOk};
ghost use Rattle.std.specs.List.{zip};
ghost use Rattle.std.specs.Result.{result_map_both};
ghost use Rattle.docset.specs.Checks.{held_check, Fit, accepted};
ghost use Rattle.docset.specs.Pairs.{rises};

use crate::fault::ScorerFault;
use crate::scorer::{DocId, DocSet, Scorer, TERMINATED};

// Two lists, as callers hold them: whether they are as long as one another is a question of its own.
#[derive(Drop)]
pub struct Held<'a> {
    docs: &'a [u32],
    scores: &'a [f32],
    ghost rising: { rises docs.now ≡ true },
    ghost scored: { length docs.now ≡ length scores.now },
}

// Whether the documents rise strictly below `TERMINATED`.
fn rising(docs: &[u32]) -> bool
    ensures { result ≡ rises docs.now }
{
    docs.is_sorted_by(|a, b| a < b) && docs.last().is_none_or(|doc| *doc < TERMINATED)
}

impl<'a> Held<'a> {
    ghost use Rattle.docset.specs.Walks.{held_coming};

    // The documents with their scores, where they rise strictly below `TERMINATED` and each has a score.
    pub fn try_new(docs: &'a [u32], scores: &'a [f32]) -> Result<Held<'a>, ScorerFault>
        ensures answer { result_map_both (λ _. tt) (λ e. e) result ≡ held_check docs.now scores.now }
        ensures docs { IfOk result (λ held. held_coming held ≡ zip docs.now scores.now) }
    {
        if !rising(docs) {
            return Err(ScorerFault::NotRising);
        }
        if docs.len() != scores.len() {
            return Err(ScorerFault::ScoreCount);
        }
        Ok(Held { docs, scores })
    }

    // Whether the documents rise strictly below `TERMINATED`, and each has a score.
    pub fn check(docs: &'a [u32], scores: &'a [f32]) -> Result<(), ScorerFault>
        ensures answer { result ≡ held_check docs.now scores.now }
        ensures exact { (result ≡ Ok tt) ↔ Fit docs.now scores.now }
    {
        Held::try_new(docs, scores).map(|_| ())
    }

    // The documents with their scores; none where the check refuses.
    pub fn new(docs: &'a [u32], scores: &'a [f32]) -> Held<'a>
        ensures { held_coming result ≡ accepted (held_check docs.now scores.now) (zip docs.now scores.now) }
    {
        Held::try_new(docs, scores).unwrap_or(Held {
            docs: &[],
            scores: &[],
        })
    }
}

impl<'a> DocSet for Held<'a> {
    ghost use Rattle.docset.specs.Walks.{held_coming, held_rising};

    ghost coming = { held_coming };

    ghost rising = { held_rising };

    fn doc(&self) -> DocId {
        self.docs.first().copied().unwrap_or(TERMINATED)
    }

    fn advance(&mut self) -> DocId {
        if let ([_, docs @ ..], [_, scores @ ..]) = (self.docs, self.scores) {
            *self = Held { docs, scores };
        }
        self.doc()
    }
}

impl<'a> Scorer for Held<'a> {
    fn score(&self) -> f32 {
        self.scores.first().copied().unwrap_or(0.0)
    }
}
