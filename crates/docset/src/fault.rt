// The refusals of a scorer.
ghost use Rattle.std.specs.Prelude.{◌≡◌};
ghost use Rattle.docset.specs.Faults.{number_of};

use thiserror::Error;

#[derive(Clone, Copy, Debug, PartialEq, Eq, Error)]
pub enum ScorerFault {
    #[error("the documents do not rise strictly below 2147483647")]
    NotRising,
    #[error("there are not as many scores as documents")]
    ScoreCount,
}

impl ScorerFault {
    pub fn number(&self) -> u8
        ensures { result ≡ number_of self.now }
    {
        match self {
            ScorerFault::NotRising => 26,
            ScorerFault::ScoreCount => 27,
        }
    }
}
