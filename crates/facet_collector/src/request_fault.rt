// The refusals of a request.
ghost use Rattle.std.specs.Prelude.{◌≡◌};
ghost use Rattle.facet_collector.specs.Faults.{request_number};

use thiserror::Error;

// Why a facet is not requested.
#[derive(Clone, Copy, Debug, PartialEq, Eq, Error)]
pub enum RequestFault {
    #[error("the facet is below a requested facet")]
    BelowRequested,
    #[error("the facet is above a requested facet")]
    AboveRequested,
    #[error("there are 16 requested facets already")]
    TooMany,
}

impl RequestFault {
    pub fn number(&self) -> u8
        ensures { result ≡ request_number self.now }
    {
        match self {
            RequestFault::BelowRequested => 6,
            RequestFault::AboveRequested => 7,
            RequestFault::TooMany => 8,
        }
    }
}
