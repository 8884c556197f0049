// How a facet's fault is shown.
ghost use Rattle.std.specs.Prelude.{Some, ◌++◌, codes, decimal};
ghost use Rattle.facet.specs.Faults.{number_of, meaning_of};

use facet::FacetFault;
use std::fmt;

// A fault with the number of its refusal.
#[derive(Clone, Copy, Debug)]
pub struct Refusal(pub FacetFault);

impl fmt::Display for Refusal {
    ghost output = { λ r. Some (codes "refusal " ++ decimal (number_of r.0) ++ codes ", " ++ meaning_of r.0) };

    fn fmt<W: fmt::Write>(&self, f: &mut fmt::Formatter<W>) -> fmt::Result {
        let fault = self.0;
        let number = fault.number();
        write!(f, "refusal {number}, {fault}")
    }
}
