// Facets are ordered by unsigned bytes, a proper prefix first. By hand: a derive would promise the order of the
// arrays and their lengths, and not that of the encodings.
ghost use Rattle.std.specs.Prelude.{◌≡◌, Decides, IsSomeAnd};
ghost use Rattle.std.specs.Cmp.{partial_equiv_from_equiv, po};
ghost use Rattle.std.specs.Cmp.Lexicographic.{on_texts_equal, texts_ties};
ghost use Rattle.std.specs.Ordering.{as_partial_cmp};
ghost use Rattle.std.specs.Str.{bytes_eq};
ghost use Rattle.std.proofs.Common.{refl};
ghost use Rattle.facet.specs.Facets.{Ordered, facets};
ghost use Rattle.facet.specs.Paths.{order};

use super::Facet;
use std::cmp::Ordering;

impl PartialEq for Facet {
    ghost eq = { bytes_eq };

    ghost laws = { partial_equiv_from_equiv (on_texts_equal (λ f. f)) };

    fn eq(&self, other: &Facet) -> bool
        ensures value { result ≡ bytes_eq self.now other.now }
        ensures decides { Decides result (self.now ≡ other.now) }
    {
        self.encoded() == other.encoded()
    }
}

impl Eq for Facet {
    ghost laws = { on_texts_equal (λ f. f) };
}

impl PartialOrd for Facet {
    ghost partial_cmp = { as_partial_cmp order };

    ghost laws = { po facets texts_ties };

    fn partial_cmp(&self, other: &Facet) -> Option<Ordering>
        ensures value { result ≡ Some (order self.now other.now) }
        ensures ordered { IsSomeAnd result (Ordered self.now other.now) }
    {
        Some(self.cmp(other))
    }
}

impl Ord for Facet {
    ghost cmp = { order };

    ghost total = { facets };

    ghost matches_partial_cmp = { λ x y. refl };

    ghost matches_eq = { texts_ties };

    fn cmp(&self, other: &Facet) -> Ordering
        ensures value { result ≡ order self.now other.now }
        ensures ordered { Ordered self.now other.now result }
    {
        self.encoded().cmp(other.encoded())
    }
}
