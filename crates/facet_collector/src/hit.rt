// Hits are ordered by count, the higher first, and then by facet. By hand: a derive would put the smaller count first.
ghost use Rattle.std.specs.Prelude.{◌≡◌, Decides, IsSomeAnd};
ghost use Rattle.std.specs.Cmp.{partial_equiv_from_equiv, po};
ghost use Rattle.std.specs.Ordering.{as_partial_cmp};
ghost use Rattle.std.proofs.Common.{refl};
ghost use Rattle.facet_collector.specs.Ranks.{rank, same_hit, Ranks, RankLaws, same_hits, rank_total, rank_ties};

use facet::Facet;
use std::cmp::Ordering;
use std::marker::Model;

// A facet with its count.
#[derive(Clone, Copy)]
pub struct Hit {
    pub facet: Facet,
    pub count: u64,
}

// Clauses see an entry.
impl Model for Hit {
    ghost use Rattle.std.specs.Prelude.{ℕ, List, refl};

    ghost Value = { List ℕ × ℕ };

    ghost view = { λ h. (h.facet, h.count) };

    ghost inverse = { λ e. record { facet = e.0; count = e.1 } };

    ghost inverse_ok = { λ h i. refl };
}

impl PartialEq for Hit {
    ghost eq = { same_hit };

    ghost laws = { partial_equiv_from_equiv same_hits };

    fn eq(&self, other: &Hit) -> bool
        ensures value { result ≡ same_hit self.now other.now }
        ensures decides { Decides result (self.now ≡ other.now) }
    {
        self.count == other.count && self.facet == other.facet
    }
}

impl Eq for Hit {
    ghost laws = { same_hits };
}

impl PartialOrd for Hit {
    ghost partial_cmp = { as_partial_cmp rank };

    ghost laws = { po rank_total rank_ties };

    fn partial_cmp(&self, other: &Hit) -> Option<Ordering>
        ensures value { result ≡ Some (rank self.now other.now) }
        ensures ranks { IsSomeAnd result (Ranks self.now other.now) }
    {
        Some(self.cmp(other))
    }
}

impl Ord for Hit {
    ghost cmp = { rank };

    ghost total = { rank_total };

    ghost matches_partial_cmp = { λ x y. refl };

    ghost matches_eq = { rank_ties };

    fn cmp(&self, other: &Hit) -> Ordering
        ensures value { result ≡ rank self.now other.now }
        ensures ranks { Ranks self.now other.now result }
        ensures laws { RankLaws }
    {
        other
            .count
            .cmp(&self.count)
            .then(self.facet.cmp(&other.facet))
    }
}
