// A recipe with the facets that it is filed under.
use facet::Facet;

#[derive(Drop)]
pub struct Recipe {
    // any bytes, and so no `String`
    pub name: Vec<u8>,
    pub facets: Vec<Facet>,
}

impl Recipe {
    ghost use Rattle.std.specs.Prelude.{◌≡◌};
    ghost use Rattle.recipes.specs.Counting.{holds as holds_at};
    ghost use Rattle.recipes.specs.Recipes.{held_by};

    // Whether the recipe is filed at or below the branch.
    pub fn holds(&self, branch: &Facet) -> bool
        ensures { result ≡ holds_at (held_by self.now) branch.now }
    {
        self.facets.iter().any(|facet| facet.is_at_or_below(branch))
    }
}
