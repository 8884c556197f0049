// How many recipes stand at or below each child of a branch.
ghost use Rattle.std.specs.Prelude.{◌≡◌, map, IfOk};
ghost use Rattle.recipes.specs.Counting.{recipes_at, Counted, all_reach, Children};
ghost use Rattle.recipes.specs.Recipes.{held_by, entry_at};
ghost use Rattle.std.specs.List.{flat_map};

use crate::recipe::Recipe;
use facet::Facet;
use std::alloc::{AllocError, Global};
use std::collections::BTreeSet;
use std::marker::Model;

#[derive(Clone, Copy, PartialEq, Eq)]
pub struct Entry {
    pub facet: Facet,
    pub count: u64,
}

// Clauses see the encoding with the count. A model with its inverse, since what holds a facet is copied only so.
impl Model for Entry {
    ghost use Rattle.std.specs.Prelude.{ℕ, List, refl};

    ghost Value = { List ℕ × ℕ };

    ghost view = { λ e. (e.facet, e.count) };

    ghost inverse = { λ e. record { facet = e.0; count = e.1 } };

    ghost inverse_ok = { λ e i. refl };
}

// How many recipes are filed at or below the branch, each counted once.
pub fn count_at(recipes: &[Recipe], branch: &Facet) -> u64
    ensures { result ≡ recipes_at (map held_by recipes.now) branch.now }
{
    recipes.iter().filter(|recipe| recipe.holds(branch)).count() as u64
}

// The children of the branch that some recipe is filed at or below.
fn children(heap: Global, recipes: &[Recipe], branch: &Facet) -> Result<BTreeSet<Facet>, AllocError>
    ensures { IfOk result (λ s. Children branch.now (flat_map held_by recipes.now) s.keys) }
{
    // loops, since `child_toward` promises cases and no equation, which a chain would mirror
    let mut children = BTreeSet::new(heap);
    for recipe in recipes {
        for facet in recipe.facets.iter() {
            if let Some(child) = branch.child_toward(facet) {
                children.insert(child)?;
            }
        }
    }
    Ok(children)
}

// Each of the children with the number of recipes filed at or below it, in the order of facets.
fn entries(
    heap: Global,
    recipes: &[Recipe],
    children: &BTreeSet<Facet>,
) -> Result<Vec<Entry>, AllocError>
    ensures { IfOk result (λ v. v.items ≡ map (entry_at (map held_by recipes.now)) children.now.keys) }
{
    children
        .iter()
        .map(|child| Entry {
            facet: *child,
            count: count_at(recipes, child),
        })
        .collect(heap)
}

// Each child of the branch with the number of recipes filed at or below it, in the order of facets.
pub fn count_children(
    heap: Global,
    recipes: &[Recipe],
    branch: &Facet,
) -> Result<Vec<Entry>, AllocError>
    ensures { IfOk result (λ v. Counted (map held_by recipes.now) branch.now v.items) }
{
    entries(heap, recipes, &children(heap, recipes, branch)?)
}

// Whether every entry reaches the minimum.
pub fn all_reach(entries: &[Entry], min: u64) -> bool
    ensures { result ≡ all_reach min entries.now }
{
    entries.iter().all(|entry| entry.count >= min)
}
