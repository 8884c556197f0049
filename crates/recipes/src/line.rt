// One recipe from its line.
ghost use Rattle.facet.specs.Reading.{read};
ghost use Rattle.recipes.specs.Lines.{placed, recipe_of, told_of, Answers};

use crate::fault::{LineFault, ListFault};
use crate::recipe::Recipe;
use facet::Facet;
use std::alloc::Global;

const TAB: u8 = b'\t';

// The facet of a field, or its refusal with its place.
fn read_facet<'a>(line: usize, field: usize, text: &'a [u8]) -> Result<Facet, ListFault<'a>>
    ensures { Answers (λ f. f) (placed line field text.now (read text.now)) result }
{
    Facet::from_text(text).map_err(|fault| {
        ListFault::Line(LineFault {
            line,
            field,
            text,
            fault,
        })
    })
}

// The recipe of a line: its name, and then its facets, with tabs between.
pub(crate) fn read_line<'a>(
    heap: Global,
    number: usize,
    line: &'a [u8],
) -> Result<Recipe, ListFault<'a>>
    ensures { Answers told_of (recipe_of number line.now) result }
{
    let mut fields = line.split(|b| *b == TAB).enumerate();
    // a split has a first piece
    let (_, name) = fields.next().unwrap();
    let name = Vec::from_slice(heap, name)?;
    let mut facets = Vec::new(heap);
    for (field, text) in fields {
        facets.push(read_facet(number, field, text)?)?;
    }
    Ok(Recipe { name, facets })
}
