// A list of recipes from its text.
ghost use Rattle.std.specs.Prelude.{◌≡◌, map};
ghost use Rattle.recipes.specs.Lines.{recipes_of, told_of, Answers, bare as bare_of};

use crate::fault::ListFault;
use crate::line::read_line;
use crate::recipe::Recipe;
use std::alloc::Global;

const NEWLINE: u8 = b'\n';

// A line without the carriage return that may end it.
fn bare(line: &[u8]) -> &[u8]
    ensures { result.now ≡ bare_of line.now }
{
    line.strip_suffix(b"\r").unwrap_or(line)
}

// The recipes of a text, one for each line that is not empty, or the first text that is no facet.
pub fn read_list<'a>(heap: Global, text: &'a [u8]) -> Result<Vec<Recipe>, ListFault<'a>>
    ensures { Answers (λ v. map told_of v.items) (recipes_of text.now) result }
{
    let mut recipes = Vec::new(heap);
    for (i, whole) in text.split(|b| *b == NEWLINE).enumerate() {
        let line = bare(whole);
        if !line.is_empty() {
            recipes.push(read_line(heap, i + 1, line)?)?;
        }
    }
    Ok(recipes)
}
