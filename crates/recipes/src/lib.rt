// Lists of recipes, and how many of them stand at or below each child of a branch.
#![tactic(auto)]

mod count;
mod fault;
mod line;
mod list;
mod recipe;
mod show;

pub use count::{Entry, all_reach, count_at, count_children};
pub use fault::{LineFault, ListFault};
pub use list::read_list;
pub use recipe::Recipe;
pub use show::entry_line;
