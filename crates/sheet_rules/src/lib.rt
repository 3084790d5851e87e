// The rules of a good device sheet, and the tests of single numbers and texts in it.
#![tactic(auto)]

mod grid;
mod text;

pub use grid::{grid_ok, range_ok};
pub use text::has_zero;
