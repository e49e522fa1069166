// The lines of the program, put into a lent text from a place on: a symbol given to `step` and its line, `finish` and
// its line. Nothing else of the text is changed.
#![tactic(auto)]

mod telling;
mod text;

pub use telling::{put_end, put_symbol};
pub use text::put_no_table;
