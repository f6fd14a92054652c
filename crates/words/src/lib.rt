// A line of text as words and decimal numbers. Words stand apart by blanks: spaces, tabs, carriage returns.
#![tactic(auto)]

mod decimal;
mod text;

pub use decimal::numbers;
pub use text::{line_end, pass, same};
