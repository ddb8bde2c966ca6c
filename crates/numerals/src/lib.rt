// Numerals of any width, and the parts of a list that are such.
#![tactic(auto)]

mod integer;
mod numeral;
mod part;

pub use integer::Integer;
pub use numeral::parse;
pub use part::{Part, parse_part};
