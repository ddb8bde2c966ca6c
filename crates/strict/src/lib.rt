// The strict reader: one cursor over the text, no step back. Each part answers a value and the place after it, or the place where it is stuck.
#![tactic(auto)]

mod answer;
mod cursor;
mod heads;
mod inner;
mod judge;
mod list;
mod middles;
mod names;
mod number;
mod view;
mod whole;
mod words;

pub use answer::parse_strict;
