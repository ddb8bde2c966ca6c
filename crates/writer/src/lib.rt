// The text of a record, laid at the front of a room (01, "Written text").
#![tactic(auto)]

mod call;
mod fit;
mod has_text;
mod lists;
mod names;
mod parts;
mod put;
mod text;

pub use call::write;
