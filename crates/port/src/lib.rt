// The port of types.rs (01, modules 3 to 7): what `Type::parse` returns, with the default counts. Names are those of types.rs.
#![tactic(auto)]

mod anchors;
mod brackets;
mod inner;
mod keys;
mod made;
mod marks;
mod repeats;
mod survey;
mod tensor_view;
mod tile;
mod types;
mod views;

pub use types::parse;
