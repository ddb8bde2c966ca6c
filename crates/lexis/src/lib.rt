// Trimming and byte search: what the readers stand on. Nothing here knows a type.
#![tactic(auto)]

mod blocks;
mod pattern;
mod room;
mod text;

pub use blocks::seek;
pub use pattern::{Ink, Outside, Pattern, White};
pub use room::lay;
pub use text::{
    begins, contains, find, find_by, same, trim, trim_end_matches, trim_start_matches, until,
};
