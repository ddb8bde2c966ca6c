// Entries and lists of a type, read into arrays: the first entries up to the capacity, and a row: their true number, how they came.
#![tactic(auto)]

mod entries;
mod entry;
mod fill;
mod list;
mod row;

pub use entries::Entries;
pub use entry::{Entry, parse_dim, parse_small};
pub use fill::{count_up, dynamic, ones, zero};
pub use list::{Dims, Front, Listing, Smalls, parse_dims, parse_front, parse_one, parse_smalls};
pub use row::{Row, Tally};
