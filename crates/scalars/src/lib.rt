// Scalar types: their names, widths and classes.
#![tactic(auto)]

mod scalar;

pub use scalar::{Scalar, parse_scalar};
