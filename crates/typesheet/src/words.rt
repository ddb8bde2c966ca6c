// The words of the command line: none, or one that asks for help.
use std::env::{Env, FillError};

// What is asked for.
pub enum Asked {
    Totals,
    Help,
    Unknown,
}

pub fn ask<R: Env>(rt: &R) -> Asked {
    let mut room = [0u8; 8];
    match rt.arg(1, &mut room) {
        Err(FillError::NotPresent) => Asked::Totals,
        Err(FillError::TooLong) => Asked::Unknown,
        Ok(n) => match &room[..n] {
            b"--help" | b"-h" => Asked::Help,
            _ => Asked::Unknown,
        },
    }
}
