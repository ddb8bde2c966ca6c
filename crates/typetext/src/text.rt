// The text to read, from an argument or from standard input; and how bytes from outside are shown.
use std::env::{Env, FillError};
use std::fmt::{self, Display, Formatter};
use std::io::Input;

// All of standard input, without a newline at its end.
fn input<'r, R: Input>(rt: &R, room: &'r mut [u8]) -> &'r [u8] {
    let n = match terminal::fill(&mut rt.reader(), room) {
        Ok(n) => n,
        Err(n) => n,
    };
    let text = &room[..n];
    text.strip_suffix(b"\n").unwrap_or(text)
}

fn argument<'r, R: Env>(rt: &R, at: usize, room: &'r mut [u8]) -> &'r [u8] {
    match rt.arg(at, room) {
        Ok(n) => &room[..n],
        // An argument that doesn't fit has more bytes than the room, which is then full.
        Err(FillError::TooLong) => room,
        Err(FillError::NotPresent) => &[],
    }
}

// Argument `at`, or standard input where there is none; what doesn't fit into the room is left out.
pub fn given<'r, R: Env + Input>(rt: &R, at: Option<usize>, room: &'r mut [u8]) -> &'r [u8] {
    match at {
        Some(at) => argument(rt, at, room),
        None => input(rt, room),
    }
}

// Bytes that came from outside, a column for each: what isn't printable is a dot.
#[derive(Clone, Copy)]
pub struct Plain<'a>(pub &'a [u8]);

impl Display for Plain<'_> {
    fn fmt<W: fmt::Write>(&self, f: &mut Formatter<W>) -> fmt::Result {
        for b in self.0 {
            match *b {
                b' '..=b'~' => write!(f, "{}", char::from(*b))?,
                _ => write!(f, ".")?,
            }
        }
        Ok(())
    }
}
