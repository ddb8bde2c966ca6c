// One row of the list: a text with escapes, a tab, the recorded answer.
ghost use Rattle.std.specs.Prelude.{◌<◌, length, IfSome};

use super::back::{Back, write_back};
use super::render::shown;
use meaning::Refusal;
use std::io::{self, Print, Write};

// The value of a hexadecimal digit; 0 where it is none.
// kept: `to_digit` reads A to F too, which are no digits here
fn nibble(b: u8) -> u8 {
    match b {
        b'0'..=b'9' => b - b'0',
        b'a'..=b'f' => b - b'a' + 10,
        _ => 0,
    }
}

// The first byte that an escaped text stands for, and what follows it there.
fn first(s: &[u8]) -> Option<(u8, &[u8])>
    ensures { IfSome result (λ p. length p.1.now < length s.now) }
{
    match s {
        [] => None,
        [b'\\', b'\\', rest @ ..] => Some((b'\\', rest)),
        [b'\\', _, high, low, rest @ ..] => Some((
            nibble(*high) % 16 * 16 + nibble(*low) % 16,
            rest,
        )),
        [b'\\', b, rest @ ..] => Some((*b, rest)),
        [b, rest @ ..] => Some((*b, rest)),
    }
}

// Puts the bytes that `s` stands for into the room; what doesn't fit is left out.
// kept: no heap is used, so that they go into a room
fn unescape<'r>(s: &[u8], room: &'r mut [u8]) -> &'r [u8] {
    let mut t = s;
    let mut n = 0;
    while let Some((b, rest)) = first(t) {
        if n < room.len() {
            room[n] = b;
            n += 1;
        }
        t = rest;
    }
    &room[..n]
}

fn show<R: Print>(rt: &R, what: &str, row: &[u8], answer: &str) -> io::Result<()> {
    print!(rt; "{what}: ")?;
    io::writer(rt).write_all(row)?;
    println!(rt; "\n   ours: {answer}")
}

// Whether the reader answers as the row says, and what became of the type, if it reads one.
#[derive(Clone, Copy)]
pub struct Tried {
    pub same: bool,
    pub back: Option<Back>,
}

// Says so where something is wrong.
pub fn try_row<R: Print>(rt: &R, row: &[u8]) -> io::Result<Tried> {
    let mut room = [0u8; 2048];
    let (text, recorded) = match row.iter().position(|b| *b == b'\t') {
        Some(k) => (&row[..k], &row[k + 1..]),
        None => (row, &row[row.len()..]),
    };
    let r = ordinary::parse(unescape(text, &mut room));
    let ours = shown(r);
    let same = ours.as_str().as_bytes() == recorded;
    if !same {
        show(rt, "differs", row, ours.as_str())?;
    }
    let back = match r.refusal {
        Refusal::Accepted => Some(write_back(r.value)),
        _ => None,
    };
    if let Some(Back::Changed | Back::NotWritten) = back {
        show(rt, "not returned", row, ours.as_str())?;
    }
    Ok(Tried { same, back })
}
