// What every reader refuses with: the place of a byte that is not ASCII, and the blank record (01, "Refusals").
ghost use Rattle.std.specs.Prelude.{◌≡◌};
ghost use Rattle.meaning.specs.Found.{unnoted};
ghost use Rattle.meaning.specs.Ordinary.{high_from, refused};

use crate::{Note, Reading, Refusal, blank};
use lexis::Outside;

// The place of the first byte of 128 or more.
pub fn first_high(text: &[u8]) -> Option<usize>
    ensures { result ≡ high_from 0 text.now }
{
    let i = lexis::until(text, Outside { lo: 0, hi: 127 });
    if i < text.len() { Some(i) } else { None }
}

// What is noted where no default was taken.
pub fn no_note() -> Note
    ensures { result ≡ unnoted }
{
    Note::default()
}

// The blank record, and nothing noted.
pub fn refuse(refusal: Refusal, place: usize) -> Reading
    ensures { result ≡ refused 8 refusal place }
{
    let value = blank();
    Reading {
        refusal,
        place,
        value,
        note: no_note(),
    }
}
