// Where rows lie.
ghost use Rattle.std.specs.Prelude.{◌≡◌};
ghost use Rattle.sheet.specs.Sheet.{behind, cut, stretch};

use crate::{Cut, LIMIT};

// The place behind a row that ends at `end`: behind its line feed, if it has one.
fn behind(sheet: &[u8], end: usize) -> usize
    ensures { result ≡ behind sheet.now end }
{
    if end < sheet.len() { end + 1 } else { end }
}

// The row that begins at `place`: up to the next line feed, or to the end. A sheet over the limit has none, nor is there one past the end.
#[tactic(auto, unfolding(crate::specs::Sheet::cut))]
pub fn cut_at(sheet: &[u8], place: usize) -> Option<Cut>
    ensures { result ≡ cut 65536 sheet.now place }
{
    if (sheet.len() <= LIMIT) & (place < sheet.len()) {
        let end = lexis::seek(sheet, place, b'\n');
        Some(Cut {
            first: place,
            end,
            next: behind(sheet, end),
        })
    } else {
        None
    }
}

// The bytes from `first` to `end`, as far as there are any.
pub(crate) fn part<'a>(sheet: &'a [u8], first: usize, end: usize) -> &'a [u8]
    ensures { result.now ≡ stretch first end sheet.now }
{
    let end = end.min(sheet.len());
    let first = first.min(end);
    &sheet[first..end]
}
