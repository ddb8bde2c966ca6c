// A sheet of texts, row after row (02, C-11): a walker that stands on the lent sheet, and exact totals over its rows.
#![tactic(auto)]

mod lines;
mod sums;
mod walker;

ghost use Rattle.std.specs.Prelude.{◌≡◌};
ghost use Rattle.sheet.specs.Sheet.{number, totals};

pub use lines::cut_at;
pub use sums::Totals;
use sums::{answer, none};
pub use walker::Walker;

// A sheet has at most this many bytes.
pub const LIMIT: usize = 65536;

// Whether a sheet was counted.
// kept: `totals` promises its zeros beside `TooLong`, and C gets both (`typetext_totals`), so no `Result` stands for it
#[derive(Clone, Copy, Debug, PartialEq, Eq)]
pub enum Counted {
    Whole = 0,
    TooLong = 9,
}

impl Counted {
    // The number of the refusal; 0 for a sheet that was counted.
    pub fn number(self) -> u8
        ensures { result ≡ number self }
    {
        self as u8
    }
}

// Where a row lies: its first byte, its end, and the place behind its line feed.
// kept: C gets these places (`TypetextRow`), so that they are no slices
#[derive(Clone, Copy)]
pub struct Cut {
    pub first: usize,
    pub end: usize,
    pub next: usize,
}

// The totals of a sheet. One over the limit has no row, so that all its counts are 0.
pub fn totals(sheet: &[u8]) -> Totals
    ensures { result ≡ totals 65536 8 1024 sheet.now }
{
    let mut t = none(answer(sheet));
    for c in Walker::new(sheet) {
        t.count(&ordinary::parse(&sheet[c.first..c.end]));
    }
    t
}
