// The totals.
ghost use Rattle.std.specs.Prelude.{◌^◌, ◌≡◌};
ghost use Rattle.sheet.specs.Sheet.{answered};
ghost use Rattle.sheet.specs.Parts.{none, added, Below};

use crate::{Counted, LIMIT};
use meaning::{Reading, Refusal};

// The totals over the rows: how many, how many of each answer, and the default counts.
// kept: C gets the refusals and the counts by these names (`TypetextTotals`), and a match names them more plainly than places of an array
#[derive(Clone, Copy)]
pub struct Totals {
    pub answer: Counted,
    pub rows: usize,
    pub accepted: usize,
    pub refused_1: usize,
    pub refused_2: usize,
    pub refused_3: usize,
    pub refused_4: usize,
    pub a: usize,
    pub b: usize,
    pub c: usize,
    pub d: usize,
}

impl Totals {
    // One row more, with what was read in it.
    pub(crate) fn count(&mut self, r: &Reading)
        requires { Below (2 ^ 64) (added self.old r.now) }
        ensures { self.new ≡ added self.old r.now }
    {
        self.rows += 1;
        self.a += r.note.a;
        self.b += r.note.b;
        self.c += r.note.c;
        self.d += r.note.d;
        match r.refusal {
            Refusal::Accepted => self.accepted += 1,
            Refusal::TooLong => self.refused_1 += 1,
            Refusal::HighByte => self.refused_2 += 1,
            Refusal::NoType => self.refused_3 += 1,
            Refusal::TooMany => self.refused_4 += 1,
            // The ordinary reader gives no other.
            _ => {}
        }
    }
}

// No row yet.
// kept: `Default` would have to choose an answer too
pub(crate) fn none(answer: Counted) -> Totals
    ensures { result ≡ none answer }
{
    Totals {
        answer,
        rows: 0,
        accepted: 0,
        refused_1: 0,
        refused_2: 0,
        refused_3: 0,
        refused_4: 0,
        a: 0,
        b: 0,
        c: 0,
        d: 0,
    }
}

pub(crate) fn answer(sheet: &[u8]) -> Counted
    ensures { result ≡ answered 65536 sheet.now }
{
    if sheet.len() <= LIMIT {
        Counted::Whole
    } else {
        Counted::TooLong
    }
}
