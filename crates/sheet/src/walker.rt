// A walker over the rows of a sheet.
ghost use Rattle.std.specs.Prelude.{◌≡◌, ◌-◌, length};
ghost use Rattle.std.specs.Iterator.{at_most};
ghost use Rattle.sheet.specs.Sheet.{bytes_of, Nexts};

use crate::Cut;
use crate::lines::{cut_at, part};

// A walker: the sheet that it stands on, and its place there.
#[derive(Clone, Copy)]
pub struct Walker<'a> {
    pub sheet: &'a [u8],
    pub place: usize,
}

impl<'a> Walker<'a> {
    // A walker at the front of the sheet.
    pub fn new(sheet: &'a [u8]) -> Walker<'a>
        ensures { (result.sheet ≡ sheet.entry) × (result.place ≡ 0) }
    {
        Walker { sheet, place: 0 }
    }

    // The bytes of a row.
    pub fn row(self, c: Cut) -> &'a [u8]
        ensures { result.now ≡ bytes_of c self.entry.sheet.now }
    {
        part(self.sheet, c.first, c.end)
    }
}

impl<'a> Iterator for Walker<'a> {
    type Item = Cut;

    ghost next_gives = { Nexts 65536 };

    ghost remaining = { λ w. at_most (length w.sheet.now - w.place) };

    // The next row, behind which the walker then stands; at the end it stays.
    fn next(&mut self) -> Option<Cut> {
        let c = cut_at(self.sheet, self.place)?;
        self.place = c.next;
        Some(c)
    }
}
