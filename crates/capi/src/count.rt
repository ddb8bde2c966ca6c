// A sheet's C face: its totals, and where the next row lies (docs/ABI.md).
ghost use Rattle.std.specs.Prelude.{◌≡◌};
ghost use Rattle.sheet.specs.Sheet.{cut, totals};
ghost use Rattle.capi.specs.Sheets.{sheet_number, total_numbers, row_numbers};

use sheet::{Counted, LIMIT, Totals};

// Totals in numbers.
// kept: C gets these fields (docs/ABI.md)
#[repr(C)]
#[derive(Clone, Copy)]
pub struct TypetextTotals {
    pub rows: usize,
    pub accepted: usize,
    pub refused_1: usize,
    pub refused_2: usize,
    pub refused_3: usize,
    pub refused_4: usize,
    pub a: usize,
    pub b: usize,
    pub c: usize,
    pub d: usize,
    pub refusal: u8,
}

// Where a row lies.
// kept: C gets these fields, and `found` beside a place (docs/ABI.md)
#[repr(C)]
#[derive(Clone, Copy)]
pub struct TypetextRow {
    pub first: usize,
    pub end: usize,
    pub next: usize,
    pub found: u8,
    pub refusal: u8,
}

#[tactic(auto, unfolding(crate::specs::Sheets::total_numbers))]
fn total_numbers(t: Totals) -> TypetextTotals
    ensures { result ≡ total_numbers t }
{
    TypetextTotals {
        rows: t.rows,
        accepted: t.accepted,
        refused_1: t.refused_1,
        refused_2: t.refused_2,
        refused_3: t.refused_3,
        refused_4: t.refused_4,
        a: t.a,
        b: t.b,
        c: t.c,
        d: t.d,
        refusal: t.answer.number(),
    }
}

// The refusal of a sheet, whatever its rows.
fn sheet_number(sheet: &[u8]) -> u8
    ensures { result ≡ sheet_number sheet.now }
{
    if sheet.len() <= LIMIT {
        Counted::Whole as u8
    } else {
        Counted::TooLong as u8
    }
}

// The totals over a sheet's rows. Any bytes get an answer.
#[unsafe(no_mangle)]
pub extern "C" fn typetext_totals(sheet: &[u8]) -> TypetextTotals
    ensures { result ≡ total_numbers (totals 65536 8 1024 sheet.now) }
{
    total_numbers(sheet::totals(sheet))
}

// The row that begins at a place, and the place of the next. Any bytes and any place get an answer.
#[unsafe(no_mangle)]
#[tactic(auto, unfolding(crate::specs::Sheets::row_numbers))]
pub extern "C" fn typetext_next_row(sheet: &[u8], place: usize) -> TypetextRow
    ensures { result ≡ row_numbers (sheet_number sheet.now) place (cut 65536 sheet.now place) }
{
    let refusal = sheet_number(sheet);
    match sheet::cut_at(sheet, place) {
        Some(c) => TypetextRow {
            first: c.first,
            end: c.end,
            next: c.next,
            found: 1,
            refusal,
        },
        None => TypetextRow {
            first: place,
            end: place,
            next: place,
            found: 0,
            refusal,
        },
    }
}
