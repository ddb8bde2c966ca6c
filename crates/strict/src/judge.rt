// What was read, laid out as a record and judged: refusal 5, then refusal 4.
ghost use Rattle.std.specs.Prelude.{◌≡◌, ◌&&◌, leb};
ghost use Rattle.strict.specs.Whole.{laid, whole};
ghost use Rattle.strict.specs.Plain.{record_of, judged};

use super::whole::{Lists, Whole, read_whole};
use meaning::{CAP, Reading, Record, Refusal, no_note, refuse};

// The type as a record.
fn record_of(w: &Whole, lists: &Lists) -> Record
    ensures { result ≡ record_of (laid lists.now w.now) }
{
    let kind = w.kind;
    let sparse = w.sparse;
    Record {
        kind,
        element: w.element,
        pointer: w.pointer,
        attribute: w.marked,
        shape: lists.shape,
        shape_len: w.shape,
        strides: lists.strides,
        strides_len: w.strides,
        tile: lists.tile,
        tile_len: w.tile,
        map: lists.map,
        map_len: w.map,
        traversal: lists.walk,
        traversal_len: w.walk,
        sparse,
        padding: w.padding,
    }
}

// No list has over eight entries.
fn within(w: &Whole) -> bool
    ensures { result ≡ leb w.now.shape 8 && leb w.now.strides 8 && leb w.now.tile 8 && leb w.now.map 8 && leb w.now.walk 8 }
{
    w.shape <= CAP && w.strides <= CAP && w.tile <= CAP && w.map <= CAP && w.walk <= CAP
}

// The type is accepted if it is the whole text.
pub(crate) fn judge(text: &[u8]) -> Reading
    ensures { result ≡ judged (whole text.now) }
{
    let mut lists = Lists::blank();
    let read = read_whole(text, &mut lists);
    let w = match &read {
        Ok(r) if r.end == text.len() => &r.value,
        _ => return refuse(Refusal::NotStrict, 0),
    };
    if !within(w) {
        return refuse(Refusal::TooMany, 0);
    }
    let value = record_of(w, &lists);
    Reading {
        refusal: Refusal::Accepted,
        place: 0,
        value,
        note: no_note(),
    }
}
