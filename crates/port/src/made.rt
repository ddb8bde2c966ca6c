// Record and note of a type that was found, or its refusal: here alone they are put together.
ghost use Rattle.std.specs.Prelude.{◌≤◌, ◌≡◌, ◌&&◌, leb, Some};
ghost use Rattle.meaning.specs.Found.{unused, plain};
ghost use Rattle.meaning.specs.declared.Padding.TheVariants.{Absent};
ghost use Rattle.lists.specs.Laid.{laid, list};
ghost use Rattle.port.specs.Carried.{carried, built, fell, lacks, rows_noted, answered, Sound};

use lists::{Dims, Row, Smalls};
use meaning::{CAP, Kind, Note, Padding, Reading, Record, Refusal, refuse};
use scalars::Scalar;

// No list has over eight entries.
// kept: `strict` looks at lists of its own, and neither crate uses the other
fn within(shape: Row, strides: Row, tile: Row, map: Row, traversal: Row) -> bool
    ensures { result ≡ leb shape.len 8 && leb strides.len 8 && leb tile.len 8 && leb map.len 8 && leb traversal.len 8 }
{
    (shape.len <= CAP)
        & (strides.len <= CAP)
        & (tile.len <= CAP)
        & (map.len <= CAP)
        & (traversal.len <= CAP)
}

// A whole clause that was filled in counts once; one without an entry fills nothing in.
fn lacks(r: Row) -> usize
    ensures { result ≡ lacks r }
{
    if r.stood {
        return 0;
    }
    if r.len == 0 { 0 } else { 1 }
}

// What is noted of all lists.
fn noted(shape: Row, strides: Row, tile: Row, map: Row, traversal: Row, sparse: Row) -> Note
    requires { (shape.tally.fell ≤ 8) × (strides.tally.fell ≤ 8) × (map.tally.fell ≤ 8) × (traversal.tally.fell ≤ 8) × (sparse.tally.fell ≤ 8) }
    ensures { result ≡ rows_noted shape strides tile map traversal sparse }
{
    Note {
        a: shape.tally.fell + strides.tally.fell,
        b: tile.tally.fell,
        c: map.tally.fell + traversal.tally.fell + sparse.tally.fell,
        d: lacks(strides) + lacks(map) + lacks(traversal) + lacks(sparse),
    }
}

// The reading of what was found, `marked` or not; or refusal 4.
pub(crate) fn made(
    kind: Kind,
    element: Scalar,
    pointer: bool,
    shape: Dims,
    strides: Dims,
    tile: Smalls,
    map: Smalls,
    traversal: Smalls,
    sparse: Smalls,
    padding: Padding,
    marked: bool,
) -> Reading
    requires { Sound (list shape) (list strides) (list tile) (list map) (list traversal) (list sparse) }
    ensures { result ≡ answered marked (Some (built kind element pointer (list shape) (list strides) (list tile) (list map) (list traversal) (list sparse) padding)) }
{
    let a = shape.row;
    let b = strides.row;
    let c = tile.row;
    let d = map.row;
    let e = traversal.row;
    if !within(a, b, c, d, e) {
        return refuse(Refusal::TooMany, 0);
    }
    let f = sparse.row;
    let note = noted(a, b, c, d, e, f);
    let shapes = shape.values;
    let steps = strides.values;
    let tiles = tile.values;
    let maps = map.values;
    let walks = traversal.values;
    let one = sparse.values;
    let dim = one[0];
    let value = Record {
        shape_len: a.len,
        strides_len: b.len,
        tile_len: c.len,
        map_len: d.len,
        traversal_len: e.len,
        shape: shapes,
        strides: steps,
        tile: tiles,
        map: maps,
        traversal: walks,
        sparse: dim,
        kind, // that of the form
        element,
        padding,
        pointer,
        attribute: marked,
    };
    Reading {
        value,
        place: 0,
        note,
        refusal: Refusal::Accepted,
    }
}

// A type without a view's lists.
pub(crate) fn simple(
    kind: Kind,
    element: Scalar,
    pointer: bool,
    shape: Dims,
    strides: Dims,
    marked: bool,
) -> Reading
    requires { (fell (list shape) ≤ shape.row.len) × (fell (list strides) ≤ strides.row.len) }
    ensures { result ≡ answered marked (Some (built kind element pointer (list shape) (list strides) (laid 8 unused) (laid 8 unused) (laid 8 unused) (laid 8 unused) Absent)) }
{
    let l = Smalls::none();
    made(
        kind,
        element,
        pointer,
        shape,
        strides,
        l,
        l,
        l,
        l,
        Padding::Absent,
        marked,
    )
}

// A type without lists.
pub(crate) fn listless(kind: Kind, element: Scalar, marked: bool) -> Reading
    ensures { result ≡ answered marked (Some (carried 8 (plain kind element))) }
{
    let l = Dims::none();
    simple(kind, element, false, l, l, marked)
}
