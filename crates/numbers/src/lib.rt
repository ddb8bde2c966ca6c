// Readings and records in numbers, as they cross to C (docs/ABI.md): kinds, scalars and paddings in document 01's order. Here to numbers; back
// in `sent`.
#![tactic(auto)]

mod sent;

ghost use Rattle.std.specs.Prelude.{◌≡◌};
ghost use Rattle.numbers.specs.Numbers.{kind_number, scalar_number, padding_number, record_numbers, note_numbers, in_numbers};

use meaning::{CAP, Kind, Note, Padding, Reading, Record};
use scalars::Scalar;
pub use sent::of_numbers;

// A record in numbers, as a caller may send it.
// kept: C gets these fields (docs/ABI.md)
#[repr(C)]
#[derive(Clone, Copy)]
pub struct TypetextRecord {
    pub shape_len: usize,
    pub strides_len: usize,
    pub tile_len: usize,
    pub map_len: usize,
    pub traversal_len: usize,
    pub shape: [i64; CAP],
    pub strides: [i64; CAP],
    pub tile: [i32; CAP],
    pub map: [i32; CAP],
    pub traversal: [i32; CAP],
    pub sparse: i32,
    pub kind: u8,
    pub element: u8,
    pub padding: u8,
    pub pointer: u8,
    pub attribute: u8,
}

// A note in numbers: one struct, so that what it tells more later grows here alone.
// kept: C gets these fields (docs/ABI.md)
#[repr(C)]
#[derive(Clone, Copy)]
pub struct TypetextNote {
    pub a: usize,
    pub b: usize,
    pub c: usize,
    pub d: usize,
}

// A reading in numbers; its value can be handed to the writer as it is.
// kept: C gets these fields (docs/ABI.md)
#[repr(C)]
#[derive(Clone, Copy)]
pub struct TypetextReading {
    pub value: TypetextRecord,
    pub place: usize,
    pub note: TypetextNote,
    pub refusal: u8,
}

// kept: `From` for these would stand in `meaning` and `scalars`, which know nothing of C
fn kind_number(k: Kind) -> u8
    ensures { result ≡ kind_number k }
{
    k as u8
}

fn scalar_number(s: Scalar) -> u8
    ensures { result ≡ scalar_number s }
{
    s as u8
}

fn padding_number(p: Padding) -> u8
    ensures { result ≡ padding_number p }
{
    p as u8
}

#[tactic(auto, unfolding(crate::specs::Numbers::record_numbers))]
fn record_numbers(v: Record) -> TypetextRecord
    ensures { result ≡ record_numbers v }
{
    // kept: an array field put straight into another struct gets no proof
    let shape = v.shape;
    let strides = v.strides;
    let tile = v.tile;
    let map = v.map;
    let traversal = v.traversal;
    TypetextRecord {
        shape_len: v.shape_len,
        strides_len: v.strides_len,
        tile_len: v.tile_len,
        map_len: v.map_len,
        traversal_len: v.traversal_len,
        shape,
        strides,
        tile,
        map,
        traversal,
        sparse: v.sparse,
        kind: kind_number(v.kind),
        element: scalar_number(v.element),
        padding: padding_number(v.padding),
        pointer: v.pointer as u8,
        attribute: v.attribute as u8,
    }
}

fn note_numbers(n: Note) -> TypetextNote
    ensures { result ≡ note_numbers n }
{
    TypetextNote {
        a: n.a,
        b: n.b,
        c: n.c,
        d: n.d,
    }
}

// kept: `in_numbers` is a public function, which the contracts of `capi` name
#[tactic(auto, unfolding(crate::specs::Numbers::in_numbers))]
pub fn in_numbers(r: Reading) -> TypetextReading
    ensures { result ≡ in_numbers r }
{
    TypetextReading {
        value: record_numbers(r.value),
        place: r.place,
        note: note_numbers(r.note),
        refusal: r.refusal.number(),
    }
}
