// The blank record, and whether a record is normal (01, "Records and numbers").
ghost use Rattle.std.specs.Prelude.{if◌then◌else◌, ◌≡◌, length, map};
ghost use Rattle.meaning.specs.Found.{flat, token};
ghost use Rattle.meaning.specs.Normal.{is_i1, is_absent, row, uses, clear, lists_clear, rest_blank, normal};

use crate::{CAP, Kind, Padding, Record};
use numerals::Integer;
use scalars::Scalar;

// What a kind uses; the attribute flag all do.
#[derive(Clone, Copy)]
struct Uses {
    element: bool,
    pointer: bool,
    shape: bool,
    strides: bool,
    tile: bool,
    map: bool,
    traversal: bool,
    sparse: bool,
    padding: bool,
}

// The blank record: the normal token without attribute.
pub fn blank() -> Record
    ensures { result ≡ flat 8 token }
{
    Record {
        kind: Kind::Token,
        element: Scalar::I1,
        pointer: false,
        attribute: false,
        shape: [0i64; CAP],
        shape_len: 0,
        strides: [0i64; CAP],
        strides_len: 0,
        tile: [0i32; CAP],
        tile_len: 0,
        map: [0i32; CAP],
        map_len: 0,
        traversal: [0i32; CAP],
        traversal_len: 0,
        sparse: 0,
        padding: Padding::Absent,
    }
}

// Whether no length exceeds the capacity and all that the kind doesn't use is blank.
pub fn is_normal(r: Record) -> bool
    ensures { result ≡ normal 8 r }
{
    let u = used_by(r.kind);
    lists_clear(u, &r) & rest_blank(u, &r)
}

// Each list is within its limit, with zeros past its length.
fn lists_clear(u: Uses, r: &Record) -> bool
    ensures { result ≡ lists_clear 8 u r.now }
{
    clear(u.shape, r.shape_len, &r.shape)
        & clear(u.strides, r.strides_len, &r.strides)
        & clear(u.tile, r.tile_len, &r.tile)
        & clear(u.map, r.map_len, &r.map)
        & clear(u.traversal, r.traversal_len, &r.traversal)
}

// What is no list, and isn't used, is blank: I1, false, zero, no padding.
fn rest_blank(u: Uses, r: &Record) -> bool
    ensures { result ≡ rest_blank u r.now }
{
    (u.element | is_i1(r.element))
        & (u.pointer | !r.pointer)
        & (u.sparse | (r.sparse == 0))
        & (u.padding | is_absent(r.padding))
}

// A list of `n` entries is within its limit, and zero past them.
fn clear<T: Integer>(used: bool, n: usize, l: &[T]) -> bool
    requires { length l.now ≡ 8 }
    ensures { result ≡ clear 8 used n (map T.is l.now) }
{
    if limit(used) < n {
        return false;
    }
    for z in &l[n..] {
        if z.wide() != 0 {
            return false;
        }
    }
    true
}

// How many entries a list may have.
fn limit(used: bool) -> usize
    ensures { result ≡ (if used then 8 else 0) }
{
    if used { CAP } else { 0 }
}

// kept: `is_i1` and `is_absent` of specs/Normal.antt are such tables; `==` is no shorter, and wants a lemma for each
fn is_i1(e: Scalar) -> bool
    ensures { result ≡ is_i1 e }
{
    matches!(e, Scalar::I1)
}

fn is_absent(p: Padding) -> bool
    ensures { result ≡ is_absent p }
{
    matches!(p, Padding::Absent)
}

// In this order: element, pointer, shape, strides, tile, map, traversal, sparse, padding.
fn used_by(k: Kind) -> Uses
    ensures { result ≡ uses k }
{
    match k {
        Kind::Scalar => row(true, false, false, false, false, false, false, false, false),
        Kind::Pointer => row(true, false, false, false, false, false, false, false, false),
        Kind::Tile => row(true, true, true, false, false, false, false, false, false),
        Kind::TensorView => row(true, false, true, true, false, false, false, false, false),
        Kind::Partition => row(true, false, true, true, true, true, false, false, true),
        Kind::GatherScatter => row(true, false, true, true, true, false, false, true, true),
        Kind::Strided => row(true, false, true, true, true, true, true, false, true),
        Kind::Token => row(
            false, false, false, false, false, false, false, false, false,
        ),
    }
}

// kept: a kind is one line above, as in `uses` of specs/Normal.antt, and not nine named fields
fn row(
    element: bool,
    pointer: bool,
    shape: bool,
    strides: bool,
    tile: bool,
    map: bool,
    traversal: bool,
    sparse: bool,
    padding: bool,
) -> Uses
    ensures { result ≡ row element pointer shape strides tile map traversal sparse padding }
{
    Uses {
        element,
        pointer,
        shape,
        strides,
        tile,
        map,
        traversal,
        sparse,
        padding,
    }
}
