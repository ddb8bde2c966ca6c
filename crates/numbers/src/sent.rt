// Records from numbers: what a caller sends may be no record's.
ghost use Rattle.std.specs.Prelude.{◌≡◌};
ghost use Rattle.numbers.specs.Numbers.{kind_of, scalar_of, padding_of, flag_of, of_numbers};

use crate::TypetextRecord;
use meaning::{Kind, Padding, Record};
use scalars::Scalar;

// kept: `TryFrom` for these would stand in `meaning` and `scalars`, which know nothing of C
fn kind_of(n: u8) -> Option<Kind>
    ensures { result ≡ kind_of n }
{
    match n {
        0 => Some(Kind::Scalar),
        1 => Some(Kind::Pointer),
        2 => Some(Kind::Tile),
        3 => Some(Kind::TensorView),
        4 => Some(Kind::Partition),
        5 => Some(Kind::GatherScatter),
        6 => Some(Kind::Strided),
        7 => Some(Kind::Token),
        _ => None,
    }
}

fn scalar_of(n: u8) -> Option<Scalar>
    ensures { result ≡ scalar_of n }
{
    match n {
        0 => Some(Scalar::I1),
        1 => Some(Scalar::I4),
        2 => Some(Scalar::I8),
        3 => Some(Scalar::I16),
        4 => Some(Scalar::I32),
        5 => Some(Scalar::I64),
        6 => Some(Scalar::F16),
        7 => Some(Scalar::BF16),
        8 => Some(Scalar::F32),
        9 => Some(Scalar::TF32),
        10 => Some(Scalar::F64),
        11 => Some(Scalar::F8E4M3FN),
        12 => Some(Scalar::F8E5M2),
        13 => Some(Scalar::F8E8M0FNU),
        14 => Some(Scalar::F4E2M1FN),
        15 => Some(Scalar::F8E5M3FNU),
        _ => None,
    }
}

fn padding_of(n: u8) -> Option<Padding>
    ensures { result ≡ padding_of n }
{
    match n {
        0 => Some(Padding::Absent),
        1 => Some(Padding::Zero),
        2 => Some(Padding::NegZero),
        3 => Some(Padding::Nan),
        4 => Some(Padding::PosInf),
        5 => Some(Padding::NegInf),
        _ => None,
    }
}

fn flag_of(n: u8) -> Option<bool>
    ensures { result ≡ flag_of n }
{
    match n {
        0 => Some(false),
        1 => Some(true),
        _ => None,
    }
}

// The record with these numbers, if there is one.
#[tactic(auto, unfolding(crate::specs::Numbers::of_numbers))]
pub fn of_numbers(n: &TypetextRecord) -> Option<Record>
    ensures { result ≡ of_numbers n.now }
{
    // kept: an array field put straight into another struct gets no proof
    let shape = n.shape;
    let strides = n.strides;
    let tile = n.tile;
    let map = n.map;
    let traversal = n.traversal;
    Some(Record {
        kind: kind_of(n.kind)?,
        element: scalar_of(n.element)?,
        padding: padding_of(n.padding)?,
        pointer: flag_of(n.pointer)?,
        attribute: flag_of(n.attribute)?,
        shape,
        shape_len: n.shape_len,
        strides,
        strides_len: n.strides_len,
        tile,
        tile_len: n.tile_len,
        map,
        map_len: n.map_len,
        traversal,
        traversal_len: n.traversal_len,
        sparse: n.sparse,
    })
}
