// Tensor views (01, module 5).
ghost use Rattle.std.specs.Prelude.{◌+◌, ◌≤◌, ◌≡◌, length, take, drop, Option, Some, option_map};
ghost use Rattle.meaning.specs.Parts.{each};
ghost use Rattle.meaning.specs.Tile.{dimensions, stride_parts, strides_of, tensor_parts, tensor, tensor_view};
ghost use Rattle.lists.specs.Laid.{laid, list};
ghost use Rattle.port.specs.Keys.{Placed};
ghost use Rattle.port.specs.Carried.{carried, answered, TensorIs};

use super::keys::Places;
use super::made::simple;
use lists::Dims;
use meaning::{Kind, Reading, Refusal, refuse};
use scalars::Scalar;

// A tensor view's parts.
#[derive(Clone, Copy)]
pub struct Tensor {
    pub element: Scalar,
    pub shape: Dims,
    pub strides: Dims,
}

// `[shape x]scalar, strides=[strides]`.
pub(crate) fn parse_tensor(inner: &[u8], k: Places) -> Option<Tensor>
    requires { Placed inner.now k }
    ensures { TensorIs result (tensor inner.now) }
{
    let i = k.spaced;
    if i < inner.len() {
        return around(inner, i, 10);
    }
    let j = k.bare;
    if j < inner.len() {
        return around(inner, j, 9);
    }
    tensor_parts(inner, None)
}

// The strides' clause opens with the `n` bytes at `i`.
fn around(inner: &[u8], i: usize, n: usize) -> Option<Tensor>
    requires { i + n ≤ length inner.now }
    ensures { TensorIs result (tensor_parts (take i inner.now) (Some (drop (i + n) inner.now))) }
{
    tensor_parts(&inner[..i], Some(&inner[i + n..]))
}

// Shape and scalar, and the strides' text if there is one.
fn tensor_parts(s: &[u8], strides: Option<&[u8]>) -> Option<Tensor>
    ensures { TensorIs result (tensor_parts s.now (option_map (λ t. t.now) strides.entry)) }
{
    let f = lists::parse_front(s);
    let element = scalars::parse_scalar(&s[f.last..])?;
    Some(Tensor {
        element,
        shape: f.dims,
        strides: strides_of(f.dims.row.len, strides),
    })
}

// Without the clause, one DYNAMIC per dimension.
fn strides_of(rank: usize, strides: Option<&[u8]>) -> Dims
    ensures { list result ≡ laid 8 (strides_of rank (option_map (λ t. t.now) strides.entry)) }
{
    match strides {
        Some(s) => parse_strides(s),
        None => lists::dynamic(rank),
    }
}

// All leading `[` and trailing `]` go; split at commas.
fn parse_strides(s: &[u8]) -> Dims
    ensures { list result ≡ laid 8 (dimensions (stride_parts s.now)) }
{
    lists::parse_dims(
        lexis::trim_end_matches(lexis::trim_start_matches(s, b'['), b']'),
        b',',
    )
}

pub(crate) fn parse_tensor_view(inner: &[u8], k: Places, marked: bool) -> Reading
    requires { Placed inner.now k }
    ensures { result ≡ answered marked (each (carried 8) (tensor_view inner.now)) }
{
    match parse_tensor(inner, k) {
        Some(t) => simple(
            Kind::TensorView,
            t.element,
            false,
            t.shape,
            t.strides,
            marked,
        ),
        None => refuse(Refusal::NoType, 0),
    }
}
