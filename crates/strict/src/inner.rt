// What stands in a pointer, a tile and a tensor view, with what ends it.
ghost use Rattle.std.specs.Prelude.{◌≡◌, [], T, drop, length, ◌≤◌};
ghost use Rattle.meaning.specs.Found.{padded};
ghost use Rattle.strict.specs.Cursor.{Told};
ghost use Rattle.strict.specs.Words.{differ};
ghost use Rattle.strict.specs.Inner.{pointee, closings, core, cored, tile, tiled, listed, rest, rested, tensor, tensed};

use super::cursor::{Read, Stuck};
use super::list::{read_list, read_shape};
use super::middles::read_open;
use super::names::{read_core_name, read_name};
use super::words::{fit, fork, read_two};
use scalars::Scalar;

#[derive(Clone, Copy)]
pub(crate) struct Core {
    pub(crate) pointer: bool,
    pub(crate) element: Scalar,
    pub(crate) marked: bool,
}

#[derive(Clone, Copy)]
pub(crate) struct Tile {
    pub(crate) rank: usize,
    pub(crate) core: Core,
}

// The number of strides, and the mark.
#[derive(Clone, Copy)]
pub(crate) struct Rest {
    pub(crate) len: usize,
    pub(crate) marked: bool,
}

#[derive(Clone, Copy)]
pub(crate) struct Tensor {
    pub(crate) rank: usize,
    pub(crate) element: Scalar,
    pub(crate) rest: Rest,
}

// What stands in a pointer, and what closes it, without or with the mark.
#[inline(always)]
pub(crate) fn read_pointee(
    s: &[u8],
    at: usize,
    bare: &[u8],
    marked: &[u8],
) -> Result<Read<Core>, Stuck>
    requires at_in_bounds { at ≤ length s.now }
    requires apart { T (differ bare.now marked.now) }
    ensures { Told s.now at (pointee (closings bare.now marked.now) (drop at s.now)) cored result }
{
    let n = read_name(s, at)?;
    let m = fork(s, n.end, bare, false, marked, true)?;
    Ok(Read {
        value: Core {
            pointer: true,
            element: n.value,
            marked: m.value,
        },
        end: m.end,
    })
}

// A tile's element, and the tile's end.
fn read_core(s: &[u8], at: usize) -> Result<Read<Core>, Stuck>
    requires { at ≤ length s.now }
    ensures { Told s.now at (core (drop at s.now)) cored result }
{
    let k = read_core_name(s, at)?;
    let Some(element) = k.value else {
        return read_pointee(s, k.end, b">>", b", #cuda_tile.ptr_attr<none>>>");
    };
    let m = fit(s, k.end, b">", ())?;
    Ok(Read {
        value: Core {
            pointer: false,
            element,
            marked: false,
        },
        end: m.end,
    })
}

// What stands in a tile, with its end.
// kept: a list without entries as a type of its own would be two, as no generic struct holds an array of a type parameter
pub(crate) fn read_tile(s: &[u8], at: usize, shape: &mut [i64]) -> Result<Read<Tile>, Stuck>
    requires at_in_bounds { at ≤ length s.now }
    requires shape_value { shape.old ≡ padded 8 [] }
    ensures { Told s.now at (tile (drop at s.now)) (tiled shape.new) result }
{
    let l = read_shape(s, at, shape)?;
    let c = read_core(s, l.end)?;
    Ok(Read {
        value: Tile {
            rank: l.value,
            core: c.value,
        },
        end: c.end,
    })
}

// The strides' list, and what ends the tensor view.
fn read_strides(s: &[u8], at: usize, strides: &mut [i64]) -> Result<Read<Rest>, Stuck>
    requires at_in_bounds { at ≤ length s.now }
    requires strides_value { strides.old ≡ padded 8 [] }
    ensures { Told s.now at (listed (drop at s.now)) (rested strides.new) result }
{
    let l = read_list(s, at, strides)?;
    let m = read_two(s, l.end, b"]", b">", b", #cuda_tile.ptr_attr<none>>")?;
    Ok(Read {
        value: Rest {
            len: l.value,
            marked: m.value,
        },
        end: m.end,
    })
}

// After the name: the strides, which may be absent at rank 0 only, and what ends the tensor view.
fn read_rest(s: &[u8], at: usize, rank: usize, strides: &mut [i64]) -> Result<Read<Rest>, Stuck>
    requires at_in_bounds { at ≤ length s.now }
    requires strides_value { strides.old ≡ padded 8 [] }
    ensures { Told s.now at (rest rank (drop at s.now)) (rested strides.new) result }
{
    if rank == 0 {
        let k = read_open(s, at)?;
        if let Some(marked) = k.value {
            return Ok(Read {
                value: Rest { len: 0, marked },
                end: k.end,
            });
        }
        return read_strides(s, k.end, strides);
    }
    let k = read_two(s, at, b",", b"strides=[", b" strides=[")?;
    read_strides(s, k.end, strides)
}

// What stands in a tensor view, with its end.
// kept: lent as one, the lists would want a clause for each that stays as it was
pub(crate) fn read_tensor(
    s: &[u8],
    at: usize,
    shape: &mut [i64],
    strides: &mut [i64],
) -> Result<Read<Tensor>, Stuck>
    requires at_in_bounds { at ≤ length s.now }
    requires shape_value { shape.old ≡ padded 8 [] }
    requires strides_value { strides.old ≡ padded 8 [] }
    ensures { Told s.now at (tensor (drop at s.now)) (tensed shape.new strides.new) result }
{
    let l = read_shape(s, at, shape)?;
    let n = read_name(s, l.end)?;
    let r = read_rest(s, n.end, l.value, strides)?;
    Ok(Read {
        value: Tensor {
            rank: l.value,
            element: n.value,
            rest: r.value,
        },
        end: r.end,
    })
}
