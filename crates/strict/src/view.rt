// The parts of the three views, from the entries of the tile to the closing `>`.
ghost use Rattle.std.specs.Prelude.{◌≡◌, [], drop, length, ◌≤◌};
ghost use Rattle.meaning.specs.Found.{padded};
ghost use Rattle.strict.specs.Cursor.{Told};
ghost use Rattle.strict.specs.Lists.{row};
ghost use Rattle.strict.specs.Views.{sight, sighted, walking, map_part, sparse_part, enclosed, ending};

use super::cursor::{Read, Stuck};
use super::inner::{Tensor, read_tensor};
use super::list::read_list;
use super::middles::{read_lead, read_pad};
use super::number::number32;
use super::words::{fit, read_two};
use meaning::Padding;

// A tensor view, and the padding before it.
#[derive(Clone, Copy)]
pub(crate) struct Sight {
    pub(crate) padding: Padding,
    pub(crate) tensor: Tensor,
}

// The end of a view: how many entries its map has, and its sparse dimension.
// kept: C gets both fields, 0 for what a view lacks, so that an enum would be taken apart at once
#[derive(Clone, Copy)]
pub(crate) struct Last {
    pub(crate) map: usize,
    pub(crate) sparse: i32,
}

// What follows the word that opens a tensor view or, where it is `led`, a padding.
// kept: `sight` of specs/Views.antt takes the flag; and lent as one, the lists would want a clause for each that stays as it was
pub(crate) fn read_sight(
    s: &[u8],
    at: usize,
    led: bool,
    shape: &mut [i64],
    strides: &mut [i64],
) -> Result<Read<Sight>, Stuck>
    requires at_in_bounds { at ≤ length s.now }
    requires shape_value { shape.old ≡ padded 8 [] }
    requires strides_value { strides.old ≡ padded 8 [] }
    ensures { Told s.now at (sight led (drop at s.now)) (sighted shape.new strides.new) result }
{
    if led {
        let p = read_pad(s, at)?;
        let l = read_lead(s, p.end)?;
        let t = read_tensor(s, l.end, shape, strides)?;
        return Ok(Read {
            value: Sight {
                padding: p.value,
                tensor: t.value,
            },
            end: t.end,
        });
    }
    let t = read_tensor(s, at, shape, strides)?;
    Ok(Read {
        value: Sight {
            padding: Padding::Absent,
            tensor: t.value,
        },
        end: t.end,
    })
}

// In a strided view, the traversal after the tile.
// kept: `walking`, `mid` and `ending` of specs/Views.antt take a flag; a closure for each kind of view is no plainer
pub(crate) fn read_walk(
    s: &[u8],
    at: usize,
    bare: bool,
    walk: &mut [i32],
) -> Result<Read<usize>, Stuck>
    requires at_in_bounds { at ≤ length s.now }
    requires walk_value { walk.old ≡ padded 8 [] }
    ensures { Told s.now at (walking bare (drop at s.now)) (row walk.new) result }
{
    if bare {
        return Ok(Read { value: 0, end: at });
    }
    let k = read_two(
        s,
        at,
        b"),",
        b"traversal_strides=[",
        b" traversal_strides=[",
    )?;
    read_list(s, k.end, walk)
}

// The dimension map, and the end of the view.
fn read_map(s: &[u8], at: usize, map: &mut [i32]) -> Result<Read<usize>, Stuck>
    requires at_in_bounds { at ≤ length s.now }
    requires map_value { map.old ≡ padded 8 [] }
    ensures { Told s.now at (map_part (drop at s.now)) (row map.new) result }
{
    let k = read_two(s, at, b",", b"dim_map=[", b" dim_map=[")?;
    let l = read_list(s, k.end, map)?;
    let m = fit(s, l.end, b"]>", ())?;
    Ok(Read {
        value: l.value,
        end: m.end,
    })
}

// The sparse dimension, and the end of the view.
fn read_sparse(s: &[u8], at: usize) -> Result<Read<i32>, Stuck>
    requires { at ≤ length s.now }
    ensures { Told s.now at (sparse_part (drop at s.now)) (λ z. z) result }
{
    let k = read_two(s, at, b",", b"sparse_dim=", b" sparse_dim=")?;
    let n = number32(s, k.end)?;
    fit(s, n.end, b">", n.value)
}

// The end of a view: its sparse dimension, or its map.
pub(crate) fn read_last(
    s: &[u8],
    at: usize,
    sparse: bool,
    map: &mut [i32],
) -> Result<Read<Last>, Stuck>
    requires at_in_bounds { at ≤ length s.now }
    requires map_value { map.old ≡ padded 8 [] }
    ensures { Told s.now at (ending sparse (drop at s.now)) (enclosed map.new) result }
{
    if sparse {
        let n = read_sparse(s, at)?;
        return Ok(Read {
            value: Last {
                map: 0,
                sparse: n.value,
            },
            end: n.end,
        });
    }
    let m = read_map(s, at, map)?;
    Ok(Read {
        value: Last {
            map: m.value,
            sparse: 0,
        },
        end: m.end,
    })
}
