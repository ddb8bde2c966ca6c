// A whole strict form: the first word tells the kind and what follows.
ghost use Rattle.std.specs.Prelude.{◌≡◌, drop, length, ◌≤◌, not};
ghost use Rattle.strict.specs.Cursor.{Told};
ghost use Rattle.strict.specs.Whole.{plainly, is_strided, is_gather, blank, laid, view, whole};

use super::cursor::{Read, Stuck};
use super::heads::{Head, read_head};
use super::inner::{read_pointee, read_tensor, read_tile};
use super::list::read_entries;
use super::middles::read_mid;
use super::view::{read_last, read_sight, read_walk};
use meaning::{CAP, Kind, Padding};
use scalars::Scalar;

// A type of any rank, with how many entries its lists have.
// kept: no heap is used, so that a list is no `Vec`; a number counts the entries past the capacity too
#[derive(Clone, Copy)]
pub(crate) struct Whole {
    pub(crate) kind: Kind,
    pub(crate) pointer: bool,
    pub(crate) element: Scalar,
    pub(crate) marked: bool,
    pub(crate) shape: usize,
    pub(crate) strides: usize,
    pub(crate) tile: usize,
    pub(crate) map: usize,
    pub(crate) walk: usize,
    pub(crate) sparse: i32,
    pub(crate) padding: Padding,
}

// The lists of a type, each up to the capacity.
#[derive(Drop)]
pub(crate) struct Lists {
    pub(crate) shape: [i64; CAP],
    pub(crate) strides: [i64; CAP],
    pub(crate) tile: [i32; CAP],
    pub(crate) map: [i32; CAP],
    pub(crate) walk: [i32; CAP],
}

impl Lists {
    // No list has an entry yet.
    pub(crate) fn blank() -> Lists
        ensures { result ≡ blank }
    {
        Lists {
            shape: [0; CAP],
            strides: [0; CAP],
            tile: [0; CAP],
            map: [0; CAP],
            walk: [0; CAP],
        }
    }
}

// A type that is no view.
fn made(
    kind: Kind,
    pointer: bool,
    element: Scalar,
    marked: bool,
    shape: usize,
    strides: usize,
) -> Whole
    ensures { result ≡ plainly kind pointer element marked shape strides }
{
    Whole {
        kind,
        pointer,
        element,
        marked,
        shape,
        strides,
        tile: 0,
        map: 0,
        walk: 0,
        sparse: 0,
        padding: Padding::Absent,
    }
}

// A view's tile is followed by a traversal.
fn is_strided(kind: Kind) -> bool
    ensures { result ≡ is_strided kind }
{
    matches!(kind, Kind::Strided)
}

// A view ends with its sparse dimension.
fn is_gather(kind: Kind) -> bool
    ensures { result ≡ is_gather kind }
{
    matches!(kind, Kind::GatherScatter)
}

// After the first word: a partition view, a gather-scatter view or a strided view.
fn read_view(s: &[u8], at: usize, kind: Kind, lists: &mut Lists) -> Result<Read<Whole>, Stuck>
    requires at_in_bounds { at ≤ length s.now }
    requires no_entry { lists.old ≡ blank }
    ensures { Told s.now at (view kind (not (is_strided kind)) (is_gather kind) (drop at s.now)) (laid lists.new) result }
{
    let bare = !is_strided(kind);
    let sparse = is_gather(kind);
    let t = read_entries(s, at, &mut lists.tile)?;
    let w = read_walk(s, t.end, bare, &mut lists.walk)?;
    let m = read_mid(s, w.end, bare)?;
    let v = read_sight(s, m.end, m.value, &mut lists.shape, &mut lists.strides)?;
    let e = read_last(s, v.end, sparse, &mut lists.map)?;
    let tensor = v.value.tensor;
    Ok(Read {
        value: Whole {
            kind,
            pointer: false,
            element: tensor.element,
            marked: tensor.rest.marked,
            shape: tensor.rank,
            strides: tensor.rest.len,
            tile: t.value,
            map: e.value.map,
            walk: w.value,
            sparse: e.value.sparse,
            padding: v.value.padding,
        },
        end: e.end,
    })
}

// A whole strict form from the start of the text. Its lists are laid into blank ones.
pub(crate) fn read_whole(s: &[u8], lists: &mut Lists) -> Result<Read<Whole>, Stuck>
    requires no_entry { lists.old ≡ blank }
    ensures { Told s.now 0 (whole s.now) (laid lists.new) result }
{
    let h = read_head(s)?;
    match h.value {
        Head::Scalar(element) => Ok(Read {
            value: made(Kind::Scalar, false, element, false, 0, 0),
            end: h.end,
        }),
        Head::Token => Ok(Read {
            value: made(Kind::Token, false, Scalar::I1, false, 0, 0),
            end: h.end,
        }),
        Head::Pointer => {
            let p = read_pointee(s, h.end, b">", b", #cuda_tile.ptr_attr<none>>")?;
            let c = p.value;
            Ok(Read {
                value: made(Kind::Pointer, false, c.element, c.marked, 0, 0),
                end: p.end,
            })
        }
        Head::Tile => {
            let t = read_tile(s, h.end, &mut lists.shape)?;
            let c = t.value.core;
            Ok(Read {
                value: made(Kind::Tile, c.pointer, c.element, c.marked, t.value.rank, 0),
                end: t.end,
            })
        }
        Head::TensorView => {
            let t = read_tensor(s, h.end, &mut lists.shape, &mut lists.strides)?;
            let v = t.value;
            Ok(Read {
                value: made(
                    Kind::TensorView,
                    false,
                    v.element,
                    v.rest.marked,
                    v.rank,
                    v.rest.len,
                ),
                end: t.end,
            })
        }
        Head::Partition => read_view(s, h.end, Kind::Partition, lists),
        Head::GatherScatter => read_view(s, h.end, Kind::GatherScatter, lists),
        Head::Strided => read_view(s, h.end, Kind::Strided, lists),
    }
}
