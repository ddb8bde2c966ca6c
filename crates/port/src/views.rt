// The three views (01, module 6).
ghost use Rattle.std.specs.Prelude.{◌+◌, ◌≤◌, ◌<◌, ◌≡◌, false, length, drop, Option, None, Some};
ghost use Rattle.lexis.specs.Text.{bytes, cut};
ghost use Rattle.meaning.specs.Found.{stands};
ghost use Rattle.meaning.specs.Parts.{each, between, close};
ghost use Rattle.meaning.specs.Tile.{tensor};
ghost use Rattle.meaning.specs.Views.{tile_entries, opened, enclosed, inner_by, padding, view, list_after, sparse_by};
ghost use Rattle.meaning.specs.Views.{partition_view, gather_scatter_view, strided_view};
ghost use Rattle.lists.specs.Laid.{laid, list};
ghost use Rattle.port.specs.Keys.{Spot, Placed};
ghost use Rattle.port.specs.Carried.{carried, built, answered, Sound, TensorIs, ViewIs, TileIs, ListIs, list_laid};

use super::inner::opens;
use super::keys::Places;
use super::made::made;
use super::survey::scan;
use super::tensor_view::{Tensor, parse_tensor};
use lists::Smalls;
use meaning::{Kind, Padding, Reading, Refusal, refuse};

// The tile shape, and where what follows its `)` begins.
// kept: `opens` seeks in the whole content, so that what follows is a place in it and no slice
#[derive(Clone, Copy)]
pub struct TileShape {
    pub tile: Smalls,
    pub behind: usize,
}

// What the three views share.
#[derive(Clone, Copy)]
pub struct View {
    pub tile: Smalls,
    pub tensor: Tensor,
    pub padding: Padding,
}

// A list that runs to the next `]`.
// kept: absent, never closed, and a list: an `Option` in an `Option` would name none of the three
#[derive(Clone, Copy)]
pub enum Listed<'a> {
    Absent,
    Unclosed,
    Between(&'a [u8]),
}

// `at` is the place of the first `tile=(`.
fn parse_view_tile_shape(inner: &[u8], at: usize) -> Option<TileShape>
    requires { Spot (bytes "tile=(") inner.now at }
    ensures { TileIs inner.now at result (between (bytes "tile=(") (bytes ")") inner.now) }
{
    if inner.len() <= at {
        return None;
    }
    let start = at + 6;
    let end = start + lexis::find(&inner[start..], b")")?;
    Some(TileShape {
        tile: tile_entries(&inner[start..end]),
        behind: end + 1,
    })
}

// Split at `x` if one occurs, else at commas; an unreadable entry is 1.
fn tile_entries(s: &[u8]) -> Smalls
    ensures { list result ≡ laid 8 (stands (tile_entries s.now)) }
{
    if lexis::contains(s, b"x", 0) {
        lists::parse_smalls(s, b'x', 1)
    } else {
        lists::parse_smalls(s, b',', 1)
    }
}

// Looked for only if `padding_value` occurs, first at `at`, and anywhere in the part.
fn parse_padding_value(inner: &[u8], at: usize) -> Padding
    requires { Spot (bytes "padding_value") inner.now at }
    ensures { result ≡ padding inner.now }
{
    if inner.len() <= at {
        return Padding::Absent;
    }
    if lexis::contains(inner, b"neg_zero", 4) {
        return Padding::NegZero;
    }
    if lexis::contains(inner, b"zero", 0) {
        return Padding::Zero;
    }
    if lexis::contains(inner, b"nan", 0) {
        return Padding::Nan;
    }
    if lexis::contains(inner, b"pos_inf", 6) {
        return Padding::PosInf;
    }
    if lexis::contains(inner, b"neg_inf", 6) {
        return Padding::NegInf;
    }
    Padding::Absent
}

// The inner tensor view; what follows the tile's `)` begins at `behind`.
fn parse_nested_tensor_view(inner: &[u8], k: Places, behind: usize) -> Option<Tensor>
    requires { Placed inner.now k × (k.tile < length inner.now) × (k.tile + 6 ≤ behind) × (behind ≤ length inner.now) }
    ensures { TensorIs result (inner_by (opened inner.now (drop behind inner.now))) }
{
    parse_enclosed(inner, opens(inner, k, behind)?)
}

// Up to the matching `>` from `i` on; without one the content is empty, and names no scalar.
fn parse_enclosed(inner: &[u8], i: usize) -> Option<Tensor>
    requires { i ≤ length inner.now }
    ensures { TensorIs result (tensor (enclosed (close 0 (drop i inner.now)))) }
{
    let s = &inner[i..];
    let r = scan(s);
    let n = r.end?;
    parse_tensor(&s[..n], r.places)
}

fn parse_view(inner: &[u8], k: Places) -> Option<View>
    requires { Placed inner.now k }
    ensures { ViewIs result (view inner.now) }
{
    let t = parse_view_tile_shape(inner, k.tile)?;
    let tensor = parse_nested_tensor_view(inner, k, t.behind)?;
    Some(View {
        tile: t.tile,
        tensor,
        padding: parse_padding_value(inner, k.padding),
    })
}

// The list after the first `prefix`, which stands at `at`.
fn list_after<'a>(inner: &'a [u8], prefix: &[u8], at: usize) -> Listed<'a>
    requires { Spot prefix.now inner.now at }
    ensures { ListIs result (list_after prefix.now inner.now) }
{
    if inner.len() <= at {
        return Listed::Absent;
    }
    let rest = &inner[at + prefix.len()..];
    match lexis::find(rest, b"]") {
        Some(n) => Listed::Between(&rest[..n]),
        None => Listed::Unclosed,
    }
}

// The list after `prefix`, or `own` where it is absent or never closed.
fn parse_i32_list_after(inner: &[u8], prefix: &[u8], at: usize, own: Smalls) -> Smalls
    requires { Spot prefix.now inner.now at }
    ensures { list result ≡ list_laid (list own) (list_after prefix.now inner.now) }
{
    match list_after(inner, prefix, at) {
        Listed::Between(l) => lists::parse_smalls(l, b',', 0),
        Listed::Unclosed | Listed::Absent => own,
    }
}

// `sparse_dim=` runs to `,`, `>` or the end; unreadable or absent is 0. `at` is its first place.
fn parse_sparse(inner: &[u8], at: usize) -> Smalls
    requires { Spot (bytes "sparse_dim=") inner.now at }
    ensures { list result ≡ laid 8 (sparse_by (cut (bytes "sparse_dim=") inner.now)) }
{
    if inner.len() <= at {
        return lists::zero();
    }
    let t = &inner[at + 11..];
    let k = lexis::until(t, b',');
    let u = &t[..k];
    let n = lexis::until(u, b'>');
    lists::parse_one(&u[..n])
}

fn view_of(
    kind: Kind,
    v: View,
    map: Smalls,
    traversal: Smalls,
    sparse: Smalls,
    marked: bool,
) -> Reading
    requires { Sound (list v.tensor.shape) (list v.tensor.strides) (list v.tile) (list map) (list traversal) (list sparse) }
    ensures { result ≡ answered marked (Some (built kind v.tensor.element false (list v.tensor.shape) (list v.tensor.strides) (list v.tile) (list map) (list traversal) (list sparse) v.padding)) }
{
    let t = v.tensor;
    made(
        kind, t.element, false, t.shape, t.strides, v.tile, map, traversal, sparse, v.padding,
        marked,
    )
}

// `tile=(dims), [padding_value=X,] tensor_view<...>[, dim_map=[...]]`.
pub(crate) fn parse_partition_view(inner: &[u8], k: Places, marked: bool) -> Reading
    requires { Placed inner.now k }
    ensures { result ≡ answered marked (each (carried 8) (partition_view inner.now)) }
{
    let Some(v) = parse_view(inner, k) else {
        return refuse(Refusal::NoType, 0);
    };
    match list_after(inner, b"dim_map=[", k.map) {
        Listed::Between(l) => {
            view_of(
                Kind::Partition,
                v,
                lists::parse_smalls(l, b',', 0),
                Smalls::none(),
                Smalls::none(),
                marked,
            )
        }
        Listed::Unclosed => refuse(Refusal::NoType, 0),
        Listed::Absent => view_of(
            Kind::Partition,
            v,
            lists::count_up(v.tile.row.len),
            Smalls::none(),
            Smalls::none(),
            marked,
        ),
    }
}

pub(crate) fn parse_gather_scatter_view(inner: &[u8], k: Places, marked: bool) -> Reading
    requires { Placed inner.now k }
    ensures { result ≡ answered marked (each (carried 8) (gather_scatter_view inner.now)) }
{
    let Some(v) = parse_view(inner, k) else {
        return refuse(Refusal::NoType, 0);
    };
    view_of(
        Kind::GatherScatter,
        v,
        Smalls::none(),
        Smalls::none(),
        parse_sparse(inner, k.sparse),
        marked,
    )
}

pub(crate) fn parse_strided_view(inner: &[u8], k: Places, marked: bool) -> Reading
    requires { Placed inner.now k }
    ensures { result ≡ answered marked (each (carried 8) (strided_view inner.now)) }
{
    let Some(v) = parse_view(inner, k) else {
        return refuse(Refusal::NoType, 0);
    };
    let n = v.tile.row.len;
    let map = parse_i32_list_after(inner, b"dim_map=[", k.map, lists::count_up(n));
    let traversal = parse_i32_list_after(
        inner,
        b"traversal_strides=[",
        k.traversal,
        lists::ones(n),
    );
    view_of(Kind::Strided, v, map, traversal, Smalls::none(), marked)
}
