// Tiles (01, module 4).
ghost use Rattle.std.specs.Prelude.{◌≡◌, true, false, Option};
ghost use Rattle.lexis.specs.Text.{bytes, trim, cut};
ghost use Rattle.meaning.specs.Parts.{each, less_repeats};
ghost use Rattle.meaning.specs.Tile.{dimensions, before_pointer, pointee, tile_of, tile_by, tile};
ghost use Rattle.lexis.specs.Text.{Cut, nowhere, at};
ghost use Rattle.lists.specs.Laid.{laid, list};
ghost use Rattle.port.specs.Keys.{Placed};
ghost use Rattle.port.specs.Carried.{carried, answered};

use super::keys::Places;
use super::made::simple;
use super::repeats::trim_end_repeats;
use lists::Dims;
use meaning::{Kind, Reading, Refusal, refuse};

// `[shape x]elem` where shape is `dim[xdim]*` and elem is a scalar or a pointer.
pub(crate) fn parse_tile(inner: &[u8], k: Places, marked: bool) -> Reading
    requires { Placed inner.now k }
    ensures { result ≡ answered marked (each (carried 8) (tile inner.now)) }
{
    let i = k.ptr;
    if i < inner.len() {
        return pointer_tile(&inner[..i], &inner[i + 4..], marked);
    }
    scalar_tile(inner, marked)
}

fn pointer_tile(before: &[u8], after: &[u8], marked: bool) -> Reading
    ensures { result ≡ answered marked (each (carried 8) (each (tile_of true (dimensions (before_pointer (less_repeats (bytes "!cuda_tile.") (trim before.now))))) (pointee (cut (bytes ">") after.now)))) }
{
    match lexis::find(after, b">") {
        Some(n) => match scalars::parse_scalar(&after[..n]) {
            Some(e) => simple(
                Kind::Tile,
                e,
                true,
                pointer_shape(before),
                Dims::none(),
                marked,
            ),
            None => refuse(Refusal::NoType, 0),
        },
        None => refuse(Refusal::NoType, 0),
    }
}

// The dimensions before a pointer: none if nothing is left there.
fn pointer_shape(before: &[u8]) -> Dims
    ensures { list result ≡ laid 8 (dimensions (before_pointer (less_repeats (bytes "!cuda_tile.") (trim before.now)))) }
{
    let b = trim_end_repeats(lexis::trim(before), b"!cuda_tile.");
    if b.is_empty() {
        return Dims::none();
    }
    lists::parse_dims(lexis::trim_end_matches(b, b'x'), b'x')
}

fn scalar_tile(inner: &[u8], marked: bool) -> Reading
    ensures { result ≡ answered marked (each (carried 8) (tile_by inner.now nowhere)) }
{
    let f = lists::parse_front(inner);
    match scalars::parse_scalar(&inner[f.last..]) {
        Some(e) => simple(Kind::Tile, e, false, f.dims, Dims::none(), marked),
        None => refuse(Refusal::NoType, 0),
    }
}
