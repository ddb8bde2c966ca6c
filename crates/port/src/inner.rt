// Where the inner tensor view opens (01, module 6).
ghost use Rattle.std.specs.Prelude.{◌≡◌, ◌+◌, ◌≤◌, ◌<◌, length, drop};
ghost use Rattle.lexis.specs.Text.{bytes, cut, place};
ghost use Rattle.meaning.specs.Views.{opened};
ghost use Rattle.port.specs.Keys.{Later, Placed, AtMost, from};

use super::keys::Places;

// The first `tensor_view<` from `behind` on: mostly it is the first behind the `tile=(` at `tile`.
fn plain_from(inner: &[u8], tile: usize, plain: usize, behind: usize) -> Option<usize>
    requires { Later inner.now tile plain × (tile < length inner.now) × (tile + 6 ≤ behind) × (behind ≤ length inner.now) }
    ensures { result ≡ place (cut (bytes "tensor_view<") (drop behind inner.now)) }
{
    let b = tile + 6;
    if inner.len() - b <= plain {
        return None;
    }
    let x = b + plain;
    if behind <= x {
        return Some(x - behind);
    }
    lexis::find_by(&inner[behind..], b"tensor_view<", 10)
}

// After a prefix anywhere, or after `tensor_view<` past the tile's `)`.
pub(crate) fn opens(inner: &[u8], r: Places, behind: usize) -> Option<usize>
    requires { Placed inner.now r × (r.tile < length inner.now) × (r.tile + 6 ≤ behind) × (behind ≤ length inner.now) }
    ensures { (opened inner.now (drop behind inner.now) ≡ from inner.now (result)) × AtMost (length inner.now) result }
{
    let named = r.named;
    if named < inner.len() {
        return Some(named + 35);
    }
    let prefixed = r.prefixed;
    if prefixed < inner.len() {
        return Some(prefixed + 23);
    }
    let tile = r.tile;
    let plain = r.plain;
    Some(behind + plain_from(inner, tile, plain, behind)? + 12)
}
