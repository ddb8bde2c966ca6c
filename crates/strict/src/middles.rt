// The words between the parts of a tensor view and of the views around it.
ghost use Rattle.std.specs.Prelude.{◌∷◌, drop, length, ◌≤◌, true, false};
ghost use Rattle.lexis.specs.Text.{bytes};
ghost use Rattle.grammar.specs.Table.{◌↝◌, advance};
ghost use Rattle.strict.specs.Cursor.{Told};
ghost use Rattle.strict.specs.Words.{among, advances};
ghost use Rattle.strict.specs.Inner.{opened};
ghost use Rattle.strict.specs.Views.{pads, leads, mids, mid, tensors};

use super::cursor::{Read, Stuck};
use super::words::{fit, fork, peek};
use meaning::Padding;

// After the comma that follows a name: the mark, or the strides.
fn open_comma(s: &[u8], at: usize) -> Result<Read<Option<bool>>, Stuck>
    requires { at ≤ length s.now }
    ensures { Told s.now at (among (advance 44 opened) (drop at s.now)) (λ v. v) result }
{
    if peek(s, at) == b' ' {
        return fork(
            s,
            at + 1,
            b"#cuda_tile.ptr_attr<none>>",
            Some(true),
            b"strides=[",
            None,
        );
    }
    fit(s, at, b"strides=[", None)
}

// After the name in a tensor view of rank 0: its end, without or with the mark; or the strides, which is none.
pub(crate) fn read_open(s: &[u8], at: usize) -> Result<Read<Option<bool>>, Stuck>
    requires { at ≤ length s.now }
    ensures { Told s.now at (among opened (drop at s.now)) (λ v. v) result }
{
    if peek(s, at) == b'>' {
        return Ok(Read {
            value: Some(false),
            end: at + 1,
        });
    }
    let c = fit(s, at, b",", ())?;
    open_comma(s, c.end)
}

// After `n`: a padding.
fn pad_n(s: &[u8], at: usize) -> Result<Read<Padding>, Stuck>
    requires { at ≤ length s.now }
    ensures { Told s.now at (among (advance 110 pads) (drop at s.now)) (λ v. v) result }
{
    if peek(s, at) == b'a' {
        return fit(s, at + 1, b"n", Padding::Nan);
    }
    let p = fit(s, at, b"eg_", ())?;
    fork(s, p.end, b"zero", Padding::NegZero, b"inf", Padding::NegInf)
}

// A padding.
pub(crate) fn read_pad(s: &[u8], at: usize) -> Result<Read<Padding>, Stuck>
    requires { at ≤ length s.now }
    ensures { Told s.now at (among pads (drop at s.now)) (λ v. v) result }
{
    match peek(s, at) {
        b'n' => pad_n(s, at + 1),
        b'p' => fit(s, at + 1, b"os_inf", Padding::PosInf),
        b'z' => fit(s, at + 1, b"ero", Padding::Zero),
        _ => Err(Stuck { at }),
    }
}

// A tensor view's beginning in one of its three spellings, each of which says `value`.
fn open_tensor<V: Copy>(s: &[u8], at: usize, value: V) -> Result<Read<V>, Stuck>
    requires { at ≤ length s.now }
    ensures { Told s.now at (among (tensors value) (drop at s.now)) (λ v. v) result }
{
    if peek(s, at) == b'!' {
        return fit(s, at + 1, b"cuda_tile.tensor_view<", value);
    }
    let p = fit(s, at, b"tensor_view", ())?;
    fork(s, p.end, b"<", value, b"=!cuda_tile.tensor_view<", value)
}

// Whether a padding begins, and not a tensor view.
fn open_view(s: &[u8], at: usize) -> Result<Read<bool>, Stuck>
    requires { at ≤ length s.now }
    ensures { Told s.now at (among ((bytes "padding_value=" ↝ true) ∷ tensors false) (drop at s.now)) (λ v. v) result }
{
    let t = &s[..]; // handed on as two words (decision 55)
    if peek(t, at) == b'p' {
        return fit(t, at + 1, b"adding_value=", true);
    }
    open_tensor(t, at, false)
}

// After a padding: a comma, and a tensor view's beginning.
pub(crate) fn read_lead(s: &[u8], at: usize) -> Result<Read<()>, Stuck>
    requires { at ≤ length s.now }
    ensures { Told s.now at (among leads (drop at s.now)) (λ v. v) result }
{
    let c = fit(s, at, b",", ())?;
    if peek(s, c.end) == b' ' {
        return open_tensor(s, c.end + 1, ());
    }
    open_tensor(s, c.end, ())
}

// After the end of a list and a comma.
fn mid_comma(s: &[u8], at: usize) -> Result<Read<bool>, Stuck>
    requires { at ≤ length s.now }
    ensures { Told s.now at (among (advances (bytes "),") mids) (drop at s.now)) (λ v. v) result }
{
    if peek(s, at) == b' ' {
        return open_view(s, at + 1);
    }
    open_view(s, at)
}

// The word after a list, of the tile or of the traversal: whether a padding begins.
pub(crate) fn read_mid(s: &[u8], at: usize, tile: bool) -> Result<Read<bool>, Stuck>
    requires { at ≤ length s.now }
    ensures { Told s.now at (mid tile (drop at s.now)) (λ v. v) result }
{
    if tile {
        let c = fit(s, at, b"),", ())?;
        return mid_comma(s, c.end);
    }
    let c = fit(s, at, b"],", ())?;
    mid_comma(s, c.end)
}
