// The first word of a form: a scalar's name, or a kind, with or without `!cuda_tile.`.
ghost use Rattle.std.specs.Prelude.{drop, length, ◌≤◌};
ghost use Rattle.grammar.specs.Table.{advance};
ghost use Rattle.strict.specs.Cursor.{Told};
ghost use Rattle.strict.specs.Words.{among};
ghost use Rattle.strict.specs.Heads.{heads, kinds};

use super::cursor::{Read, Stuck};
use super::names::{name_f, name_i};
use super::words::{fit, fork, peek};
use scalars::Scalar;

// What the first word begins.
#[derive(Clone, Copy)]
pub(crate) enum Head {
    Scalar(Scalar),
    Token,
    Pointer,
    Tile,
    TensorView,
    Partition,
    GatherScatter,
    Strided,
}

// After `t`: a token, a tile, a tensor view.
#[inline(always)]
fn kind_t(s: &[u8], at: usize) -> Result<Read<Head>, Stuck>
    requires { at ≤ length s.now }
    ensures { Told s.now at (among (advance 116 kinds) (drop at s.now)) (λ v. v) result }
{
    let t = &s[..]; // handed on as two words (decision 55)
    match peek(t, at) {
        b'e' => fit(t, at + 1, b"nsor_view<", Head::TensorView),
        b'i' => fit(t, at + 1, b"le<", Head::Tile),
        b'o' => fit(t, at + 1, b"ken", Head::Token),
        _ => Err(Stuck { at }),
    }
}

// A kind.
#[inline(always)]
fn kind(s: &[u8], at: usize) -> Result<Read<Head>, Stuck>
    requires { at ≤ length s.now }
    ensures { Told s.now at (among kinds (drop at s.now)) (λ v. v) result }
{
    let t = &s[..]; // handed on as two words (decision 55)
    match peek(t, at) {
        b'g' => fit(t, at + 1, b"ather_scatter_view<tile=(", Head::GatherScatter),
        b'p' => fork(
            t,
            at + 1,
            b"tr<",
            Head::Pointer,
            b"artition_view<tile=(",
            Head::Partition,
        ),
        b's' => fit(t, at + 1, b"trided_view<tile=(", Head::Strided),
        b't' => kind_t(t, at + 1),
        _ => Err(Stuck { at }),
    }
}

// After `!`.
fn kind_full(s: &[u8], at: usize) -> Result<Read<Head>, Stuck>
    requires { at ≤ length s.now }
    ensures { Told s.now at (among (advance 33 heads) (drop at s.now)) (λ v. v) result }
{
    let p = fit(s, at, b"cuda_tile.", ())?;
    kind(s, p.end)
}

// After `t`: a kind, or `tf32`.
fn head_t(s: &[u8], at: usize) -> Result<Read<Head>, Stuck>
    requires { at ≤ length s.now }
    ensures { Told s.now at (among (advance 116 heads) (drop at s.now)) (λ v. v) result }
{
    if peek(s, at) == b'f' {
        return fit(s, at + 1, b"32", Head::Scalar(Scalar::TF32));
    }
    kind_t(s, at)
}

pub(crate) fn read_head(s: &[u8]) -> Result<Read<Head>, Stuck>
    ensures { Told s.now 0 (among heads s.now) (λ v. v) result }
{
    let t = &s[..]; // handed on as two words (decision 55)
    match peek(t, 0) {
        b'!' => kind_full(t, 1),
        b'b' => fork(
            t,
            1,
            b"f16",
            Head::Scalar(Scalar::BF16),
            b"ool",
            Head::Scalar(Scalar::I1),
        ),
        b'f' => {
            let n = name_f(t, 1)?;
            Ok(Read {
                value: Head::Scalar(n.value),
                end: n.end,
            })
        }
        b'i' => {
            let n = name_i(t, 1)?;
            Ok(Read {
                value: Head::Scalar(n.value),
                end: n.end,
            })
        }
        b't' => head_t(t, 1),
        _ => kind(t, 0),
    }
}
