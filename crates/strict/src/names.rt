// The names of the scalars, byte for byte.
ghost use Rattle.std.specs.Prelude.{T, drop, length, ◌≤◌};
ghost use Rattle.lexis.specs.Text.{bytes};
ghost use Rattle.strict.specs.Cursor.{Told};
ghost use Rattle.strict.specs.Words.{among, differ};
ghost use Rattle.strict.specs.Inner.{names, named, eights, kerns};

use super::cursor::{Read, Stuck};
use super::words::{fit, fork, peek};
use scalars::Scalar;

// After `i`.
#[inline(always)]
pub(crate) fn name_i(s: &[u8], at: usize) -> Result<Read<Scalar>, Stuck>
    requires { at ≤ length s.now }
    ensures { Told s.now at (among (named (bytes "i")) (drop at s.now)) (λ v. v) result }
{
    match peek(s, at) {
        b'1' => fork_i1(s, at + 1),
        b'4' => Ok(Read {
            value: Scalar::I4,
            end: at + 1,
        }),
        b'8' => Ok(Read {
            value: Scalar::I8,
            end: at + 1,
        }),
        b'3' => fit(s, at + 1, b"2", Scalar::I32),
        b'6' => fit(s, at + 1, b"4", Scalar::I64),
        _ => Err(Stuck { at }),
    }
}

// After `i1`: `i16`, or that is all.
fn fork_i1(s: &[u8], at: usize) -> Result<Read<Scalar>, Stuck>
    requires { at ≤ length s.now }
    ensures { Told s.now at (among (named (bytes "i1")) (drop at s.now)) (λ v. v) result }
{
    if peek(s, at) == b'6' {
        return Ok(Read {
            value: Scalar::I16,
            end: at + 1,
        });
    }
    Ok(Read {
        value: Scalar::I1,
        end: at,
    })
}

// After `f8E` or `f8e`: `4` and `w`, `5` and `m` and one of two, `8` and `x`.
#[inline(always)]
fn name_f8_by(
    s: &[u8],
    at: usize,
    w: &[u8],
    m: &[u8],
    v: &[u8],
    x: &[u8],
) -> Result<Read<Scalar>, Stuck>
    requires at_in_bounds { at ≤ length s.now }
    requires apart { T (differ (bytes "2") v.now) }
    ensures { Told s.now at (among (eights w.now m.now v.now x.now) (drop at s.now)) (λ v. v) result }
{
    let t = &s[..]; // handed on as two words (decision 55)
    match peek(t, at) {
        b'4' => fit(t, at + 1, w, Scalar::F8E4M3FN),
        b'5' => {
            let p = fit(t, at + 1, m, ())?;
            fork(t, p.end, b"2", Scalar::F8E5M2, v, Scalar::F8E5M3FNU)
        }
        b'8' => fit(t, at + 1, x, Scalar::F8E8M0FNU),
        _ => Err(Stuck { at }),
    }
}

// After `f8`.
fn name_f8(s: &[u8], at: usize) -> Result<Read<Scalar>, Stuck>
    requires { at ≤ length s.now }
    ensures { Told s.now at (among (named (bytes "f8")) (drop at s.now)) (λ v. v) result }
{
    match peek(s, at) {
        b'E' => name_f8_by(s, at + 1, b"M3FN", b"M", b"3FNU", b"M0FNU"),
        b'e' => name_f8_by(s, at + 1, b"m3fn", b"m", b"3fnu", b"m0fnu"),
        _ => Err(Stuck { at }),
    }
}

// After `f`.
#[inline(always)]
pub(crate) fn name_f(s: &[u8], at: usize) -> Result<Read<Scalar>, Stuck>
    requires { at ≤ length s.now }
    ensures { Told s.now at (among (named (bytes "f")) (drop at s.now)) (λ v. v) result }
{
    let t = &s[..]; // handed on as two words (decision 55)
    match peek(t, at) {
        b'1' => fit(t, at + 1, b"6", Scalar::F16),
        b'3' => fit(t, at + 1, b"2", Scalar::F32),
        b'4' => fork(
            t,
            at + 1,
            b"E2M1FN",
            Scalar::F4E2M1FN,
            b"e2m1fn",
            Scalar::F4E2M1FN,
        ),
        b'6' => fit(t, at + 1, b"4", Scalar::F64),
        b'8' => name_f8(t, at + 1),
        _ => Err(Stuck { at }),
    }
}

// A name.
#[inline(always)]
pub(crate) fn read_name(s: &[u8], at: usize) -> Result<Read<Scalar>, Stuck>
    requires { at ≤ length s.now }
    ensures { Told s.now at (among names (drop at s.now)) (λ v. v) result }
{
    let t = &s[..]; // handed on as two words (decision 55)
    match peek(t, at) {
        b'b' => fork(t, at + 1, b"f16", Scalar::BF16, b"ool", Scalar::I1),
        b'f' => name_f(t, at + 1),
        b'i' => name_i(t, at + 1),
        b't' => fit(t, at + 1, b"f32", Scalar::TF32),
        _ => Err(Stuck { at }),
    }
}

// A name; or the beginning of a pointer, which is none.
pub(crate) fn read_core_name(s: &[u8], at: usize) -> Result<Read<Option<Scalar>>, Stuck>
    requires { at ≤ length s.now }
    ensures { Told s.now at (among kerns (drop at s.now)) (λ v. v) result }
{
    let t = &s[..]; // handed on as two words (decision 55)
    match peek(t, at) {
        b'!' => fit(t, at + 1, b"cuda_tile.ptr<", None),
        b'p' => fit(t, at + 1, b"tr<", None),
        _ => {
            let n = read_name(t, at)?;
            Ok(Read {
                value: Some(n.value),
                end: n.end,
            })
        }
    }
}
