// Numerals in decimal, within a limit: digits are taken as long as the value stays within it.
ghost use Rattle.std.specs.Prelude.{◌≡◌, drop, length, ◌+◌, ◌-◌, ◌≤◌, ◌<◌, ◌^◌, ◌≤ℤ◌, pos, neg_ℤ, Ok, IfOk};
ghost use Rattle.grammar.specs.Number.{grow, magnitude};
ghost use Rattle.strict.specs.Cursor.{Told, numeral, dimension, Spaced};

use super::cursor::{Read, Stuck};
use meaning::DYNAMIC;

// Digits from `at` on, as long as the value is at most `most`; a digit is held to that only where it may pass it.
fn grow(s: &[u8], at: usize, v: u64, most: u64) -> Read<u64>
    requires at_in_bounds { at ≤ length s.now }
    requires v_le_most { v ≤ most }
    ensures told { Told s.now at (grow (most + 1) v (drop at s.now)) (λ n. n) (Ok result) }
    ensures below { result.value ≤ most }
{
    let mut n = v;
    for i in at..s.len() {
        let b = s[i];
        if b < b'0' {
            return Read { value: n, end: i };
        }
        if b'9' < b {
            return Read { value: n, end: i };
        }
        let d = (b - b'0') as u64;
        if most / 10 <= n {
            if most / 10 < n {
                return Read { value: n, end: i };
            }
            if most - n * 10 < d {
                return Read { value: n, end: i };
            }
        }
        n = n * 10 + d;
    }
    Read {
        value: n,
        end: s.len(),
    }
}

// A number from 1 to `most`.
#[inline(always)]
fn magnitude(s: &[u8], at: usize, most: u64) -> Result<Read<u64>, Stuck>
    requires at_in_bounds { at ≤ length s.now }
    requires le_most { 9 ≤ most }
    ensures told { Told s.now at (magnitude (most + 1) (drop at s.now)) (λ n. n) result }
    ensures below { IfOk result (λ r. r.value ≤ most) }
{
    if s.len() <= at {
        return Err(Stuck { at });
    }
    let b = s[at];
    if b < b'1' {
        return Err(Stuck { at });
    }
    if b'9' < b {
        return Err(Stuck { at });
    }
    Ok(grow(s, at + 1, (b - b'0') as u64, most))
}

// A numeral from `-least` to `most`.
#[inline(always)]
fn number(s: &[u8], at: usize, most: u64, least: u64) -> Result<Read<i64>, Stuck>
    requires at_in_bounds { at ≤ length s.now }
    requires most_in_bounds { 9 ≤ most × most < 2 ^ 63 }
    requires least_in_bounds { 9 ≤ least × least < 2 ^ 63 }
    ensures told { Told s.now at (numeral (most + 1) (least + 1) (drop at s.now)) (λ z. z) result }
    ensures within { IfOk result (λ r. neg_ℤ (pos least) ≤ℤ r.value × r.value ≤ℤ pos most) }
{
    if s.len() <= at {
        return Err(Stuck { at });
    }
    let b = s[at];
    if b == b'-' {
        let m = magnitude(s, at + 1, least)?;
        return Ok(Read {
            value: -(m.value as i64),
            end: m.end,
        });
    }
    if b == b'0' {
        return Ok(Read {
            value: 0,
            end: at + 1,
        });
    }
    let m = magnitude(s, at, most)?;
    Ok(Read {
        value: m.value as i64,
        end: m.end,
    })
}

// A numeral of 32 bits.
pub(crate) fn number32(s: &[u8], at: usize) -> Result<Read<i32>, Stuck>
    requires { at ≤ length s.now }
    ensures { Told s.now at (numeral (2 ^ 31) (2 ^ 31 + 1) (drop at s.now)) (λ z. z) result }
{
    let n = number(s, at, i32::MAX as u64, i32::MAX as u64 + 1)?;
    // kept: `try_from` would add an error that `number` rules out
    Ok(Read {
        value: n.value as i32,
        end: n.end,
    })
}

// A dimension: `?`, or a numeral of 64 bits.
#[inline(always)]
pub(crate) fn read_dim(s: &[u8], at: usize) -> Result<Read<i64>, Stuck>
    requires { at ≤ length s.now }
    ensures { Told s.now at (dimension (drop at s.now)) (λ z. z) result }
{
    if s.len() <= at {
        return Err(Stuck { at });
    }
    if s[at] == b'?' {
        return Ok(Read {
            value: DYNAMIC,
            end: at + 1,
        });
    }
    // the smallest of 64 bits says `?`
    number(s, at, i64::MAX as u64, i64::MAX as u64)
}

// Past one space, if it stands.
pub(crate) fn space(s: &[u8], at: usize) -> usize
    requires { at ≤ length s.now }
    ensures { Spaced s.now at result }
{
    if at < s.len() && s[at] == b' ' {
        return at + 1;
    }
    at
}
