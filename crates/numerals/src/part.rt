// The next part of a list, up to its separator: the numeral it is, read in one walk where it is a plain one.
ghost use Rattle.std.specs.Prelude.{◌≡◌, true, ◌≤◌, ◌<◌, eqb, drop, length, pos, option_map, IfSome, if◌then◌else◌};
ghost use Rattle.lexis.specs.Text.{ink, until, trim};
ghost use Rattle.numerals.specs.Numeral.{minus, numeral};
ghost use Rattle.numerals.specs.Parts.{apart, odd, Ran};

use super::integer::Integer;
use super::numeral::parse;
use lexis::{Ink, Pattern, White, seek, trim, until};

// What a trimmed part says, and how long the part is.
#[derive(Clone, Copy)]
pub struct Part<T> {
    pub value: Option<T>,
    pub len: usize,
}

// How many white bytes stand in front: mostly none or one.
// kept: callers cut at this place, also where all is white
fn leading(text: &[u8]) -> usize
    ensures { result ≡ length (until ink text.now) }
{
    if text.len() < 2 {
        return seek(text, 0, Ink);
    }
    if !White.matches(text[0]) {
        return 0;
    }
    if !White.matches(text[1]) {
        return 1;
    }
    seek(text, 2, Ink)
}

// Whether `x` is no byte of a plain numeral and not white: a comma, or past the digits.
fn apart(x: u8) -> bool
    ensures { result ≡ apart x }
{
    (x == b',') | (b'9' < x)
}

// Whether a byte behind digits makes a part unreadable: it is neither white nor a digit.
fn odd(b: u8) -> bool
    ensures { result ≡ odd b }
{
    Ink.matches(b) & ((b < b'0') | (b'9' < b))
}

// The part from `from` on, if digits begin it: up to the first `x` nothing else stands there and they write at most `most`, or
// a byte stands there that is neither digit nor white, and the part is no number.
fn run(text: &[u8], x: u8, from: usize, most: u64) -> Option<Part<u64>>
    requires apart { apart x ≡ true }
    requires from { from ≤ length text.now }
    ensures { Ran x (drop from text.now) from most result }
{
    let mut rest = &text[from..];
    // Leading zeros say nothing, and are passed without counting.
    while let Some((b, behind)) = rest.split_first() {
        if *b != b'0' {
            break;
        }
        rest = behind;
    }
    let mut n: u64 = 0;
    while let Some((b, behind)) = rest.split_first() {
        let b = *b;
        if (b < b'0') | (b'9' < b) {
            break;
        }
        if 922337203685477579 < n {
            return None;
        }
        n = n * 10 + u64::from(b - b'0');
        rest = behind;
    }
    let i = text.len() - rest.len();
    if i == from {
        return None;
    }
    if most < n {
        return None;
    }
    if i < text.len() {
        let b = text[i];
        if b != x {
            if odd(b) {
                return Some(Part {
                    value: None,
                    len: seek(text, i, x),
                });
            }
            return None;
        }
    }
    Some(Part {
        value: Some(n),
        len: i,
    })
}

// The number whose digits were walked, with its sign.
fn signed<T: Integer>(p: Part<u64>, negative: bool) -> Part<T>
    requires { IfSome p.value (λ n. n ≤ T.MOST) }
    ensures len { result.len ≡ p.len }
    ensures value { option_map T.is result.value ≡ option_map (if negative then minus else pos) p.value }
{
    let value = match p.value {
        Some(n) => Some(if negative { T::minus(n) } else { T::plus(n) }),
        None => None,
    };
    Part { value, len: p.len }
}

// Any part: sought, trimmed and read.
fn slow<T: Integer>(text: &[u8], x: u8) -> Part<T>
    ensures { (result.len ≡ length (until (eqb x) text.now)) × (option_map T.is result.value ≡ numeral T.bits (trim (until (eqb x) text.now))) }
{
    let len = until(text, x);
    let value = parse(trim(&text[..len]));
    Part { value, len }
}

// The numeral that is the part of `text` before the first `x`.
pub fn parse_part<T: Integer>(text: &[u8], x: u8) -> Part<T>
    ensures { (result.len ≡ length (until (eqb x) text.now)) × (option_map T.is result.value ≡ numeral T.bits (trim (until (eqb x) text.now))) }
{
    if !apart(x) {
        return slow(text, x);
    }
    let i = leading(text);
    if text.len() <= i {
        return slow(text, x);
    }
    let b = text[i];
    if b'9' < b {
        return Part {
            value: None,
            len: until(text, x),
        };
    }
    if b == b'-' {
        return match run(text, x, i + 1, T::MOST) {
            Some(p) => signed(p, true),
            None => slow(text, x),
        };
    }
    match run(text, x, i, T::MOST) {
        Some(p) => signed(p, false),
        None => slow(text, x),
    }
}
