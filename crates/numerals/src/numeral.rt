// Numerals (01, module 1): Rust's i64::from_str and i32::from_str on all of a text.
ghost use Rattle.std.specs.Prelude.{◌≡◌, ◌<◌, ◌^◌, option_map};
ghost use Rattle.numerals.specs.Numeral.{number, numeral};
ghost use Rattle.numerals.specs.Parts.{under};

use super::integer::Integer;

// The number that one or more digits write, where it is at most `most`.
fn digits(text: &[u8], most: u64) -> Option<u64>
    ensures { result ≡ under most (number text.now) }
{
    if text.is_empty() {
        return None;
    }
    let mut n: u64 = 0;
    for b in text {
        if !b.is_ascii_digit() {
            return None;
        }
        n = n.checked_mul(10)?.checked_add(u64::from(*b - b'0'))?;
        if most < n {
            return None;
        }
    }
    Some(n)
}

// The numeral that is all of `text`: an optional sign, then digits.
pub fn parse<T: Integer>(text: &[u8]) -> Option<T>
    ensures { option_map T.is result ≡ numeral T.bits text.now }
{
    let (sign, behind) = text.split_first()?;
    match *sign {
        b'-' => Some(T::minus(digits(behind, T::MOST + 1)?)),
        b'+' => Some(T::plus(digits(behind, T::MOST)?)),
        _ => Some(T::plus(digits(text, T::MOST)?)),
    }
}
