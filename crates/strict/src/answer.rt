// The answer of the strict reader: the refusals in their order, or the type.
ghost use Rattle.meaning.specs.Meant.{Strictly};

use super::judge::judge;
use meaning::{Reading, Refusal, first_high, refuse};

// A text has at most this many bytes.
const LIMIT: usize = 1024;

// The type of a strict form; or the refusal 1, 2, 5 or 4, the first that applies. No strict form has a byte of 128 or more, so that such a
// byte is sought only in a text that is refused. Inlined, so that a caller has what was judged without a copy.
#[inline(always)]
pub fn parse_strict(text: &[u8]) -> Reading
    ensures { Strictly 8 1024 text.now result }
{
    if LIMIT < text.len() {
        return refuse(Refusal::TooLong, 0);
    }
    let r = judge(text);
    if r.refusal == Refusal::Accepted {
        return r;
    }
    match first_high(text) {
        Some(place) => refuse(Refusal::HighByte, place),
        None => r,
    }
}
