// The ordinary reader: what `Type::parse` returns, with the default counts. What the strict reader settles is the answer; any other text is
// read by the port of types.rs.
#![tactic(auto)]

ghost use Rattle.std.specs.Prelude.{◌≡◌};
ghost use Rattle.meaning.specs.Ordinary.{ordinary};

use meaning::{Reading, Refusal};

// What `Type::parse` returns, with the default counts; or the refusal 1, 2, 3 or 4, the first that applies. The strict reader is asked
// first: only its refusal 5 leaves the answer open, and then the text is short and ASCII. Inlined, as `parse_strict` is, so that an answer is
// not copied.
#[inline(always)]
pub fn parse(text: &[u8]) -> Reading
    ensures { result ≡ ordinary 8 1024 text.now }
{
    let t = &text[0..]; // all of it, handed on as two words (decision 55)
    let r = strict::parse_strict(t);
    match r.refusal {
        Refusal::NotStrict => port::parse(t),
        _ => r,
    }
}
