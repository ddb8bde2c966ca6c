// Seeking and trimming.
ghost use Rattle.std.specs.Prelude.{◌≡◌, ◌<◌, length};
ghost use Rattle.lexis.specs.Text.{same, begins, cut, place, occurs, until};
ghost use Rattle.lexis.specs.Text.{less_leading, less_trailing, trim};

use super::blocks::seek;
use super::pattern::{Pattern, White};

// Whether `text` begins with `what`.
pub fn begins(text: &[u8], what: &[u8]) -> bool
    ensures { result ≡ begins what.now text.now }
{
    // `==` ends where two texts differ in front, as most do; `starts_with` looks at all bytes
    what.len() <= text.len() && what == &text[..what.len()]
}

// Whether the two hold the same bytes.
pub fn same(a: &[u8], b: &[u8]) -> bool
    ensures { result ≡ same a.now b.now }
{
    a == b
}

// The first place of `what`, whose byte `k` is looked for before the rest is compared.
fn find_from(text: &[u8], what: &[u8], k: usize) -> Option<usize>
    requires { k < length what.now }
    ensures { result ≡ place (cut what.now text.now) }
{
    let b = what[k];
    let mut i = seek(text, k, b);
    // kept: no count by one, but from each place of `b` to the next; an iterator over these is no plainer
    while i < text.len() {
        if begins(&text[i - k..], what) {
            return Some(i - k);
        }
        i = seek(text, i + 1, b);
    }
    None
}

// The first place of `what` in `text`; of nothing, the place 0.
pub fn find(text: &[u8], what: &[u8]) -> Option<usize>
    ensures { result ≡ place (cut what.now text.now) }
{
    if what.is_empty() {
        return Some(0);
    }
    find_from(text, what, 0)
}

// The same, sought by the byte `k` of `what`: quick where that byte is rare.
pub fn find_by(text: &[u8], what: &[u8], k: usize) -> Option<usize>
    ensures { result ≡ place (cut what.now text.now) }
{
    if k < what.len() {
        find_from(text, what, k)
    } else {
        find(text, what)
    }
}

// Whether `what` occurs in `text`; it is sought by its byte `k`.
pub fn contains(text: &[u8], what: &[u8], k: usize) -> bool
    ensures { result ≡ occurs what.now text.now }
{
    find_by(text, what, k).is_some()
}

// How many bytes stand before the first that matches: all, where none does.
// kept: `until` of specs/Text.antt is the whole text, where no byte matches, and callers cut there; so no `Option`
pub fn until<P: Pattern>(text: &[u8], p: P) -> usize
    ensures { result ≡ length (until (P.matches p) text.now) }
{
    seek(text, 0, p)
}

// `text` with no byte in front that matches.
pub fn trim_start_matches<P: Pattern>(text: &[u8], p: P) -> &[u8]
    ensures { result.now ≡ less_leading (P.matches p) text.now }
{
    let mut rest = text;
    while let Some((first, behind)) = rest.split_first() {
        if !p.matches(*first) {
            break;
        }
        rest = behind;
    }
    rest
}

// `text` with no byte behind that matches.
pub fn trim_end_matches<P: Pattern>(text: &[u8], p: P) -> &[u8]
    ensures { result.now ≡ less_trailing (P.matches p) text.now }
{
    let mut rest = text;
    while let Some((last, before)) = rest.split_last() {
        if !p.matches(*last) {
            break;
        }
        rest = before;
    }
    rest
}

// `text` with no white byte at its ends.
pub fn trim(text: &[u8]) -> &[u8]
    ensures { result.now ≡ trim text.now }
{
    trim_end_matches(trim_start_matches(text, White), White)
}
