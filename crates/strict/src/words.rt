// Words at a place: one word, or one of two that differ in their first byte. Each says something, as in a table.
ghost use Rattle.std.specs.Prelude.{◌≡◌, [], ◌∷◌, T, false, true, drop, length, get_or, ◌≤◌};
ghost use Rattle.grammar.specs.Table.{◌↝◌};
ghost use Rattle.strict.specs.Cursor.{Told};
ghost use Rattle.strict.specs.Words.{among, differ, both};

use super::cursor::{Read, Stuck};

// The byte at a place; 0 past the end.
pub(crate) fn peek(s: &[u8], at: usize) -> u8
    ensures { result ≡ get_or s.now at 0 }
{
    s.get(at).copied().unwrap_or(0)
}

// The word `w`, which says `value`.
pub(crate) fn fit<V: Copy>(s: &[u8], at: usize, w: &[u8], value: V) -> Result<Read<V>, Stuck>
    requires { at ≤ length s.now }
    ensures { Told s.now at (among ((w.now ↝ value) ∷ []) (drop at s.now)) (λ v. v) result }
{
    // kept: no iterator is plainer, as word and text are walked from two places and the answer is a place
    let mut i = at;
    for b in w {
        if s.len() <= i || s[i] != *b {
            return Err(Stuck { at: i });
        }
        i += 1;
    }
    Ok(Read { value, end: i })
}

// The word `v` or the word `w`, by the first byte of `w`; one says `j`, the other `k`.
pub(crate) fn fork<V: Copy>(
    s: &[u8],
    at: usize,
    v: &[u8],
    j: V,
    w: &[u8],
    k: V,
) -> Result<Read<V>, Stuck>
    requires at_in_bounds { at ≤ length s.now }
    requires apart { T (differ v.now w.now) }
    ensures { Told s.now at (among ((v.now ↝ j) ∷ (w.now ↝ k) ∷ []) (drop at s.now)) (λ v. v) result }
{
    if peek(s, at) == w[0] {
        return fit(s, at, w, k);
    }
    fit(s, at, v, j)
}

// One of two words after the word `lead`, and whether it is the second.
pub(crate) fn read_two(
    s: &[u8],
    at: usize,
    lead: &[u8],
    v: &[u8],
    w: &[u8],
) -> Result<Read<bool>, Stuck>
    requires at_in_bounds { at ≤ length s.now }
    requires apart { T (differ v.now w.now) }
    ensures { Told s.now at (among (both lead.now v.now false w.now true) (drop at s.now)) (λ v. v) result }
{
    let t = &s[..]; // handed on as two words (decision 55)
    let p = fit(t, at, lead, ())?;
    fork(t, p.end, v, false, w, true)
}
