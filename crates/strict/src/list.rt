// Lists of entries between separators: the first eight, and their true number, which is what a reader answers.
ghost use Rattle.std.specs.Prelude.{◌≡◌, ℕ, List, [], ◌∷◌, drop, length, set, ◌+◌, ◌≤◌, ◌<◌, ◌^◌, true};
ghost use Rattle.meaning.specs.Found.{padded};
ghost use Rattle.grammar.specs.Join.{mapped};
ghost use Rattle.grammar.specs.Piece.{Answer, member};
ghost use Rattle.grammar.specs.Several.{figs?};
ghost use Rattle.strict.specs.Cursor.{Told, numeral, dimension, skip};
ghost use Rattle.strict.specs.Rows.{Parts, behind, commas32, xs32, commas64, dims64, dim_x, listed, list32};
ghost use Rattle.strict.specs.Lists.{row, nothing, pushes};
ghost use Rattle.strict.specs.Laws.{commas32_are, commas64_are, xs32_are, dims64_are};

use super::cursor::{Read, Stuck};
use super::number::{number32, read_dim, space};
use super::words::{fit, peek};

// An entry of 32 bits is a numeral, one of 64 bits a dimension.
pub(crate) trait Entry: Copy {
    ghost entry: { List ℕ → Answer Self };

    ghost commas: { List ℕ → Answer (List Self) };

    fn read(s: &[u8], at: usize) -> Result<Read<Self>, Stuck>
        requires { at ≤ length s.now }
        ensures { Told s.now at (entry (drop at s.now)) (λ v. v) result };

    // entries each behind a comma, and maybe a space
    ghost law: { Parts commas (44 ∷ []) (λ t. entry (behind t)) };
}

impl Entry for i32 {
    ghost entry = { numeral (2 ^ 31) (2 ^ 31 + 1) };

    ghost commas = { commas32 };

    ghost law = { commas32_are };

    fn read(s: &[u8], at: usize) -> Result<Read<i32>, Stuck> {
        number32(s, at)
    }
}

impl Entry for i64 {
    ghost entry = { dimension };

    ghost commas = { commas64 };

    ghost law = { commas64_are };

    fn read(s: &[u8], at: usize) -> Result<Read<i64>, Stuck> {
        read_dim(s, at)
    }
}

// A kind of list: what an item begins with, and how one is read, with what stands before or after its entry.
trait Items<E> {
    ghost items: { List ℕ → Answer (List E) };

    ghost item: { List ℕ → Answer E };

    ghost firsts: { List ℕ };

    fn begins(b: u8) -> bool
        ensures { result ≡ member b firsts };

    fn read_item(s: &[u8], at: usize) -> Result<Read<E>, Stuck>
        requires { at < length s.now }
        ensures { Told s.now at (item (drop at s.now)) (λ v. v) result };

    ghost law: { Parts items firsts item };
}

// A comma, and maybe a space, before each entry.
struct ByComma;

impl<E: Entry> Items<E> for ByComma {
    ghost items = { E.commas };

    ghost item = { λ t. E.entry (behind t) };

    ghost firsts = { 44 ∷ [] };

    ghost law = { E.law };

    fn begins(b: u8) -> bool {
        b == b','
    }

    fn read_item(s: &[u8], at: usize) -> Result<Read<E>, Stuck> {
        E::read(s, space(s, at + 1))
    }
}

// An `x` before each entry.
struct ByX;

impl Items<i32> for ByX {
    ghost items = { xs32 };

    ghost item = { λ t. numeral (2 ^ 31) (2 ^ 31 + 1) (drop 1 t) };

    ghost firsts = { 120 ∷ [] };

    ghost law = { xs32_are };

    fn begins(b: u8) -> bool {
        b == b'x'
    }

    fn read_item(s: &[u8], at: usize) -> Result<Read<i32>, Stuck> {
        number32(s, at + 1)
    }
}

// An `x` after each dimension.
struct Shape;

impl Items<i64> for Shape {
    ghost items = { dims64 };

    ghost item = { dim_x };

    ghost firsts = { figs? };

    ghost law = { dims64_are };

    fn begins(b: u8) -> bool {
        (b == b'?') | (b == b'-') | ((b'0' <= b) & (b <= b'9'))
    }

    fn read_item(s: &[u8], at: usize) -> Result<Read<i64>, Stuck> {
        let n = read_dim(s, at)?;
        fit(s, n.end, b"x", n.value)
    }
}

// One entry more; past the capacity it is only counted.
// kept: no heap is used, so that a list is no `Vec`: its number of entries stands beside it, and may be over the capacity
fn put<E: Copy>(out: &mut [E], n: usize, v: E)
    ensures { out.new ≡ set out.old n v }
{
    // kept: `if let Some(e) = out.get_mut(n)` was tried, and its proof didn't close
    if n < out.len() {
        out[n] = v;
    }
}

// Items again and again, behind the `len` entries that `out` has.
fn read_items<E: Copy, I: Items<E>>(
    s: &[u8],
    at: usize,
    len: usize,
    out: &mut [E],
) -> Result<Read<usize>, Stuck>
    requires at_in_bounds { at ≤ length s.now }
    requires len_bound { len ≤ 1 }
    ensures { Told s.now at (mapped (pushes (row out.old len)) (I.items (drop at s.now))) (row out.new) result }
{
    let mut n = len;
    let mut i = at;
    // kept: an item is as long as its reader finds, so that no `for` goes from one to the next
    while i < s.len() {
        if !I::begins(s[i]) {
            return Ok(Read { value: n, end: i });
        }
        let m = I::read_item(s, i)?;
        put(&mut *out, n, m.value);
        n += 1;
        i = m.end;
    }
    Ok(Read { value: n, end: i })
}

// Dimensions, each followed by `x`.
// kept: a list without entries as a type of its own would be two, as no generic struct holds an array of a type parameter
pub(crate) fn read_shape(s: &[u8], at: usize, out: &mut [i64]) -> Result<Read<usize>, Stuck>
    requires at_in_bounds { at ≤ length s.now }
    requires out_value { out.old ≡ padded 8 [] }
    ensures { Told s.now at (mapped (pushes nothing) (dims64 (drop at s.now))) (row out.new) result }
{
    read_items::<i64, Shape>(s, at, 0, out)
}

// At least one entry, parted by commas.
pub(crate) fn read_list<E: Entry>(s: &[u8], at: usize, out: &mut [E]) -> Result<Read<usize>, Stuck>
    requires { at ≤ length s.now }
    ensures { Told s.now at (mapped (pushes (row out.old 0)) (listed E.commas (E.entry (drop at s.now)))) (row out.new) result }
{
    let n = E::read(s, at)?;
    put(&mut *out, 0, n.value);
    read_items::<E, ByComma>(s, n.end, 1, out)
}

// The entries of a view's tile: at least one, parted by commas or by `x`.
pub(crate) fn read_entries(s: &[u8], at: usize, out: &mut [i32]) -> Result<Read<usize>, Stuck>
    requires at_in_bounds { at ≤ length s.now }
    requires out_value { out.old ≡ padded 8 [] }
    ensures { Told s.now at (mapped (pushes nothing) (list32 true (drop at s.now))) (row out.new) result }
{
    let n = number32(s, at)?;
    put(&mut *out, 0, n.value);
    if peek(s, n.end) == b'x' {
        return read_items::<i32, ByX>(s, n.end, 1, out);
    }
    read_items::<i32, ByComma>(s, n.end, 1, out)
}
