// `Type::parse` (01, module 7).
ghost use Rattle.std.specs.Prelude.{if◌then◌else◌, suc, ◌≤◌, ◌≡◌, true, leb, take, drop, length};
ghost use Rattle.scalars.specs.Names.{scalar_name};
ghost use Rattle.meaning.specs.Found.{plain};
ghost use Rattle.meaning.specs.Parts.{each};
ghost use Rattle.meaning.specs.Ordinary as O;
ghost use Rattle.meaning.specs.Ordinary.{unmarked, judged, refused};
ghost use Rattle.meaning.specs.declared.Refusal.TheVariants.{TooLong};
ghost use Rattle.port.specs.Carried.{carried, answered};
ghost use Rattle.port.specs.Forms.{shorthand, unprefixed, bare, first_of};
ghost use Rattle.port.specs.Passes.{reads_on};

use super::brackets::strip_prefix_suffix;
use super::made::listless;
use super::marks::{to_read, without_marks};
use super::tensor_view::parse_tensor_view;
use super::tile::parse_tile;
use super::views::{parse_gather_scatter_view, parse_partition_view, parse_strided_view};
use meaning::{Kind, Reading, Refusal, refuse};
use scalars::Scalar;

// A type that is told by a scalar's name alone: a pointer by its content, a scalar by the whole text.
fn parse_name(kind: Kind, s: &[u8], marked: bool) -> Reading
    ensures { result ≡ answered marked (each (carried 8) (each (plain kind) (scalar_name s.now))) }
{
    match scalars::parse_scalar(s) {
        Some(e) => listless(kind, e, marked),
        None => refuse(Refusal::NoType, 0),
    }
}

// `s` without the prefix that both spellings share.
fn unprefixed(s: &[u8]) -> &[u8]
    ensures { result.now ≡ unprefixed s.now }
{
    if lexis::begins(s, b"!cuda_tile.") {
        &s[11..]
    } else {
        s
    }
}

// The last form, by `t`, which is `s` without the prefix; then `s` as a bare scalar.
fn parse_last(s: &[u8], t: &[u8], marked: bool) -> Reading
    ensures { result ≡ answered marked (each (carried 8) (first_of (drop 5 shorthand) t.now (bare s.now))) }
{
    if let Some(q) = strip_prefix_suffix(t, b"ptr<") {
        return parse_name(Kind::Pointer, q.inner, marked);
    }
    parse_name(Kind::Scalar, s, marked)
}

// The views, then the last form.
fn parse_views(s: &[u8], t: &[u8], marked: bool) -> Reading
    ensures { result ≡ answered marked (each (carried 8) (first_of (drop 2 shorthand) t.now (bare s.now))) }
{
    if let Some(p) = strip_prefix_suffix(t, b"partition_view<") {
        return parse_partition_view(p.inner, p.places, marked);
    }
    if let Some(g) = strip_prefix_suffix(t, b"gather_scatter_view<") {
        return parse_gather_scatter_view(g.inner, g.places, marked);
    }
    if let Some(d) = strip_prefix_suffix(t, b"strided_view<") {
        return parse_strided_view(d.inner, d.places, marked);
    }
    parse_last(s, t, marked)
}

// All forms, in this order.
fn parse_named(s: &[u8], t: &[u8], marked: bool) -> Reading
    ensures { result ≡ answered marked (each (carried 8) (first_of shorthand t.now (bare s.now))) }
{
    if let Some(e) = strip_prefix_suffix(t, b"tile<") {
        return parse_tile(e.inner, e.places, marked);
    }
    if let Some(v) = strip_prefix_suffix(t, b"tensor_view<") {
        return parse_tensor_view(v.inner, v.places, marked);
    }
    parse_views(s, t, marked)
}

// A trimmed text without marks. Both `!cuda_tile.token` and shorthand `token` are accepted.
fn parse_unmarked(s: &[u8], marked: bool) -> Reading
    ensures { result ≡ answered marked (each (carried 8) (unmarked s.now)) }
{
    let t = unprefixed(s);
    if lexis::same(t, b"token") {
        return listless(Kind::Token, Scalar::I1, marked);
    }
    parse_named(s, t, marked)
}

// Reads the text that stands in the first `n` bytes of `a`, once no mark is left in it: while one does, the rewritten text stands in the
// other room, and is read so in turn. No room is in its frame: 37 passes, the most that 1,024 bytes allow, take some 20 KB of stack.
// kept: a room and a number, as a slice would lend the room that the next pass writes
fn read_on(a: &mut [u8], n: usize, b: &mut [u8]) -> Reading
    requires { (n ≤ length a.old) × (n ≤ length b.old) }
    ensures { result ≡ answered true (each (carried 8) (reads_on (suc n) (take n a.old))) }
{
    let s = lexis::trim(&a[..n]);
    let was = s.len();
    let m = without_marks(s, &mut *b);
    let t = to_read(s, &b[..], m);
    if t.len() == was {
        return parse_unmarked(t, true);
    }
    read_on(b, m, a)
}

// What `Type::parse` returns, with the default counts; or the refusal 1, 3 or 4, the first that applies. Bytes of 128 or more have no place
// in a form, and are not looked for.
pub fn parse(text: &[u8]) -> Reading
    ensures { result ≡ (if leb (length text.now) 1024 then judged 8 (O.parse text.now) else refused 8 TooLong 0) }
{
    if 1024 < text.len() {
        return refuse(Refusal::TooLong, 0);
    }
    let s = lexis::trim(text);
    let mut a = [0u8; 1024];
    let m = without_marks(s, &mut a);
    let t = to_read(s, &a, m);
    if t.len() == s.len() {
        return parse_unmarked(t, false);
    }
    let mut b = [0u8; 1024];
    read_on(&mut a, m, &mut b)
}
