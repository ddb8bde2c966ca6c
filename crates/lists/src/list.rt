// Lists between separators.
ghost use Rattle.std.specs.Prelude.{◌+◌, ◌<◌, ◌^◌, ◌≡◌, [], ◌∷◌, pos};
ghost use Rattle.lexis.specs.Text.{split};
ghost use Rattle.meaning.specs.Found.{stands, unused};
ghost use Rattle.meaning.specs.Tile.{dimensions};
ghost use Rattle.meaning.specs.Views.{small};
ghost use Rattle.lists.specs.Laid.{laid, said_as, listed, list, smalls, Fronted};
ghost use Rattle.lists.specs.Push.{put, push, Ahead};

use super::entries::Entries;
use super::entry::{Entry, dim_of, parse_small, small_of};
use super::row::{Row, no_entry, tick};
use meaning::CAP;

// A list: the first of its entries in an array, and what is told of all.
// kept: no heap is used, so that a list is no `Vec`; entries past the capacity are only counted
#[derive(Clone, Copy)]
pub struct Listing<A> {
    pub values: A,
    pub row: Row,
}

// Dimensions and strides; the entries of a view's lists.
pub type Dims = Listing<[i64; CAP]>;

pub type Smalls = Listing<[i32; CAP]>;

impl<A: Entries> Listing<A> {
    // A list that a kind doesn't use, and every list before its first entry.
    pub fn none() -> Self
        ensures { listed A.values result ≡ laid 8 unused }
    {
        Listing {
            values: A::none(),
            row: no_entry(),
        }
    }

    // One entry more, past the capacity only counted.
    pub(crate) fn push(&mut self, e: Entry<A::Entry>)
        requires { (self.old.row.len + 1 < 2 ^ 64) × (self.old.row.tally.fell + 1 < 2 ^ 64) }
        ensures { listed A.values self.new ≡ push (listed A.values self.old) (said_as A.Entry.is e) }
    {
        match e {
            Entry::Read(v) => self.put(v),
            Entry::Fell(v) => {
                self.put(v);
                self.row.tally = tick(self.row.tally);
            }
        }
    }

    fn put(&mut self, v: A::Entry)
        requires { self.old.row.len + 1 < 2 ^ 64 }
        ensures { listed A.values self.new ≡ put (listed A.values self.old) (A.Entry.is v) self.old.row.tally }
    {
        self.values.put(self.row.len, v);
        self.row.len += 1;
    }
}

// Dimensions, and where what follows the last of them begins.
// kept: a slice would keep the text lent as long as the answer lives
#[derive(Clone, Copy)]
pub struct Front {
    pub dims: Dims,
    pub last: usize,
}

// Dimensions, and what follows the last of them.
struct Leading<'a> {
    dims: Dims,
    rest: &'a [u8],
}

// The dimensions before the last byte `x` of `s`, and the part after it.
fn before_last(s: &[u8], x: u8) -> Leading<'_>
    ensures { Ahead x s.now result }
{
    let mut rest = s;
    let mut dims = Dims::none();
    loop {
        let p = numerals::parse_part(rest, x);
        let k = p.len;
        if rest.len() <= k {
            return Leading { dims, rest };
        }
        let v = p.value;
        dims.push(dim_of(&rest[..k], v));
        rest = &rest[k + 1..];
    }
}

// The dimensions between the bytes `x` of `s`.
// kept: `split` would walk each part once more, as its numeral is read in the walk that finds its end
pub fn parse_dims(s: &[u8], x: u8) -> Dims
    ensures { list result ≡ laid 8 (dimensions (split x s.now)) }
{
    let mut t = s;
    let mut l = Dims::none();
    loop {
        let p = numerals::parse_part(t, x);
        let k = p.len;
        let v = p.value;
        l.push(dim_of(&t[..k], v));
        if t.len() <= k {
            return l;
        }
        t = &t[k + 1..];
    }
}

// The dimensions before the last `x` of `s`, and where the part after it begins.
pub fn parse_front(s: &[u8]) -> Front
    ensures { Fronted 8 s.now result }
{
    let Leading { dims, rest } = before_last(s, b'x');
    Front {
        dims,
        last: s.len() - rest.len(),
    }
}

// The 32-bit entries between the bytes `x` of `s`; an unreadable one falls back on `default`.
// kept: the loop of `parse_dims`, but one with a function for the entry needs a law of it beside, and is no plainer
pub fn parse_smalls(s: &[u8], x: u8, default: i32) -> Smalls
    ensures { list result ≡ laid 8 (smalls default (split x s.now)) }
{
    let mut t = s;
    let mut l = Smalls::none();
    loop {
        let p = numerals::parse_part(t, x);
        let k = p.len;
        let v = p.value;
        l.push(small_of(v, default));
        if t.len() <= k {
            return l;
        }
        t = &t[k + 1..];
    }
}

// One 32-bit entry as a list; an unreadable one falls back on 0.
pub fn parse_one(s: &[u8]) -> Smalls
    ensures { list result ≡ laid 8 (stands (small (pos 0) s.now ∷ [])) }
{
    let mut l = Smalls::none();
    l.push(parse_small(s, 0));
    l
}
