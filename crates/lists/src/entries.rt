// The first entries of a list, in an array: what lists of 32 and of 64 bits differ in.
ghost use Rattle.std.specs.Prelude.{◌≡◌, List, [], ℤ, set};
ghost use Rattle.meaning.specs.Found.{padded};

use meaning::CAP;
use numerals::Integer;

pub trait Entries: Copy {
    type Entry: Integer;

    ghost values: { Self → List ℤ };

    // All zero.
    fn none() -> Self
        ensures { values result ≡ padded 8 [] };

    // A place past the end is no place.
    fn put(&mut self, n: usize, v: Self::Entry)
        ensures { values self.new ≡ set (values self.old) n (Self.Entry.is v) };
}

// kept: the same twice, as one impl for `[T; CAP]` says its values by a `map`, which the proof of each caller would take away again
impl Entries for [i64; CAP] {
    type Entry = i64;

    ghost values = { λ l. l };

    fn none() -> [i64; CAP] {
        [0i64; CAP]
    }

    #[tactic(auto, using(crate::proofs::Laying::unset))]
    fn put(&mut self, n: usize, v: i64) {
        if n < CAP { // there is room
            self[n] = v;
        }
    }
}

impl Entries for [i32; CAP] {
    type Entry = i32;

    ghost values = { λ l. l };

    fn none() -> [i32; CAP] {
        [0i32; CAP]
    }

    #[tactic(auto, using(crate::proofs::Laying::unset))]
    fn put(&mut self, n: usize, v: i32) {
        if n < CAP { // as there
            self[n] = v;
        }
    }
}
