// Lists put entry after entry.
ghost use Rattle.std.specs.Prelude.{◌≡◌, List, [], ◌∷◌, ◌++◌, ℕ, ◌+◌, ◌≤◌, length};
ghost use Rattle.meaning.specs.Decimal.{decimal};
ghost use Rattle.writer.specs.Flat.{entry, parted, clause};

use super::put::{Draft, LONGEST};
use meaning::DYNAMIC;

// An entry of a list, and its text.
pub(crate) trait Entry: Copy {
    ghost text: { Self → List ℕ };

    fn put(self, out: &mut Draft)
        requires { length out.old + length (text self) ≤ LONGEST }
        ensures { out.new ≡ out.old ++ text self };
}

// An entry of a shape or of strides.
impl Entry for i64 {
    ghost text = { entry };

    fn put(self, out: &mut Draft) {
        if self == DYNAMIC {
            return out.put_byte(b'?');
        }
        out.put_number(self);
    }
}

impl Entry for i32 {
    ghost text = { decimal };

    fn put(self, out: &mut Draft) {
        out.put_number(i64::from(self));
    }
}

impl Draft {
    // The entries of `l`, with `sep` between.
    fn put_entries<E: Entry>(&mut self, l: &[E], sep: u8)
        requires { length self.old + length (parted (sep ∷ []) E.text l.now) ≤ LONGEST }
        ensures { self.new ≡ self.old ++ parted (sep ∷ []) E.text l.now }
    {
        if let [first, rest @ ..] = l {
            first.put(self);
            for e in rest {
                self.put_byte(sep);
                e.put(self);
            }
        }
    }

    // The entries of `l` between `head` and `tail`.
    #[tactic(auto, unfolding(crate::specs::Flat::clause))]
    pub(crate) fn put_clause<E: Entry>(&mut self, head: &[u8], l: &[E], sep: u8, tail: &[u8])
        requires { length self.old + length (clause E.text head.now sep l.now tail.now) ≤ LONGEST }
        ensures { self.new ≡ self.old ++ clause E.text head.now sep l.now tail.now }
    {
        self.put_bytes(head);
        self.put_entries(l, sep);
        self.put_bytes(tail);
    }
}
