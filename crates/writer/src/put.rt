// The text as far as it is put, and what is put behind it: bytes and numbers.
ghost use Rattle.std.specs.Prelude.{◌≡◌, List, [], ◌∷◌, ◌++◌, ℕ, ◌+◌, ◌<◌, ◌≤◌, ℤ, length, take};
ghost use Rattle.meaning.specs.Decimal.{digits, decimal};

use std::marker::Model;

// The longest text has 149 bytes and 78 for each entry of the capacity.
pub(crate) const LONGEST: usize = 773;

// kept: no heap is used, so that a draft is no `Vec`
#[derive(Drop)]
pub(crate) struct Draft {
    bytes: [u8; LONGEST],
    len: usize,
}

// A contract sees the bytes that are put.
impl Model for Draft {
    ghost Value = { List ℕ };

    ghost view = { λ d. take d.len d.bytes };

    ghost invariant = { λ d. d.len ≤ length d.bytes };
}

impl Draft {
    pub(crate) fn new() -> Self
        ensures { result ≡ [] }
    {
        Draft {
            bytes: [0; LONGEST],
            len: 0,
        }
    }

    pub(crate) fn bytes(&self) -> &[u8]
        ensures { result.now ≡ self.now }
    {
        &self.bytes[..self.len]
    }

    pub(crate) fn put_byte(&mut self, b: u8)
        requires { length self.old < LONGEST }
        ensures { self.new ≡ self.old ++ b ∷ [] }
    {
        self.bytes[self.len] = b;
        self.len += 1;
    }

    pub(crate) fn put_bytes(&mut self, what: &[u8])
        requires { length self.old + length what.now ≤ LONGEST }
        ensures { self.new ≡ self.old ++ what.now }
    {
        let end = self.len + what.len();
        lexis::lay(&mut self.bytes[self.len..end], what);
        self.len = end;
    }

    // The digits of `n`, without a leading zero: from the last on, at the end of a room for the longest.
    // kept: `write!` answers a `Result` for what can't fail here, and a draft would have to be a `fmt::Write` for it
    fn put_digits(&mut self, n: u64)
        requires { length self.old + length (digits n n []) ≤ LONGEST }
        ensures { self.new ≡ self.old ++ digits n n [] }
    {
        if n < 10 {
            return self.put_byte(b'0' + n as u8); // as most numbers are
        }
        let mut text = [0; 20];
        let mut first = 19;
        let mut rest = n;
        while rest >= 10 {
            text[first] = b'0' + (rest % 10) as u8;
            first -= 1;
            rest /= 10;
        }
        text[first] = b'0' + rest as u8;
        self.put_bytes(&text[first..]);
    }

    // `z` in decimal, with `-` in front if it is negative.
    pub(crate) fn put_number(&mut self, z: i64)
        requires { length self.old + length (decimal z) ≤ LONGEST }
        ensures { self.new ≡ self.old ++ decimal z }
    {
        if z < 0 {
            self.put_byte(b'-');
        }
        self.put_digits(z.unsigned_abs());
    }
}
