// What a byte is sought or trimmed by, as Rust's patterns of characters: a byte, or a class of bytes.
ghost use Rattle.std.specs.Prelude.{◌≡◌, ℕ, Bool, eqb};
ghost use Rattle.lexis.specs.Text.{ink, outside, white};

pub trait Pattern: Copy {
    ghost matches: { Self → ℕ → Bool };

    fn matches(self, b: u8) -> bool
        ensures { result ≡ matches self b };
}

impl Pattern for u8 {
    ghost matches = { eqb };

    fn matches(self, b: u8) -> bool {
        self == b
    }
}

// The bytes that trimming drops: 9 to 13 and 32, so VT (11) too.
#[derive(Clone, Copy)]
pub struct White;

impl Pattern for White {
    ghost matches = { λ _. white };

    fn matches(self, b: u8) -> bool {
        (9 <= b) & (b <= 13) | (b == b' ')
    }
}

// The bytes that trimming keeps.
#[derive(Clone, Copy)]
pub struct Ink;

impl Pattern for Ink {
    ghost matches = { λ _. ink };

    fn matches(self, b: u8) -> bool {
        !White.matches(b)
    }
}

// The bytes below `lo` or above `hi`.
#[derive(Clone, Copy)]
pub struct Outside {
    pub lo: u8,
    pub hi: u8,
}

impl Pattern for Outside {
    ghost matches = { λ p. outside p.lo p.hi };

    fn matches(self, b: u8) -> bool {
        (b < self.lo) | (self.hi < b)
    }
}
