// Signed numbers by a sign and a size: what numerals of 32 and of 64 bits differ in.
ghost use Rattle.std.specs.Prelude.{◌≡◌, ℕ, ◌+◌, ◌-◌, ◌≤◌, ◌<◌, ◌^◌, ℤ, pos, refl};
ghost use Rattle.std.proofs.Common.{rules};
ghost use Rattle.numerals.specs.Numeral.{minus};

pub trait Integer: Copy {
    ghost bits: { ℕ };

    ghost is: { Self → ℤ };

    ghost MOST: { ℕ };

    // The largest number; the smallest is one further from 0.
    const MOST: u64;

    fn plus(n: u64) -> Self
        requires { n ≤ MOST }
        ensures { is result ≡ pos n };

    fn minus(n: u64) -> Self
        requires { n ≤ MOST + 1 }
        ensures { is result ≡ minus n };

    // The same number at 64 bits.
    fn wide(self) -> i64
        ensures { result ≡ is self };

    ghost range: { MOST + 1 ≡ 2 ^ (bits - 1) };

    ghost small: { MOST < 2 ^ 63 };
}

impl Integer for i64 {
    ghost bits = { 64 };

    ghost is = { λ z. z };

    ghost MOST = { 9223372036854775807 };

    const MOST: u64 = 9223372036854775807;

    ghost range = { refl };

    ghost small = { Prim.search rules };

    fn plus(n: u64) -> i64 {
        n as i64
    }

    fn minus(n: u64) -> i64 {
        if n == 0 { 0 } else { -1 - ((n - 1) as i64) }
    }

    fn wide(self) -> i64 {
        self
    }
}

impl Integer for i32 {
    ghost bits = { 32 };

    ghost is = { λ z. z };

    ghost MOST = { 2147483647 };

    const MOST: u64 = 2147483647;

    ghost range = { refl };

    ghost small = { Prim.search rules };

    fn plus(n: u64) -> i32 {
        n as i32
    }

    fn minus(n: u64) -> i32 {
        <i64 as Integer>::minus(n) as i32
    }

    fn wide(self) -> i64 {
        i64::from(self)
    }
}
