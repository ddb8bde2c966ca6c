// Scalar types and their names (01, module 2).
ghost use Rattle.std.specs.Prelude.{◌≡◌, not};
ghost use Rattle.scalars.specs.Names.{scalar_name, byte_width, integer, bit_width};

use lexis::{same, trim};

// Scalar (element) types: integers and floats.
#[derive(Clone, Copy, PartialEq, Eq)]
pub enum Scalar {
    I1,
    I4,
    I8,
    I16,
    I32,
    I64,
    F16,
    BF16,
    F32,
    TF32,
    F64,
    F8E4M3FN,
    F8E5M2,
    F8E8M0FNU,
    F4E2M1FN,
    F8E5M3FNU,
}

impl Scalar {
    // Byte width of this scalar type (I1 rounds up to 1 byte).
    pub fn byte_width(self) -> usize
        ensures { result ≡ byte_width self }
    {
        match self {
            Scalar::I1
            | Scalar::I4
            | Scalar::I8
            | Scalar::F8E4M3FN
            | Scalar::F8E5M2
            | Scalar::F8E8M0FNU
            | Scalar::F4E2M1FN
            | Scalar::F8E5M3FNU => 1,
            Scalar::I16 | Scalar::F16 | Scalar::BF16 => 2,
            Scalar::I32 | Scalar::F32 | Scalar::TF32 => 4,
            Scalar::I64 | Scalar::F64 => 8,
        }
    }

    // True if this is an integer scalar type.
    pub fn is_integer(self) -> bool
        ensures { result ≡ integer self }
    {
        matches!(
            self,
            Scalar::I1 | Scalar::I4 | Scalar::I8 | Scalar::I16 | Scalar::I32 | Scalar::I64
        )
    }

    // True if this is a float scalar type.
    pub fn is_float(self) -> bool
        ensures { result ≡ not (integer self) }
    {
        !self.is_integer()
    }

    // Bits of a value: 1 for I1, 4 for I4 and F4E2M1FN, else 8 for each byte.
    pub fn bits(self) -> usize
        ensures { result ≡ bit_width self }
    {
        match self {
            Scalar::I1 => 1,
            Scalar::I4 | Scalar::F4E2M1FN => 4,
            Scalar::I8
            | Scalar::F8E4M3FN
            | Scalar::F8E5M2
            | Scalar::F8E8M0FNU
            | Scalar::F8E5M3FNU => 8,
            Scalar::I16 | Scalar::F16 | Scalar::BF16 => 16,
            Scalar::I32 | Scalar::F32 | Scalar::TF32 => 32,
            Scalar::I64 | Scalar::F64 => 64,
        }
    }
}

// The accepted spellings, in the order of the Rust: the five narrow floats in two each, and `bool` for I1.
const NAMES: [(&[u8], Scalar); 22] = [
    (b"i1", Scalar::I1),
    (b"i4", Scalar::I4),
    (b"i8", Scalar::I8),
    (b"i16", Scalar::I16),
    (b"i32", Scalar::I32),
    (b"i64", Scalar::I64),
    (b"f16", Scalar::F16),
    (b"bf16", Scalar::BF16),
    (b"f32", Scalar::F32),
    (b"tf32", Scalar::TF32),
    (b"f64", Scalar::F64),
    (b"f8E4M3FN", Scalar::F8E4M3FN),
    (b"f8e4m3fn", Scalar::F8E4M3FN),
    (b"f8E5M2", Scalar::F8E5M2),
    (b"f8e5m2", Scalar::F8E5M2),
    (b"f8E8M0FNU", Scalar::F8E8M0FNU),
    (b"f8e8m0fnu", Scalar::F8E8M0FNU),
    (b"f4E2M1FN", Scalar::F4E2M1FN),
    (b"f4e2m1fn", Scalar::F4E2M1FN),
    (b"f8E5M3FNU", Scalar::F8E5M3FNU),
    (b"f8e5m3fnu", Scalar::F8E5M3FNU),
    (b"bool", Scalar::I1),
];

// The scalar that a text names, white space around it aside.
pub fn parse_scalar(text: &[u8]) -> Option<Scalar>
    ensures { result ≡ scalar_name text.now }
{
    let name = trim(text);
    for (spelling, scalar) in &NAMES {
        if same(spelling, name) {
            return Some(*scalar);
        }
    }
    None
}
