// The name of a scalar.
ghost use Rattle.std.specs.Prelude.{◌≡◌, Some};
ghost use Rattle.scalars.specs.Names.{scalar_name};
ghost use Rattle.meaning.specs.Strict.{word};
ghost use Rattle.meaning.specs.Written.{first};

use scalars::Scalar;

// A scalar's name, in its first spelling: that in which it is written. The name reader gives the scalar back.
// kept: `Scalar` is another crate's, so that `Display` wants a wrapper and is no plainer
#[tactic(auto, unfolding(scalars::specs::Names::scalar_name))]
pub fn scalar_name(s: Scalar) -> &'static str
    ensures spelling { result.now ≡ word (first s) }
    ensures back { scalar_name result.now ≡ Some s }
{
    match s {
        Scalar::I1 => "i1",
        Scalar::I4 => "i4",
        Scalar::I8 => "i8",
        Scalar::I16 => "i16",
        Scalar::I32 => "i32",
        Scalar::I64 => "i64",
        Scalar::F16 => "f16",
        Scalar::BF16 => "bf16",
        Scalar::F32 => "f32",
        Scalar::TF32 => "tf32",
        Scalar::F64 => "f64",
        Scalar::F8E4M3FN => "f8E4M3FN",
        Scalar::F8E5M2 => "f8E5M2",
        Scalar::F8E8M0FNU => "f8E8M0FNU",
        Scalar::F4E2M1FN => "f4E2M1FN",
        Scalar::F8E5M3FNU => "f8E5M3FNU",
    }
}
