// Heads of kinds, names of scalars and clauses of paddings.
ghost use Rattle.std.specs.Prelude.{◌≡◌};
ghost use Rattle.writer.specs.Flat.{word_of, padding_text, head_as};

use meaning::{Kind, Padding};
use scalars::Scalar;

// kept: the enums are other crates', so that `Display` wants a wrapper, and a word of bytes is put as it is

pub(crate) fn scalar_name(e: Scalar) -> &'static [u8]
    ensures { result.now ≡ word_of e }
{
    match e {
        Scalar::I1 => b"i1",
        Scalar::I4 => b"i4",
        Scalar::I8 => b"i8",
        Scalar::I16 => b"i16",
        Scalar::I32 => b"i32",
        Scalar::I64 => b"i64",
        Scalar::F16 => b"f16",
        Scalar::BF16 => b"bf16",
        Scalar::F32 => b"f32",
        Scalar::TF32 => b"tf32",
        Scalar::F64 => b"f64",
        Scalar::F8E4M3FN => b"f8E4M3FN",
        Scalar::F8E5M2 => b"f8E5M2",
        Scalar::F8E8M0FNU => b"f8E8M0FNU",
        Scalar::F4E2M1FN => b"f4E2M1FN",
        Scalar::F8E5M3FNU => b"f8E5M3FNU",
    }
}

pub(crate) fn padding_clause(p: Padding) -> &'static [u8]
    ensures { result.now ≡ padding_text p }
{
    match p {
        Padding::Absent => b"",
        Padding::Zero => b"padding_value=zero, ",
        Padding::NegZero => b"padding_value=neg_zero, ",
        Padding::Nan => b"padding_value=nan, ",
        Padding::PosInf => b"padding_value=pos_inf, ",
        Padding::NegInf => b"padding_value=neg_inf, ",
    }
}

pub(crate) fn head(k: Kind) -> &'static [u8]
    ensures { result.now ≡ head_as k }
{
    match k {
        Kind::Scalar | Kind::Pointer => b"",
        Kind::Tile => b"!cuda_tile.tile<",
        Kind::TensorView => b"!cuda_tile.tensor_view<",
        Kind::Partition => b"!cuda_tile.partition_view<",
        Kind::GatherScatter => b"!cuda_tile.gather_scatter_view<",
        Kind::Strided => b"!cuda_tile.strided_view<",
        Kind::Token => b"!cuda_tile.token",
    }
}
