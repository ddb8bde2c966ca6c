// Whether a normal record has a text.
ghost use Rattle.std.specs.Prelude.{◌≡◌};
ghost use Rattle.writer.specs.Flat.{strides_fine, shown};

use meaning::{Kind, Record};

// Empty strides have a text with an empty shape only.
fn strides_ok(r: &Record) -> bool
    ensures { result ≡ strides_fine r.now }
{
    (r.strides_len != 0) | (r.shape_len == 0)
}

// An attribute on a scalar, scalar tile or token has no text, nor has an empty list that must stand.
pub(crate) fn has_text(r: &Record) -> bool
    ensures { result ≡ shown r.now }
{
    match r.kind {
        Kind::Scalar => !r.attribute,
        Kind::Pointer => true,
        Kind::Tile => r.pointer | !r.attribute,
        Kind::TensorView => strides_ok(r),
        Kind::Partition => (r.tile_len != 0) & strides_ok(r) & (r.map_len != 0),
        Kind::GatherScatter => (r.tile_len != 0) & strides_ok(r),
        Kind::Strided => (r.tile_len != 0)
            & strides_ok(r)
            & (r.traversal_len != 0)
            & (r.map_len != 0),
        Kind::Token => !r.attribute,
    }
}
