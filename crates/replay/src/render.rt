// A reading as the list writes it: `1`, `2 @PLACE`, or `0 KIND ELEMENT pointer=0 .. counts=0,0,0,0`.
use meaning::{CAP, Kind, Note, Padding, Reading, Record, Refusal};
use std::fmt::{self, Display, Formatter, InlineText};
use terminal::{Entries, scalar_name};

// kept: the kinds and paddings are another crate's, so that `Display` wants a wrapper and is no plainer
fn kind_name(kind: Kind) -> &'static str {
    match kind {
        Kind::Scalar => "scalar",
        Kind::Pointer => "pointer",
        Kind::Tile => "tile",
        Kind::TensorView => "tensor_view",
        Kind::Partition => "partition_view",
        Kind::GatherScatter => "gather_scatter_view",
        Kind::Strided => "strided_view",
        Kind::Token => "token",
    }
}

fn padding_name(padding: Padding) -> &'static str {
    match padding {
        Padding::Absent => "none",
        Padding::Zero => "zero",
        Padding::NegZero => "neg_zero",
        Padding::Nan => "nan",
        Padding::PosInf => "pos_inf",
        Padding::NegInf => "neg_inf",
    }
}

// A record's list has at most CAP entries.
// kept: an array and a length, as they stand in a record
fn list<W: fmt::Write>(
    f: &mut Formatter<W>,
    name: &str,
    values: [i64; CAP],
    len: usize,
) -> fmt::Result {
    let entries = Entries {
        values: &values[..len.min(CAP)],
        between: ",",
    };
    write!(f, "{name}=[{entries}] ")
}

#[derive(Clone, Copy)]
struct Type(Record);

impl Display for Type {
    fn fmt<W: fmt::Write>(&self, f: &mut Formatter<W>) -> fmt::Result {
        let r = self.0;
        write!(f, "{} {} ", kind_name(r.kind), scalar_name(r.element))?;
        write!(f, "pointer={} ", u8::from(r.pointer))?;
        write!(f, "attribute={} ", u8::from(r.attribute))?;
        list(f, "shape", r.shape, r.shape_len)?;
        list(f, "strides", r.strides, r.strides_len)?;
        list(f, "tile", r.tile.map(i64::from), r.tile_len)?;
        list(f, "map", r.map.map(i64::from), r.map_len)?;
        list(f, "traversal", r.traversal.map(i64::from), r.traversal_len)?;
        let sparse = r.sparse;
        write!(f, "sparse={sparse} padding={}", padding_name(r.padding))
    }
}

#[derive(Clone, Copy)]
struct Counts(Note);

impl Display for Counts {
    fn fmt<W: fmt::Write>(&self, f: &mut Formatter<W>) -> fmt::Result {
        let Note { a, b, c, d } = self.0;
        write!(f, "{a},{b},{c},{d}")
    }
}

#[derive(Clone, Copy)]
struct Answer(Reading);

impl Display for Answer {
    fn fmt<W: fmt::Write>(&self, f: &mut Formatter<W>) -> fmt::Result {
        let r = self.0;
        match r.refusal {
            Refusal::Accepted => write!(f, "0 {} counts={}", Type(r.value), Counts(r.note)),
            Refusal::HighByte => write!(f, "2 @{}", r.place),
            refusal => write!(f, "{}", refusal.number()),
        }
    }
}

// The answer; none has over 1,024 bytes.
pub fn shown(r: Reading) -> InlineText<2048> {
    InlineText::of(Answer(r))
}
