// A type, field by field: those that its kind uses.
use meaning::{CAP, Kind, Padding, Record};
use std::fmt::Display;
use std::io::{self, Print};
use terminal::{Entries, Entry, scalar_name};

fn field<R: Print, D: Display + Drop>(rt: &R, name: &str, value: D) -> io::Result<()> {
    println!(rt; "  {name:19}{value}")
}

// A record's list has at most CAP entries.
// kept: an array and a length, as they stand in a record
fn list<R: Print>(rt: &R, name: &str, values: [i64; CAP], len: usize) -> io::Result<()> {
    let entries = Entries {
        values: &values[..len.min(CAP)],
        between: ", ",
    };
    field(rt, name, format_args!("[{entries}]"))
}

// kept: the kinds and paddings are another crate's, so that `Display` wants a wrapper and is no plainer
fn kind_name(kind: Kind) -> &'static str {
    match kind {
        Kind::Scalar => "scalar",
        Kind::Pointer => "pointer",
        Kind::Tile => "tile",
        Kind::TensorView => "tensor view",
        Kind::Partition => "partition view",
        Kind::GatherScatter => "gather-scatter view",
        Kind::Strided => "strided view",
        Kind::Token => "token",
    }
}

fn padding_name(padding: Padding) -> &'static str {
    match padding {
        Padding::Absent => "none",
        Padding::Zero => "zero",
        Padding::NegZero => "negative zero",
        Padding::Nan => "not a number",
        Padding::PosInf => "positive infinity",
        Padding::NegInf => "negative infinity",
    }
}

fn attribute<R: Print>(rt: &R, r: &Record) -> io::Result<()> {
    let present = if r.attribute { "yes" } else { "no" };
    field(rt, "pointer attribute", present)
}

fn shape<R: Print>(rt: &R, r: &Record) -> io::Result<()> {
    list(rt, "shape", r.shape, r.shape_len)
}

fn tile_shape<R: Print>(rt: &R, r: &Record) -> io::Result<()> {
    list(rt, "tile shape", r.tile.map(i64::from), r.tile_len)
}

fn map<R: Print>(rt: &R, r: &Record) -> io::Result<()> {
    list(rt, "dimension map", r.map.map(i64::from), r.map_len)
}

// The tensor that a view is of, or that is viewed.
fn tensor<R: Print>(rt: &R, r: &Record) -> io::Result<()> {
    field(rt, "element", scalar_name(r.element))?;
    shape(rt, r)?;
    list(rt, "strides", r.strides, r.strides_len)?;
    attribute(rt, r)
}

fn tile<R: Print>(rt: &R, r: &Record) -> io::Result<()> {
    let name = scalar_name(r.element);
    if r.pointer {
        field(rt, "element", format_args!("pointer to {name}"))?;
    } else {
        field(rt, "element", name)?;
    }
    shape(rt, r)?;
    attribute(rt, r)
}

fn partition<R: Print>(rt: &R, r: &Record) -> io::Result<()> {
    tile_shape(rt, r)?;
    field(rt, "padding", padding_name(r.padding))?;
    tensor(rt, r)?;
    map(rt, r)
}

fn gather_scatter<R: Print>(rt: &R, r: &Record) -> io::Result<()> {
    tile_shape(rt, r)?;
    field(rt, "padding", padding_name(r.padding))?;
    tensor(rt, r)?;
    field(rt, "sparse dimension", Entry(i64::from(r.sparse)))
}

fn strided<R: Print>(rt: &R, r: &Record) -> io::Result<()> {
    let traversal = r.traversal.map(i64::from);
    tile_shape(rt, r)?;
    list(rt, "traversal strides", traversal, r.traversal_len)?;
    field(rt, "padding", padding_name(r.padding))?;
    tensor(rt, r)?;
    map(rt, r)
}

pub fn fields<R: Print>(rt: &R, r: &Record) -> io::Result<()> {
    field(rt, "kind", kind_name(r.kind))?;
    match r.kind {
        Kind::Scalar => {
            field(rt, "element", scalar_name(r.element))?;
            attribute(rt, r)
        }
        Kind::Pointer => {
            field(rt, "points to", scalar_name(r.element))?;
            attribute(rt, r)
        }
        Kind::Tile => tile(rt, r),
        Kind::TensorView => tensor(rt, r),
        Kind::Partition => partition(rt, r),
        Kind::GatherScatter => gather_scatter(rt, r),
        Kind::Strided => strided(rt, r),
        Kind::Token => attribute(rt, r),
    }
}
