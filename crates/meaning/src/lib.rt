// Types as records and what the calls answer, as plain data by value (01, "Records and numbers").
#![tactic(auto)]

mod normal;
mod refused;

ghost use Rattle.std.specs.Prelude.{◌≡◌};
ghost use Rattle.meaning.specs.Refusals.{number};

pub use normal::{blank, is_normal};
pub use refused::{first_high, no_note, refuse};
use scalars::Scalar;

// A list holds at most this many entries.
pub const CAP: usize = 8;

// A dimension or stride whose size is not statically known, written `?`.
// kept: C gets this number in a list's place (docs/ABI.md), so that an entry is no `Option`
pub const DYNAMIC: i64 = i64::MIN;

// The kinds of a type.
#[derive(Clone, Copy, PartialEq, Eq)]
pub enum Kind {
    Scalar,
    Pointer,
    Tile,
    TensorView,
    Partition,
    GatherScatter,
    Strided,
    Token,
}

// A view's padding, or none.
// kept: it crosses to C as one number, 0 for none (docs/ABI.md), and `plain` of specs/Found.antt names `Absent`; so no `Option`
#[derive(Clone, Copy, PartialEq, Eq)]
pub enum Padding {
    Absent,
    Zero,
    NegZero,
    Nan,
    PosInf,
    NegInf,
}

// A type, flat: five lists, each an array and a length. The fields stand as they cross to C (`numbers`), so that nothing is moved there.
// kept: C gets these fields (`typetext_record`), and no heap is used, so that a list is no `Vec`
#[derive(Clone, Copy, PartialEq, Eq)]
pub struct Record {
    pub shape_len: usize,
    pub strides_len: usize,
    pub tile_len: usize,
    pub map_len: usize,
    pub traversal_len: usize,
    pub shape: [i64; CAP],
    pub strides: [i64; CAP],
    pub tile: [i32; CAP],
    pub map: [i32; CAP],
    pub traversal: [i32; CAP],
    pub sparse: i32,
    pub kind: Kind,
    pub element: Scalar,
    pub padding: Padding,
    pub pointer: bool,
    pub attribute: bool,
}

// Why a call refused, or that it accepted, by 01's numbers.
// kept: C gets 0 for an accepted call from the same byte, and `number` of specs/Refusals.antt says so
#[derive(Clone, Copy, PartialEq, Eq)]
pub enum Refusal {
    Accepted = 0,
    TooLong = 1,
    HighByte = 2,
    NoType = 3,
    TooMany = 4,
    NotStrict = 5,
    NotNormal = 6,
    NoText = 7,
    RoomShort = 8,
}

impl Refusal {
    // 01's number of each; 0 for an accepted call.
    pub fn number(self) -> u8
        ensures { result ≡ number self }
    {
        self as u8
    }
}

// How often an ordinary reading took a default: the counts (a) to (d).
#[derive(Clone, Copy, Default, PartialEq, Eq)]
pub struct Note {
    pub a: usize,
    pub b: usize,
    pub c: usize,
    pub d: usize,
}

// What a reader answers.
// kept: `ordinary` and `refused` of specs/Ordinary.antt promise the blank record and no counts to a refused call too, and C gets all fields
#[derive(Clone, Copy, PartialEq, Eq)]
pub struct Reading {
    pub value: Record,
    pub place: usize,
    pub note: Note,
    pub refusal: Refusal,
}

// What the writer answers.
// kept: `writing` of specs/Written.antt promises the length 0 to a refused call, and C gets both fields
#[derive(Clone, Copy, PartialEq, Eq)]
pub struct Written {
    pub refusal: Refusal,
    pub len: usize,
}
