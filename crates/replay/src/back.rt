// The type that was read, written, and its text read again.
use meaning::{Reading, Record, Refusal};

// What became of a type: the readers return it from its text, or something else; it has no text; or it wasn't written.
#[derive(Clone, Copy)]
pub enum Back {
    Returned,
    Changed,
    NoText,
    NotWritten,
}

// Whether the reading is this type, and took no default.
fn is(r: Reading, value: Record) -> bool {
    r == Reading {
        refusal: Refusal::Accepted,
        place: 0,
        value,
        note: meaning::no_note(),
    }
}

pub fn write_back(value: Record) -> Back {
    let mut room = [0u8; 1024];
    let w = writer::write(value, &mut room);
    match w.refusal {
        Refusal::Accepted => {
            let text = &room[..w.len.min(room.len())];
            // Each reader has to read this type in the text.
            if is(ordinary::parse(text), value) && is(strict::parse_strict(text), value) {
                Back::Returned
            } else {
                Back::Changed
            }
        }
        Refusal::NoText => Back::NoText,
        _ => Back::NotWritten,
    }
}
