// A refusal's number and meaning (01, "Records and numbers"), and for 2 the place.
use super::text::Plain;
use meaning::Refusal;
use std::io::{self, Print};

pub fn meaning(refusal: Refusal) -> &'static str {
    match refusal {
        Refusal::Accepted => "0: nothing is refused",
        Refusal::TooLong => "1: the text has over 1,024 bytes",
        Refusal::HighByte => "2: a byte of the text is 128 or more",
        Refusal::NoType => "3: the ordinary reader finds no type in the text",
        Refusal::TooMany => "4: the type has a list of over 8 entries",
        Refusal::NotStrict => "5: the text isn't a strict form of any rank",
        Refusal::NotNormal => "6: the record isn't normal",
        Refusal::NoText => {
            "7: the type has no text: a scalar, a scalar tile or a token can't carry the pointer attribute"
        }
        Refusal::RoomShort => "8: the room is shorter than the text",
    }
}

// The text around the place, and a caret under it: a line holds 70 bytes, at most 40 of them before the place.
fn point<R: Print>(rt: &R, place: usize, text: &[u8]) -> io::Result<()> {
    let from = place.saturating_sub(40);
    let rest = &text[from.min(text.len())..];
    let shown = Plain(&rest[..rest.len().min(70)]);
    if from == 0 {
        print!(rt; "  {shown}\n  ")?;
    } else {
        print!(rt; "  ... {shown}\n      ")?;
    }
    for _ in from..place {
        print!(rt; " ")?;
    }
    println!(rt; "^ place {place}, counted from 0")
}

pub fn refuse<R: Print>(rt: &R, refusal: Refusal, place: usize, text: &[u8]) -> io::Result<()> {
    println!(rt; "refused {}", meaning(refusal))?;
    match refusal {
        Refusal::HighByte => point(rt, place, text),
        _ => Ok(()),
    }
}
