// The call: its refusals, and the text laid at the front of the room.
ghost use Rattle.std.specs.Prelude.{◌≡◌, ◌≤◌, length};
ghost use Rattle.meaning.specs.Written.{outcome, laid_in, writing};
ghost use Rattle.writer.specs.Flat.{text};

use super::fit::Fit;
use super::has_text::has_text;
use super::put::{Draft, LONGEST};
use meaning::{Record, Refusal, Written, is_normal};

// A refusal: no length, and no byte touched.
fn refused(refusal: Refusal) -> Written
    ensures { result ≡ record { refusal = refusal; len = 0 } }
{
    Written { refusal, len: 0 }
}

// The text of a record that has one.
fn laid(r: Fit, room: &mut [u8]) -> Written
    requires { length (text r.r.now) ≤ LONGEST }
    ensures { outcome result room.new ≡ laid_in room.old (text r.entry.r.now) }
{
    let mut draft = Draft::new();
    draft.put_text(r);
    let text = draft.bytes();
    let len = text.len();
    if room.len() < len {
        return refused(Refusal::RoomShort);
    }
    room[..len].copy_from_slice(text);
    Written {
        refusal: Refusal::Accepted,
        len,
    }
}

// The text of `r` at the front of the room, or a refusal and the room as it was.
pub fn write(r: Record, room: &mut [u8]) -> Written
    ensures { outcome result room.new ≡ writing 8 r room.old }
{
    if !is_normal(r) {
        return refused(Refusal::NotNormal);
    }
    if !has_text(&r) {
        return refused(Refusal::NoText);
    }
    laid(Fit { r: &r }, room)
}
