// The writer's C face: a record in numbers, its text laid in the caller's room (docs/ABI.md).
ghost use Rattle.std.specs.Prelude.{◌≡◌};
ghost use Rattle.capi.specs.Abi.{outcome, write_numbers};

use meaning::Refusal;
use numbers::TypetextRecord;

// The writer's answer in numbers.
// kept: C gets these fields (docs/ABI.md)
#[repr(C)]
#[derive(Clone, Copy)]
pub struct TypetextWritten {
    pub len: usize,
    pub refusal: u8,
}

#[tactic(auto, unfolding(crate::specs::Abi::write_numbers))]
fn write_numbers(n: &TypetextRecord, room: &mut [u8]) -> TypetextWritten
    ensures { outcome result room.new ≡ write_numbers n.now room.old }
{
    let Some(v) = numbers::of_numbers(n) else {
        return TypetextWritten {
            len: 0,
            refusal: Refusal::NotNormal.number(),
        };
    };
    let w = writer::write(v, room);
    TypetextWritten {
        len: w.len,
        refusal: w.refusal.number(),
    }
}

// The writer: the record's text at the front of the room, or a refusal and the room as it was. Any numbers get an answer.
#[unsafe(no_mangle)]
pub extern "C" fn typetext_write(record: &TypetextRecord, room: &mut [u8]) -> TypetextWritten
    ensures { outcome result room.new ≡ write_numbers «record».now room.old }
{
    write_numbers(record, room)
}
