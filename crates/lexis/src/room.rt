// Laying bytes into a room.
ghost use Rattle.std.specs.Prelude.{◌≡◌, ◌++◌, drop, length, take};

// Lays `what` at the front of the room, as far as it fits; what the room holds behind it stays.
// kept: `copy_from_slice` asks a C archive for `memmove`, which nothing else of it needs
#[tactic(auto, using(crate::proofs::Rooms::begun, crate::proofs::Rooms::laid_more, crate::proofs::Rooms::laid_all))]
pub fn lay(room: &mut [u8], what: &[u8])
    ensures { room.new ≡ take (length room.old) what.now ++ drop (length what.now) room.old }
{
    for i in 0..what.len().min(room.len()) {
        room[i] = what[i];
    }
}
