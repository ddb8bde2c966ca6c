// What the programs share at a terminal: reading into a room of fixed size, and how entries and scalars are printed.
#![tactic(auto)]

mod entry;
mod name;

ghost use Rattle.std.specs.Prelude.{◌≤◌, ◌<◌, length, take, IfOk, IfErr};
ghost use Rattle.std.specs.Io.KnownBytes.{Consumes, IsAtEnd};

pub use entry::{Entries, Entry};
pub use name::scalar_name;
use std::io::Read;

// Reads until the room is full or the input ends, and says how many bytes came; where a read fails, how many came before it.
pub fn fill<R: Read>(from: &mut R, room: &mut [u8]) -> Result<usize, usize>
    ensures bound { IfOk result (λ n. n ≤ length room.new) }
    ensures bytes { IfOk result (λ n. Consumes (R.remaining from.old) (R.remaining from.new) (take n room.new)) }
    ensures end { IfOk result (λ n. n < length room.new → IsAtEnd (R.remaining from.new)) }
    ensures failed_bound { IfErr result (λ n. n ≤ length room.new) }
    ensures failed_bytes { IfErr result (λ n. Consumes (R.remaining from.old) (R.remaining from.new) (take n room.new)) }
{
    // kept: a reader says how many bytes it put into the rest of the room, so that the place goes on by that
    let mut n = 0;
    while n < room.len() {
        match from.read(&mut room[n..]) {
            Ok(0) => return Ok(n),
            Ok(k) => n += k,
            Err(_) => return Err(n),
        }
    }
    Ok(n)
}
