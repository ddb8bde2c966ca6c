// The work, on a collector's parts: the bytes, their number, and whether they were too many.
// kept: the C interface lends the bytes in place and the other two apart (`typetext_feed`), so that no struct can hold the three
ghost use Rattle.std.specs.Prelude.{true, ◌≡◌};
ghost use Rattle.collector.specs.Collecting.{zeros, in_order, held, answer, told, fed, answered, ended};
ghost use Rattle.collector.specs.Parts.{of_parts};

use crate::{Refused, SIZE};
use meaning::{Reading, Refusal, refuse};

// Whether only zeros stand there.
// kept: `all` ends early, and a machine then looks at one byte in a step, and not at many (docs/DECISIONS.md, 43)
#[tactic(auto, using(crate::proofs::Order::looked, crate::proofs::Order::all_looked))]
fn all_zero(part: &[u8]) -> bool
    ensures { result ≡ zeros part.now }
{
    let mut zero = true;
    for b in part {
        zero = zero & (*b == 0);
    }
    zero
}

// Whether there is room for the limit, the number is at most that, the room past it is zero, and an over-full one has number 0.
fn in_order(bytes: &[u8], len: usize, over: bool) -> bool
    ensures { result ≡ in_order 1024 (of_parts bytes.now len over) }
{
    if bytes.len() != SIZE {
        return false; // no room of this size
    }
    if SIZE < len {
        return false; // no such number
    }
    if over & (len != 0) {
        return false; // over-full with a number
    }
    all_zero(&bytes[len..])
}

// A piece, with the collector's parts lent one by one; bytes that are not of the limit's number are not in order.
pub fn feed_parts(
    bytes: &mut [u8],
    len: &mut usize,
    over: &mut bool,
    piece: &[u8],
) -> Result<(), Refused>
    ensures { (result ≡ told 1024 (of_parts bytes.old len.old over.old))
        × (of_parts bytes.new len.new over.new ≡ fed 1024 (of_parts bytes.old len.old over.old) piece.now) }
{
    if !in_order(bytes, *len, *over) {
        return Err(Refused::NotInOrder);
    }
    if *over {
        return Ok(()); // as it was
    }
    if SIZE - *len < piece.len() {
        bytes.fill(0);
        *len = 0;
        *over = true; // from now on
        return Ok(());
    }
    let end = *len + piece.len();
    lexis::lay(&mut bytes[*len..end], piece);
    *len = end;
    Ok(())
}

// The end, with the collector's parts lent one by one.
pub fn end_parts(bytes: &mut [u8], len: &mut usize, over: &mut bool) -> Reading
    ensures { (result ≡ answered 8 1024 (of_parts bytes.old len.old over.old))
        × (of_parts bytes.new len.new over.new ≡ ended 1024 (of_parts bytes.old len.old over.old)) }
{
    if !in_order(bytes, *len, *over) {
        return refuse(Refusal::NotNormal, 0);
    }
    let r = read(bytes, *len, *over);
    bytes.fill(0);
    *len = 0;
    *over = false;
    r
}

// The end's answer, for a collector in order.
#[tactic(auto, unfolding(crate::specs::Collecting::held))]
fn read(bytes: &[u8], len: usize, over: bool) -> Reading
    requires { in_order 1024 (of_parts bytes.now len over) ≡ true }
    ensures { result ≡ answer 8 1024 (held (of_parts bytes.now len over)) }
{
    if over {
        return refuse(Refusal::TooLong, 0);
    }
    ordinary::parse(&bytes[..len])
}
