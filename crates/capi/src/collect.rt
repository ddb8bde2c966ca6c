// The collector's C face: the collector lies in a block of bytes that the caller lends (docs/ABI.md).
// kept: C lends one block of bytes, so that number and mark are read off it, and no struct holds them beside the bytes
ghost use Rattle.std.specs.Prelude.{◌+◌, ◌*◌, ◌≤◌, ◌++◌, ◌≡◌, length, take};
ghost use Rattle.numbers.specs.Numbers.{in_numbers};
ghost use Rattle.capi.specs.Block.{formed, Formed, LastRead, last_bytes, lent, feed_number, fed_block, read_block, ended_block};

use collector::{Refused, SIZE};
use meaning::{Reading, Refusal, refuse};
use numbers::{TypetextReading, in_numbers};

// Whether a block has the right size, and a mark that is one.
fn formed(block: &[u8]) -> bool
    ensures { result ≡ formed 1024 block.now }
{
    if block.len() != SIZE + 3 {
        return false;
    }
    block[SIZE + 2] <= 1
}

// A number in two bytes, high byte first.
fn two_bytes(high: u8, low: u8) -> usize
    ensures { result ≡ high * 256 + low }
{
    usize::from(u16::from_be_bytes([high, low]))
}

// What stands behind the bytes: their number, and the mark.
#[derive(Clone, Copy)]
struct LastBytes {
    len: usize,
    over: bool,
}

// Number and mark of a block that has the form.
fn read_last(block: &[u8]) -> Option<LastBytes>
    ensures { LastRead 1024 block.now result }
{
    if !formed(block) {
        return None;
    }
    Some(LastBytes {
        len: two_bytes(block[SIZE], block[SIZE + 1]),
        over: block[SIZE + 2] == 1,
    })
}

// Lays number and mark behind the bytes.
fn store(block: &mut [u8], len: usize, over: bool)
    requires { (length block.old ≡ 1027) × (len ≤ 1024) }
    ensures { block.new ≡ take 1024 block.old ++ last_bytes len over }
{
    let [high, low] = (len as u16).to_be_bytes();
    block[SIZE..].copy_from_slice(&[high, low, over as u8]);
}

// A piece, for a block that has the form.
fn feed_formed(block: &mut [u8], len: usize, over: bool, piece: &[u8]) -> u8
    requires { Formed 1024 block.old len over }
    ensures { (result ≡ feed_number (lent 1024 block.old))
        × (block.new ≡ fed_block 1024 block.old piece.now (lent 1024 block.old)) }
{
    let mut n = len;
    let mut o = over;
    match collector::feed_parts(&mut block[..SIZE], &mut n, &mut o, piece) {
        Ok(()) => {
            store(block, n, o);
            0
        }
        Err(Refused::NotInOrder) => Refused::NotInOrder as u8,
    }
}

// The end, for a block that has the form.
fn end_formed(block: &mut [u8], len: usize, over: bool) -> Reading
    requires { Formed 1024 block.old len over }
    ensures { (result ≡ read_block 8 1024 (lent 1024 block.old))
        × (block.new ≡ ended_block 1024 block.old (lent 1024 block.old)) }
{
    let mut n = len;
    let mut o = over;
    let r = collector::end_parts(&mut block[..SIZE], &mut n, &mut o);
    match r.refusal {
        Refusal::NotNormal => r,
        _ => {
            store(block, n, o);
            r
        }
    }
}

// A piece: 0, or 6 and the block as it was. Any block and any piece get an answer.
#[unsafe(no_mangle)]
pub extern "C" fn typetext_feed(block: &mut [u8], piece: &[u8]) -> u8
    ensures { (result ≡ feed_number (lent 1024 block.old))
        × (block.new ≡ fed_block 1024 block.old piece.now (lent 1024 block.old)) }
{
    let Some(last) = read_last(block) else {
        return Refused::NotInOrder as u8;
    };
    feed_formed(block, last.len, last.over, piece)
}

// The end: the ordinary reader's answer on the joined bytes, and a fresh block; or 6 and the block as it was.
#[unsafe(no_mangle)]
pub extern "C" fn typetext_end(block: &mut [u8]) -> TypetextReading
    ensures { (result ≡ in_numbers (read_block 8 1024 (lent 1024 block.old)))
        × (block.new ≡ ended_block 1024 block.old (lent 1024 block.old)) }
{
    let Some(last) = read_last(block) else {
        return in_numbers(refuse(Refusal::NotNormal, 0));
    };
    in_numbers(end_formed(block, last.len, last.over))
}
