// Texts in fragments (02, C-13): one collector per link is lent to each piece and to the end, and altered by them.
#![tactic(auto)]

mod parts;

ghost use Rattle.std.specs.Prelude.{◌≡◌};
ghost use Rattle.collector.specs.Collecting.{number, fresh, told, fed, answered, ended};

use meaning::Reading;
pub use parts::{end_parts, feed_parts};

// A text has at most this many bytes.
pub const SIZE: usize = 1024;

// The bytes so far, their number, and whether they were too many.
// kept: no heap is used, and the parts are those of the block that C lends, also out of order (docs/ABI.md, "The block")
#[derive(Clone, Copy)]
pub struct Collector {
    pub bytes: [u8; SIZE],
    pub len: usize,
    pub over: bool,
}

// Why a piece is refused.
#[derive(Clone, Copy, Debug, PartialEq, Eq)]
pub enum Refused {
    NotInOrder = 6,
}

// The number of a piece's refusal; 0 for a piece that was taken.
pub fn number(fed: Result<(), Refused>) -> u8
    ensures { result ≡ number fed }
{
    match fed {
        Ok(()) => 0,
        Err(refused) => refused as u8,
    }
}

impl Collector {
    // A collector that holds nothing yet.
    #[tactic(auto, unfolding(crate::specs::Collecting::fresh))]
    pub fn fresh() -> Collector
        ensures { result ≡ fresh 1024 }
    {
        Collector {
            bytes: [0u8; SIZE],
            len: 0,
            over: false,
        }
    }

    // A piece, as many bytes as the link delivers: laid behind those so far, or refused with 6 and the collector unaltered.
    pub fn feed(&mut self, piece: &[u8]) -> Result<(), Refused>
        ensures { (result ≡ told 1024 self.old) × (self.new ≡ fed 1024 self.old piece.now) }
    {
        feed_parts(&mut self.bytes, &mut self.len, &mut self.over, piece)
    }

    // The end: what the ordinary reader answers on the joined bytes, and a fresh collector; or 6 and the collector unaltered.
    pub fn end(&mut self) -> Reading
        ensures { (result ≡ answered 8 1024 self.old) × (self.new ≡ ended 1024 self.old) }
    {
        end_parts(&mut self.bytes, &mut self.len, &mut self.over)
    }
}
