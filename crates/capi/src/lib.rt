// The C face: numbers and byte slices in and out, nothing decided here (docs/ABI.md). Here the readers; the writer in `write`, the collector
// in `collect`, sheets in `count`.
#![tactic(auto)]

mod collect;
mod count;
mod write;

ghost use Rattle.std.specs.Prelude.{◌≡◌};
ghost use Rattle.meaning.specs.Ordinary.{ordinary};
ghost use Rattle.numbers.specs.Numbers.{in_numbers};
ghost use Rattle.capi.specs.Abi.{StrictNumbers};

pub use collect::{typetext_end, typetext_feed};
pub use count::{TypetextRow, TypetextTotals, typetext_next_row, typetext_totals};
use numbers::in_numbers;
pub use numbers::{TypetextNote, TypetextReading, TypetextRecord};
pub use write::{TypetextWritten, typetext_write};

// The ordinary reader: what `Type::parse` returns, or a refusal, with the default counts. Any bytes get an answer.
#[unsafe(no_mangle)]
pub extern "C" fn typetext_parse(text: &[u8]) -> TypetextReading
    ensures { result ≡ in_numbers (ordinary 8 1024 text.now) }
{
    in_numbers(ordinary::parse(text))
}

// The strict reader: the type of a strict form, or a refusal. Any bytes get an answer.
#[unsafe(no_mangle)]
pub extern "C" fn typetext_parse_strict(text: &[u8]) -> TypetextReading
    ensures { StrictNumbers text.now result }
{
    in_numbers(strict::parse_strict(text))
}
