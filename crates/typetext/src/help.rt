// What is printed for --help, and for words that aren't understood.
use super::refusal::meaning;
use super::text::Plain;
use super::words::Usage;
use meaning::Refusal;
use std::env::{Env, FillError};
use std::io::{self, Print};

const SYNOPSIS: &str =
    "  typetext read TEXT           the ordinary reader: the type field by field, and the defaults it took
  typetext strict TEXT         the strict reader: the same, or a refusal where the text isn't strict
  typetext write TEXT          reads strictly, and prints the type's written text
  typetext write --loose TEXT  the same with the ordinary reader
  typetext --help              all of the help; also -h, help, and no words at all
";

const WORDS: &str =
    "Put TEXT in single quotes. Where it is left out, it is all of standard input without a final newline.
In a list, ? is a size that is known only when the kernel runs.

A Rattle program has no exit status (it is always 0): the first word of the output decides.
  accepted  what was asked follows
  refused   the refusal's number and meaning follow
  usage     the command was not understood

Refusals (6 and 8 are of the library, and not met here):
";

pub fn help<R: Print>(rt: &R) -> io::Result<()> {
    println!(rt; "typetext: reads type texts of GPU tile kernels, and writes them\n")?;
    print!(rt; "{SYNOPSIS}\n{WORDS}")?;
    for refusal in [
        Refusal::TooLong,
        Refusal::HighByte,
        Refusal::NoType,
        Refusal::TooMany,
        Refusal::NotStrict,
        Refusal::NotNormal,
        Refusal::NoText,
        Refusal::RoomShort,
    ] {
        println!(rt; "  {}", meaning(refusal))?;
    }
    Ok(())
}

// The first bytes of argument `i`.
fn quote<R: Env + Print>(rt: &R, i: usize) -> io::Result<()> {
    let mut room = [0u8; 64];
    match rt.arg(i, &mut room) {
        Ok(n) => print!(rt; "{}", Plain(&room[..n])),
        // It leaves the first bytes.
        Err(FillError::TooLong) => print!(rt; "{}...", Plain(&room)),
        Err(FillError::NotPresent) => Ok(()),
    }
}

fn unknown<R: Env + Print>(rt: &R, what: &str, i: usize) -> io::Result<()> {
    print!(rt; "usage error: the {what} '")?;
    quote(rt, i)?;
    println!(rt; "' is not known here\n")
}

pub fn usage<R: Env + Print>(rt: &R, why: Usage) -> io::Result<()> {
    match why {
        Usage::UnknownCommand => unknown(rt, "command", 1)?,
        Usage::UnknownOption(i) => unknown(rt, "option", i)?,
        Usage::TooMany => {
            println!(rt; "usage error: too many words; a text with blanks or < stands in quotes\n")?
        }
    }
    print!(rt; "{SYNOPSIS}")
}
