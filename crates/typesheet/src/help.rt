// What is printed for --help, and for words that aren't known.
use std::io::{self, Print};

const SYNOPSIS: &str =
    "  typesheet <SHEET   counts a sheet of type texts, one a row, from standard input
  typesheet --help   all of the help; also -h
";

const SHEETS: &str =
    "A row ends with a line feed; a last row without one counts if it has a byte. The ordinary reader
reads every row, an empty one too. Printed are seven lines:

  rows N            rows of the sheet, the sum of the next five
  accepted N        rows that are read as a type
  refused-1 N       rows of over 1,024 bytes
  refused-2 N       of the others, rows with a byte of 128 or more
  refused-3 N       of the others, rows in which the reader finds no type
  refused-4 N       of the others, rows whose type has a list of over 8 entries
  defaults A B C D  how many defaults the accepted rows took in all:
    A               shape and stride entries that are neither ? nor readable
    B               tile-shape entries that are unreadable
    C               dimension-map, traversal and sparse entries that are unreadable
    D               whole clauses filled in

For a sheet of over 65,536 bytes one line is printed: refused-9.
";

pub fn help<R: Print>(rt: &R) -> io::Result<()> {
    println!(rt; "typesheet: counts sheets of type texts of GPU tile kernels\n")?;
    print!(rt; "{SYNOPSIS}\n{SHEETS}")
}

pub fn usage<R: Print>(rt: &R) -> io::Result<()> {
    println!(rt;
        "usage error: the sheet is read from standard input, and no word but --help is known\n"
    )?;
    print!(rt; "{SYNOPSIS}")
}
