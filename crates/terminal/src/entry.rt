// The entries of a type's list.
ghost use Rattle.std.specs.Prelude.{Some};
ghost use Rattle.terminal.specs.Entries.{entry_text, entries_text};

use meaning::DYNAMIC;
use std::fmt::{self, Display, Formatter};

// A list's entry as text: DYNAMIC is `?`.
#[derive(Clone, Copy)]
pub struct Entry(pub i64);

impl Display for Entry {
    ghost output = { λ e. Some (entry_text e.0) };

    fn fmt<W: fmt::Write>(&self, f: &mut Formatter<W>) -> fmt::Result {
        let Entry(z) = *self;
        if z == DYNAMIC {
            return write!(f, "?");
        }
        write!(f, "{z}")
    }
}

// A list's entries as text, and what stands between two of them.
#[derive(Clone, Copy)]
pub struct Entries<'a> {
    pub values: &'a [i64],
    pub between: &'a str,
}

impl Display for Entries<'_> {
    ghost output = { λ l. Some (entries_text l.between.now l.values.now) };

    fn fmt<W: fmt::Write>(&self, f: &mut Formatter<W>) -> fmt::Result {
        let between = self.between;
        if let Some((first, rest)) = self.values.split_first() {
            write!(f, "{}", Entry(*first))?;
            for z in rest {
                write!(f, "{between}{}", Entry(*z))?;
            }
        }
        Ok(())
    }
}
