// How often a reading took a default, in words (01, "Default counts").
use meaning::Note;
use std::io::{self, Print};

// A count that isn't 0: `2`, then what there were two of.
fn count<R: Print>(rt: &R, n: usize, one: &str, many: &str) -> io::Result<()> {
    match n {
        0 => Ok(()),
        1 => println!(rt; "  1 {one}"),
        _ => println!(rt; "  {n} {many}"),
    }
}

pub fn counts<R: Print>(rt: &R, n: Note) -> io::Result<()> {
    if n == Note::default() {
        return println!(rt; "no default was taken");
    }
    let Note { a, b, c, d } = n;
    println!(rt; "defaults were taken (a, b, c, d: {a}, {b}, {c}, {d})")?;
    count(
        rt,
        a,
        "shape or stride entry was neither ? nor readable: taken as ?",
        "shape or stride entries were neither ? nor readable: taken as ?",
    )?;
    count(
        rt,
        b,
        "tile-shape entry was unreadable: taken as 1",
        "tile-shape entries were unreadable: taken as 1",
    )?;
    count(
        rt,
        c,
        "dimension-map, traversal or sparse entry was unreadable: taken as 0",
        "dimension-map, traversal or sparse entries were unreadable: taken as 0",
    )?;
    count(
        rt,
        d,
        "clause was absent or never closed: filled in",
        "clauses were absent or never closed: filled in",
    )
}
