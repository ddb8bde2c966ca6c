// Reads the recorded list (data/list1.txt and on), runs the ordinary reader on each of its texts, and compares what it answers with the recorded answer.
// Each type that was read is then written, and its text read again.
#![tactic(auto)]

mod back;
mod render;
mod row;

use back::Back;
use row::Tried;
use sheet::Walker;
use std::fs;
use std::io::{self, Print};
use std::rt::Files;

// How many rows were read, and how many of them differ; how many types have a text and how many have none, and how many
// were not returned by reading it.
#[derive(Clone, Copy, Default)]
struct Totals {
    rows: u64,
    differ: u64,
    written: u64,
    no_text: u64,
    lost: u64,
}

// One more, where it counts; a file has no 2^64 rows.
fn more(n: u64, counts: bool) -> u64 {
    n.saturating_add(u64::from(counts))
}

fn counted(t: Totals, tried: Tried) -> Totals {
    let back = tried.back;
    Totals {
        rows: more(t.rows, true),
        differ: more(t.differ, !tried.same),
        written: more(
            t.written,
            matches!(back, Some(Back::Returned | Back::Changed)),
        ),
        no_text: more(t.no_text, matches!(back, Some(Back::NoText))),
        lost: more(
            t.lost,
            matches!(back, Some(Back::Changed | Back::NotWritten)),
        ),
    }
}

// A row is a line that is no comment: text, tab, answer. The room for a part is no longer than a sheet.
fn replay<R: Print>(rt: &R, list: &[u8], before: Totals) -> io::Result<Totals> {
    let mut totals = before;
    let lines = Walker::new(list);
    for line in lines {
        match lines.row(line) {
            [] | [b'#', ..] => {}
            row => totals = counted(totals, row::try_row(rt, row)?),
        }
    }
    Ok(totals)
}

// The file's first bytes; none where it can't be opened.
fn load<'r, R: Files>(rt: &R, name: &str, room: &'r mut [u8]) -> &'r [u8] {
    let Ok(mut file) = fs::open(rt, name) else {
        return &[];
    };
    match terminal::fill(&mut file, room) {
        Ok(n) => &room[..n],
        Err(n) => &room[..n],
    }
}

// One part of the list; a part that can't be opened has no rows.
fn part<R: Files + Print>(rt: &R, name: &str, before: Totals) -> io::Result<Totals> {
    let mut room = [0u8; sheet::LIMIT];
    replay(rt, load(rt, name, &mut room), before)
}

fn run<R: Files + Print>(rt: &R) -> io::Result<()> {
    let mut t = Totals::default();
    for name in [
        "list1.txt",
        "list2.txt",
        "list3.txt",
        "list4.txt",
        "list5.txt",
        "list6.txt",
        "list7.txt",
        "list8.txt",
        "list9.txt",
    ] {
        t = part(rt, name, t)?;
    }
    println!(rt; "rows {}", t.rows)?;
    println!(rt; "different {}", t.differ)?;
    println!(rt; "written {}", t.written)?;
    println!(rt; "without text {}", t.no_text)?;
    println!(rt; "not returned {}", t.lost)
}

// What can't be written, as on a full disk or where nobody reads on, is left out.
fn main(rt: HostRuntime) {
    let _ = run(&rt);
}
