// Counts a sheet of type texts, one a row, from standard input (02, C-11).
#![tactic(auto)]

mod help;
mod words;

use sheet::{Counted, Totals};
use std::env::Env;
use std::io::{self, Eprint, Input, Print};
use words::Asked;

// The seven lines, or the refusal alone.
fn report<R: Print>(rt: &R, t: Totals) -> io::Result<()> {
    match t.answer {
        Counted::TooLong => println!(rt; "refused-9"),
        Counted::Whole => lines(rt, t),
    }
}

fn lines<R: Print>(rt: &R, t: Totals) -> io::Result<()> {
    println!(rt; "rows {}", t.rows)?;
    println!(rt; "accepted {}", t.accepted)?;
    println!(rt; "refused-1 {}", t.refused_1)?;
    println!(rt; "refused-2 {}", t.refused_2)?;
    println!(rt; "refused-3 {}", t.refused_3)?;
    println!(rt; "refused-4 {}", t.refused_4)?;
    println!(rt; "defaults {} {} {} {}", t.a, t.b, t.c, t.d)
}

fn count<R: Eprint + Input + Print>(rt: &R) -> io::Result<()> {
    // One byte more than a sheet may have: what is longer fills it, and is refused.
    let mut room = [0u8; sheet::LIMIT + 1];
    match terminal::fill(&mut rt.reader(), &mut room) {
        Ok(n) => report(rt, sheet::totals(&room[..n])),
        // What can't be read to its end, such as a folder, has no totals.
        Err(_) => eprintln!(rt; "typesheet: standard input can't be read"),
    }
}

fn run<R: Env + Eprint + Input + Print>(rt: &R) -> io::Result<()> {
    match words::ask(rt) {
        Asked::Totals => count(rt),
        Asked::Help => help::help(rt),
        Asked::Unknown => help::usage(rt),
    }
}

// What can't be written, as on a full disk or where nobody reads on, is left out.
fn main(rt: HostRuntime) {
    let _ = run(&rt);
}
