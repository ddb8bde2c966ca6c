// The readers and the writer at a terminal. The first word that is printed decides: accepted, refused or usage.
#![tactic(auto)]

mod counts;
mod help;
mod refusal;
mod text;
mod types;
mod words;

use meaning::{Reading, Refusal};
use std::env::Env;
use std::io::{self, Input, Print, Write};
use words::{Asked, Task};

// The type and the counts, or the refusal.
fn report<R: Print>(rt: &R, text: &[u8], r: Reading) -> io::Result<()> {
    match r.refusal {
        Refusal::Accepted => {
            println!(rt; "accepted")?;
            types::fields(rt, &r.value)?;
            counts::counts(rt, r.note)
        }
        refusal => refusal::refuse(rt, refusal, r.place, text),
    }
}

// The written text and the counts, or the refusal, of the reader or of the writer.
fn write<R: Print>(rt: &R, text: &[u8], r: Reading) -> io::Result<()> {
    let mut room = [0u8; 1024];
    if let Refusal::Accepted = r.refusal {
        let w = writer::write(r.value, &mut room);
        let n = w.len.min(room.len());
        return written(rt, w.refusal, &room[..n], r);
    }
    refusal::refuse(rt, r.refusal, r.place, text)
}

fn written<R: Print>(rt: &R, refusal: Refusal, text: &[u8], r: Reading) -> io::Result<()> {
    match refusal {
        Refusal::Accepted => {
            println!(rt; "accepted")?;
            io::writer(rt).write_all(text)?;
            println!(rt)?;
            counts::counts(rt, r.note)
        }
        // Only a reader's refusal has a place.
        refusal => refusal::refuse(rt, refusal, 0, text),
    }
}

fn answer<R: Print>(rt: &R, task: Task, text: &[u8]) -> io::Result<()> {
    match task {
        Task::Read => report(rt, text, ordinary::parse(text)),
        Task::Strict => report(rt, text, strict::parse_strict(text)),
        Task::Write => write(rt, text, strict::parse_strict(text)),
        Task::WriteLoose => write(rt, text, ordinary::parse(text)),
    }
}

fn run<R: Env + Input + Print>(rt: &R) -> io::Result<()> {
    let mut room = [0u8; 2048];
    match words::understand(rt) {
        Ok(Asked::Help) => help::help(rt),
        Ok(Asked::Do(task, at)) => answer(rt, task, text::given(rt, at, &mut room)),
        Err(why) => help::usage(rt, why),
    }
}

// What can't be written, as on a full disk or where nobody reads on, is left out: the exit status is 0, as the help says.
fn main(rt: HostRuntime) {
    let _ = run(&rt);
}
