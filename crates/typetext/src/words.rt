// The words of the command line.
use std::env::{Env, FillError};

#[derive(Clone, Copy)]
pub enum Task {
    Read,
    Strict,
    Write,
    WriteLoose,
}

// What is asked for: the help, or a task with the text at a place among the words, or with standard input.
#[derive(Clone, Copy)]
pub enum Asked {
    Help,
    Do(Task, Option<usize>),
}

// Why the words aren't understood; an unknown option stands at a place among them.
#[derive(Clone, Copy)]
pub enum Usage {
    UnknownCommand,
    UnknownOption(usize),
    TooMany,
}

// How many words there are, the program's name among them.
// kept: `env::args` takes memory from the heap
fn arg_count<R: Env>(rt: &R) -> usize {
    let mut room = [0u8; 1];
    for i in 0..usize::MAX {
        if let Err(FillError::NotPresent) = rt.arg(i, &mut room) {
            return i;
        }
    }
    usize::MAX
}

// Whether argument `i` is this word.
fn is<R: Env>(rt: &R, i: usize, word: &str) -> bool {
    let mut room = [0u8; 16];
    match rt.arg(i, &mut room) {
        Ok(n) => &room[..n] == word.as_bytes(),
        Err(_) => false,
    }
}

// No type text begins with `-`.
fn is_option<R: Env>(rt: &R, i: usize) -> bool {
    let mut room = [0u8; 1];
    match rt.arg(i, &mut room) {
        Err(FillError::NotPresent) => false,
        _ => room == *b"-",
    }
}

// The task, with its text at argument `at` as the last of `count` words.
fn with_text<R: Env>(rt: &R, task: Task, at: usize, count: usize) -> Result<Asked, Usage> {
    if count <= at {
        return Ok(Asked::Do(task, None));
    }
    if is(rt, at, "--help") || is(rt, at, "-h") {
        return Ok(Asked::Help);
    }
    if is_option(rt, at) {
        return Err(Usage::UnknownOption(at));
    }
    if 1 < count - at {
        return Err(Usage::TooMany);
    }
    Ok(Asked::Do(task, Some(at)))
}

// `--loose` stands before the text, or behind it as the last word.
fn asks_write<R: Env>(rt: &R, count: usize) -> Result<Asked, Usage> {
    if is(rt, 2, "--loose") {
        return with_text(rt, Task::WriteLoose, 3, count);
    }
    if count == 4 && is(rt, 3, "--loose") {
        return with_text(rt, Task::WriteLoose, 2, 3);
    }
    with_text(rt, Task::Write, 2, count)
}

pub fn understand<R: Env>(rt: &R) -> Result<Asked, Usage> {
    let mut room = [0u8; 16];
    let count = arg_count(rt);
    match rt.arg(1, &mut room) {
        Err(FillError::NotPresent) => Ok(Asked::Help),
        Err(FillError::TooLong) => Err(Usage::UnknownCommand),
        Ok(n) => match &room[..n] {
            b"--help" | b"-h" | b"help" => Ok(Asked::Help),
            b"read" => with_text(rt, Task::Read, 2, count),
            b"strict" => with_text(rt, Task::Strict, 2, count),
            b"write" => asks_write(rt, count),
            _ => Err(Usage::UnknownCommand),
        },
    }
}
