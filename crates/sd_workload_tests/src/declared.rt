//! What no clause says: that a line is taken where memory is left.

use crate::judging::is_so;
use crate::lines::statement;
use sd_declare::{Declared, Opened, Refusal, WorkCause, take_statement};
use std::alloc::Global;

// Takes a line.
fn take(alloc: Global, d: &mut Declared, line: &[u8]) -> Result<Opened, Refusal> {
    let statement = statement(alloc, line)?.ok_or(WorkCause::Syntax)?;
    take_statement(alloc, d, statement)
}

// The first of the lines that is not taken.
fn wrong_line(alloc: Global, d: &mut Declared, lines: &[&[u8]]) -> Option<usize> {
    for (index, line) in lines.iter().enumerate() {
        if take(alloc, d, *line).is_err() {
            return Some(index);
        }
    }
    None
}

fn has_all(d: &Declared) -> bool {
    let numbers = d.cpus == Some(3) && d.hz == Some(1000) && d.limit == Some(7);
    let names = d.sets.len() == 1 && d.locks.len() == 2 && d.chans.len() == 2;
    numbers && names && d.threads.len() == 1
}

const LINES: [&[u8]; 11] = [
    b"cpus 3",
    b"hz 1000",
    b"limit 7",
    b"set s 1 2",
    b"table ts",
    b"mutex m",
    b"rwlock w",
    b"chan k",
    b"sema p 1",
    b"thread a rt 5 inf in s",
    b"script a",
];

// All lines are taken, and then all is there.
fn are_taken(alloc: Global) -> bool {
    let mut d = Declared::new(alloc);
    let wrong = wrong_line(alloc, &mut d, &LINES);
    wrong.is_none() && has_all(&d)
}

#[test]
fn lines_are_taken(rt: HostRuntime) {
    is_so(&rt, Ok(are_taken(rt.alloc())));
}
