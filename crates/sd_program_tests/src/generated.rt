//! The generated workload of 7, by its size and some of its lines.

use crate::judging::is_so;
use sd_gen::generate;
use std::alloc::{AllocError, Global};

/// Indices of lines of the workload, and these lines.
const LINES: [(usize, &str); 20] = [
    (0, "cpus 8"),
    (1, "limit 10000"),
    (2, "set s 6 7"),
    (18, "mutex m15"),
    (22, "rwlock w3"),
    (23, "thread t0 ts 43 0 0"),
    (25, "thread t2 fx 60 17 def"),
    (32, "thread t9 sys 94"),
    (41, "thread t18 rt 7 def in s"),
    (223, "script t0"),
    (224, "run 83"),
    (225, "nap 6"),
    (227, "read w1"),
    (235, "enter m7"),
    (236, "enter m15"),
    (238, "exit m15"),
    (239, "exit m7"),
    (281, "write w2"),
    (3029, "nap 2"),
    (3030, "end"),
];

/// Whether that is the line of that index.
fn has_line(text: &[u8], index: usize, want: &[u8]) -> bool {
    text.split(|byte| *byte == b'\n').nth(index) == Some(want)
}

/// All of those lines stand there.
fn has_lines(text: &[u8]) -> bool {
    for row in &LINES {
        let (index, line) = *row;
        if !has_line(text, index, line.as_bytes()) {
            return false;
        }
    }
    true
}

fn is_generated(alloc: Global) -> Result<bool, AllocError> {
    let mut text = Vec::new(alloc);
    generate(alloc, 7, &mut text)?;
    Ok(text.len() == 26121 && has_lines(&text))
}

#[test]
fn the_workload_of_7(rt: HostRuntime) {
    is_so(&rt, is_generated(rt.alloc()));
}
