//! Each read and each write failing in turn, in a run, an audit and a story of the smallest run.

use crate::judging::{is_so, judge};
use crate::runs::{CERTIFICATE, SMALLEST, SMALLEST_JOURNAL};
use crate::streams::{Given, Program, Wanted, answers, line_count};
use std::alloc::AllocError;
use std::marker::Sync;
use std::sync::Wait;
use std::thread::Threads;

const STORY: &str =
    "tick    entry                         what happens\n0       0 c0 dispatch a 29            processor 0 dispatches a at priority 29\n0       1 c0 tick a                   a runs for a tick\n1       2 c0 tick a                   a runs for a tick\n2       3 c0 tick a                   a runs for a tick\n3       4 c0 done a                   a comes to the end of its script\n3       5 c0 idle                     processor 0 has nothing to run\n4       6 c0 idle                     processor 0 has nothing to run\n";

/// A form of a program, its input, and what it writes where nothing fails.
#[derive(Clone, Copy)]
struct Form {
    program: Program,
    words: &'static str,
    input: &'static str,
    output: &'static str,
}

const RUN: Form = Form {
    program: Program::Dispsim,
    words: "run",
    input: SMALLEST,
    output: SMALLEST_JOURNAL,
};

const AUDIT: Form = Form {
    program: Program::Dispsim,
    words: "audit",
    input: CERTIFICATE,
    output: "legal 7\n",
};

const LIST: Form = Form {
    program: Program::Dispview,
    words: "list",
    input: CERTIFICATE,
    output: STORY,
};

/// The form answers as it is to where the reads and writes of these numbers fail, over an output with this room.
fn answers_so<R: Threads + Wait + Sync + AllocGlobal>(
    rt: &R,
    form: Form,
    reads: &[u64],
    room: usize,
    writes: &[u64],
    wanted: Wanted<'_>,
) -> Result<bool, AllocError> {
    let given = Given {
        input: form.input.as_bytes(),
        chunk: 1,
        reads,
        room,
        writes,
        err_room: 200,
    };
    answers(rt, form.program, form.words, given, wanted)
}

const READ_FAULT: Wanted<'static> = Wanted::All {
    status: 3,
    out: b"",
    err: b"read fault\n",
};

/// What fails of a form, or is too small for it, each time another one.
#[derive(Clone, Copy)]
enum Tried {
    /// A read. There is one for each byte, and one that finds the end.
    Reads,
    /// A write. There is one for each line.
    Writes,
    /// The room of the output, for as many bytes as its number.
    Rooms,
    /// The first read and the first write that do not come: with room for the output, one byte a read and one line a write.
    Neither,
}

/// How often something fails.
fn count_of(form: Form, tried: Tried) -> usize {
    match tried {
        Tried::Reads => form.input.len().saturating_add(1),
        Tried::Writes => line_count(form.output.as_bytes()),
        Tried::Rooms => form.output.len(),
        Tried::Neither => 1,
    }
}

fn is_read_fault<R: Threads + Wait + Sync + AllocGlobal>(
    rt: &R,
    form: Form,
    number: u64,
) -> Result<bool, AllocError> {
    answers_so(rt, form, &[number], 4096, &[], READ_FAULT)
}

fn is_write_fault<R: Threads + Wait + Sync + AllocGlobal>(
    rt: &R,
    form: Form,
    number: u64,
    count: usize,
) -> Result<bool, AllocError> {
    let output = form.output.as_bytes();
    answers_so(
        rt,
        form,
        &[],
        4096,
        &[number],
        Wanted::Lines { output, count },
    )
}

fn is_too_small<R: Threads + Wait + Sync + AllocGlobal>(
    rt: &R,
    form: Form,
    room: usize,
) -> Result<bool, AllocError> {
    let wanted = Wanted::Front {
        output: form.output.as_bytes(),
        count: room,
    };
    answers_so(rt, form, &[], room, &[], wanted)
}

fn is_not_called<R: Threads + Wait + Sync + AllocGlobal>(
    rt: &R,
    form: Form,
) -> Result<bool, AllocError> {
    let read = (form.input.len() as u64).saturating_add(2);
    let write = (line_count(form.output.as_bytes()) as u64).saturating_add(1);
    let whole = Wanted::All {
        status: 0,
        out: form.output.as_bytes(),
        err: b"",
    };
    answers_so(rt, form, &[read], form.output.len(), &[write], whole)
}

/// What fails with this number, from 0, is answered as it should.
fn is_answered<R: Threads + Wait + Sync + AllocGlobal>(
    rt: &R,
    form: Form,
    tried: Tried,
    index: usize,
) -> Result<bool, AllocError> {
    let number = (index as u64).saturating_add(1);
    match tried {
        Tried::Reads => is_read_fault(rt, form, number),
        Tried::Writes => is_write_fault(rt, form, number, index),
        Tried::Rooms => is_too_small(rt, form, index),
        Tried::Neither => is_not_called(rt, form),
    }
}

/// All that fails of the form is answered as it should.
fn are_answered<R: Threads + Wait + Sync + AllocGlobal>(
    rt: &R,
    form: Form,
    tried: Tried,
) -> Result<bool, AllocError> {
    for index in 0..count_of(form, tried) {
        if !is_answered(rt, form, tried, index)? {
            return Ok(false);
        }
    }
    Ok(true)
}

const FORMS: [Form; 3] = [RUN, AUDIT, LIST];

/// The first form of which something is not answered as it should.
fn wrong_form<R: Threads + Wait + Sync + AllocGlobal>(
    rt: &R,
    tried: Tried,
) -> Result<Option<usize>, AllocError> {
    for (index, form) in FORMS.iter().enumerate() {
        if !are_answered(rt, *form, tried)? {
            return Ok(Some(index));
        }
    }
    Ok(None)
}

#[test]
fn each_read_fails(rt: HostRuntime) {
    judge(&rt, wrong_form(&rt, Tried::Reads));
}

#[test]
fn each_write_fails(rt: HostRuntime) {
    judge(&rt, wrong_form(&rt, Tried::Writes));
}

#[test]
fn each_room_is_too_small(rt: HostRuntime) {
    judge(&rt, wrong_form(&rt, Tried::Rooms));
}

#[test]
fn reads_and_writes_are_counted(rt: HostRuntime) {
    judge(&rt, wrong_form(&rt, Tried::Neither));
}

/// The error output has room for three bytes of its line.
fn is_cut<R: Threads + Wait + Sync + AllocGlobal>(rt: &R) -> Result<bool, AllocError> {
    let given = Given {
        input: b"",
        chunk: 4,
        reads: &[],
        room: 16,
        writes: &[],
        err_room: 3,
    };
    let wanted = Wanted::All {
        status: 2,
        out: b"",
        err: b"ref",
    };
    answers(rt, Program::Dispsim, "run", given, wanted)
}

#[test]
fn a_small_error_output(rt: HostRuntime) {
    is_so(&rt, is_cut(&rt));
}

/// Without the read behind the last byte the end of the input is not seen.
fn is_end_unseen<R: Threads + Wait + Sync + AllocGlobal>(rt: &R) -> Result<bool, AllocError> {
    let given = Given {
        input: b"limit 2\n",
        chunk: 1,
        reads: &[9],
        room: 4096,
        writes: &[],
        err_room: 200,
    };
    answers(rt, Program::Dispsim, "run", given, READ_FAULT)
}

#[test]
fn a_read_behind_the_last_byte_fails(rt: HostRuntime) {
    is_so(&rt, is_end_unseen(&rt));
}
