//! Lists at each edge, judged by hand.

use crate::judging::judge;
use sd_script::{ScriptFault, check};
use sd_types::{ChanId, LockId, Op, Script};
use std::alloc::{AllocError, Global};

const ENTER: Op = Op::Enter(LockId(0));

const EXIT: Op = Op::Exit(LockId(0));

const WAIT: Op = Op::CvWait(ChanId(0), LockId(0));

const READ: Op = Op::Read(LockId(9));

const WRITE: Op = Op::Write(LockId(9));

const LEAVE: Op = Op::Exit(LockId(9));

/// Enters the locks 0 to 7.
const EIGHT: [Op; 8] = [
    Op::Enter(LockId(0)),
    Op::Read(LockId(1)),
    Op::Write(LockId(2)),
    Op::Enter(LockId(3)),
    Op::Read(LockId(4)),
    Op::Write(LockId(5)),
    Op::Enter(LockId(6)),
    Op::Read(LockId(7)),
];

/// `first`, then this many `yield`, then `last`.
fn list(alloc: Global, first: &[Op], yields: usize, last: &[Op]) -> Result<Vec<Op>, AllocError> {
    let mut ops = Vec::from_slice(alloc, first)?;
    for _ in 0..yields {
        ops.push(Op::Yield)?;
    }
    ops.extend_from_slice(last)?;
    Ok(ops)
}

/// The list is judged so: it is as long, or this is its fault.
fn is_judged(
    alloc: Global,
    first: &[Op],
    yields: usize,
    last: &[Op],
    want: Result<usize, ScriptFault>,
) -> Result<bool, AllocError> {
    let ops = list(alloc, first, yields, last)?;
    Ok(is_found(check(ops), want))
}

fn is_found(found: Result<Script, ScriptFault>, want: Result<usize, ScriptFault>) -> bool {
    match found {
        Ok(script) => want == Ok(script.ops().len()),
        Err(fault) => want == Err(fault),
    }
}

/// What stands before the yields, how many these are, what stands behind them, and how long the list is or what is wrong with it.
type Case = (
    &'static [Op],
    usize,
    &'static [Op],
    Result<usize, ScriptFault>,
);

/// The first list that is judged in another way.
fn wrong_list(alloc: Global, cases: &[Case]) -> Result<Option<usize>, AllocError> {
    for (index, case) in cases.iter().enumerate() {
        let (first, yields, last, want) = *case;
        if !is_judged(alloc, first, yields, last, want)? {
            return Ok(Some(index));
        }
    }
    Ok(None)
}

const SHORT: [Case; 24] = [
    (&[], 0, &[], Ok(0)),
    (&[Op::Run(1)], 0, &[], Ok(1)),
    (&[ENTER, EXIT], 0, &[], Ok(2)),
    (&[READ, LEAVE, WRITE, LEAVE], 0, &[], Ok(4)),
    // any order
    (&[ENTER, READ], 0, &[EXIT, LEAVE], Ok(4)),
    (&[ENTER, WAIT, ENTER, EXIT], 0, &[], Ok(4)),
    // a wait in the middle keeps the other locks
    (&[ENTER, READ, WAIT, ENTER], 0, &[LEAVE, EXIT], Ok(6)),
    (&[EXIT], 0, &[], Err(ScriptFault::Unbalanced { op: 0 })),
    (
        &[ENTER, LEAVE],
        0,
        &[EXIT],
        Err(ScriptFault::Unbalanced { op: 1 }),
    ),
    (
        &[ENTER, EXIT, EXIT],
        0,
        &[],
        Err(ScriptFault::Unbalanced { op: 2 }),
    ),
    (
        &[WAIT, ENTER, EXIT],
        0,
        &[],
        Err(ScriptFault::Unbalanced { op: 0 }),
    ),
    // unbalanced and unpaired
    (&[WAIT], 0, &[], Err(ScriptFault::Unbalanced { op: 0 })),
    (
        &[ENTER, WAIT, EXIT],
        0,
        &[],
        Err(ScriptFault::Unpaired { op: 1 }),
    ),
    (&[ENTER, WAIT], 0, &[], Err(ScriptFault::Unpaired { op: 1 })),
    (
        &[ENTER, WAIT],
        0,
        &[Op::Enter(LockId(1))],
        Err(ScriptFault::Unpaired { op: 1 }),
    ),
    (
        &[ENTER, WAIT, Op::Yield, ENTER],
        0,
        &[EXIT],
        Err(ScriptFault::Unpaired { op: 1 }),
    ),
    (&[ENTER], 0, &[], Err(ScriptFault::HeldAtExit)),
    (&[READ, ENTER, EXIT], 0, &[], Err(ScriptFault::HeldAtExit)),
    (&[ENTER, WAIT, ENTER], 0, &[], Err(ScriptFault::HeldAtExit)),
    (
        &[ENTER, ENTER],
        0,
        &[],
        Err(ScriptFault::AlreadyHeld { op: 1 }),
    ),
    (
        &[READ, WRITE],
        0,
        &[LEAVE],
        Err(ScriptFault::AlreadyHeld { op: 1 }),
    ),
    (
        &[WRITE, READ],
        0,
        &[LEAVE],
        Err(ScriptFault::AlreadyHeld { op: 1 }),
    ),
    // the first operation at fault
    (
        &[ENTER, EXIT, ENTER, ENTER],
        0,
        &[LEAVE],
        Err(ScriptFault::AlreadyHeld { op: 3 }),
    ),
    (
        &[ENTER, LEAVE],
        0,
        &[ENTER],
        Err(ScriptFault::Unbalanced { op: 1 }),
    ),
];

#[test]
fn short_lists(rt: HostRuntime) {
    judge(&rt, wrong_list(rt.alloc(), &SHORT));
}

const EIGHT_EXITS: [Op; 8] = [
    Op::Exit(LockId(0)),
    Op::Exit(LockId(1)),
    Op::Exit(LockId(2)),
    Op::Exit(LockId(3)),
    Op::Exit(LockId(4)),
    Op::Exit(LockId(5)),
    Op::Exit(LockId(6)),
    Op::Exit(LockId(7)),
];

const MANY_LOCKS: [Case; 7] = [
    (&EIGHT, 0, &[], Err(ScriptFault::HeldAtExit)),
    (&EIGHT, 0, &[WRITE], Err(ScriptFault::TooManyHeld { op: 8 })),
    // a ninth lock that is held already
    (&EIGHT, 0, &[ENTER], Err(ScriptFault::TooManyHeld { op: 8 })),
    // eight are held during a wait, and then again
    (
        &EIGHT,
        0,
        &[WAIT, ENTER, READ],
        Err(ScriptFault::TooManyHeld { op: 10 }),
    ),
    (
        &EIGHT,
        0,
        &[EXIT, READ, LEAVE, EXIT],
        Err(ScriptFault::Unbalanced { op: 11 }),
    ),
    (
        &EIGHT,
        0,
        &[EXIT, READ, WRITE],
        Err(ScriptFault::TooManyHeld { op: 10 }),
    ),
    (&EIGHT, 0, &EIGHT_EXITS, Ok(16)),
];

#[test]
fn eight_and_nine_locks(rt: HostRuntime) {
    judge(&rt, wrong_list(rt.alloc(), &MANY_LOCKS));
}

const LONG: [Case; 12] = [
    (&[], 256, &[], Ok(256)),
    (&[], 257, &[], Err(ScriptFault::TooLong)),
    (&[ENTER], 254, &[EXIT], Ok(256)),
    (&[], 255, &[ENTER], Err(ScriptFault::HeldAtExit)),
    // a fault of the 257th operation
    (&[], 256, &[EXIT], Err(ScriptFault::TooLong)),
    // what is held at the end of a list that is too long
    (&[ENTER], 256, &[], Err(ScriptFault::TooLong)),
    // a fault of one of the first 256
    (
        &[],
        255,
        &[EXIT, Op::Yield],
        Err(ScriptFault::Unbalanced { op: 255 }),
    ),
    (&[EXIT], 300, &[], Err(ScriptFault::Unbalanced { op: 0 })),
    // a wait at the border
    (
        &[ENTER],
        254,
        &[WAIT, ENTER, EXIT],
        Err(ScriptFault::TooLong),
    ),
    (
        &[ENTER],
        254,
        &[WAIT, EXIT],
        Err(ScriptFault::Unpaired { op: 255 }),
    ),
    (
        &[ENTER],
        254,
        &[WAIT],
        Err(ScriptFault::Unpaired { op: 255 }),
    ),
    (
        &[],
        255,
        &[WAIT, ENTER],
        Err(ScriptFault::Unbalanced { op: 255 }),
    ),
];

#[test]
fn long_lists(rt: HostRuntime) {
    judge(&rt, wrong_list(rt.alloc(), &LONG));
}

/// The number of a fault, and its text.
fn is_kind(alloc: Global, kind: ScriptFault, number: u8, text: &str) -> Result<bool, AllocError> {
    Ok(format!(in alloc; "{kind}")?.as_str() == text && kind.number() == number)
}

const KINDS: [(ScriptFault, u8, &str); 6] = [
    (ScriptFault::Unbalanced { op: 9 }, 1, "unbalanced"),
    (ScriptFault::TooManyHeld { op: 9 }, 3, "too many held"),
    (ScriptFault::HeldAtExit, 4, "held at exit"),
    (ScriptFault::TooLong, 5, "too long"),
    (ScriptFault::AlreadyHeld { op: 9 }, 6, "already held"),
    (ScriptFault::Unpaired { op: 9 }, 7, "unpaired"),
];

/// The first fault that has another number or text.
fn wrong_kind(alloc: Global) -> Result<Option<usize>, AllocError> {
    for (index, row) in KINDS.iter().enumerate() {
        let (kind, number, text) = *row;
        if !is_kind(alloc, kind, number, text)? {
            return Ok(Some(index));
        }
    }
    Ok(None)
}

#[test]
fn numbers(rt: HostRuntime) {
    judge(&rt, wrong_kind(rt.alloc()));
}
