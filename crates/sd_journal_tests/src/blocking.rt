//! Cycles of states that were drawn by hand.

use crate::given::{in_place, judge_cases, state};
use sd_accounts::cycles;
use sd_state::{LockState, Place, State, ThreadState};
use sd_types::{LockId, Side, ThreadId};
use std::alloc::{AllocError, Global};

/// A thread that waits for this lock, or has ended.
fn thread_of(wait: Option<u16>) -> ThreadState {
    match wait {
        Some(l) => in_place(Place::Waiting(LockId(l), Side::Writer, 0)),
        None => in_place(Place::Ended),
    }
}

/// Puts threads in that wait for these locks or have ended.
fn put_threads(waits: &[Option<u16>], threads: &mut Vec<ThreadState>) -> Result<(), AllocError> {
    for wait in waits {
        threads.push(thread_of(*wait))?;
    }
    Ok(())
}

/// A lock that has this owner, or is held by a reader.
fn lock_of(owner: Option<u16>) -> LockState {
    match owner {
        Some(t) => LockState::Owned(ThreadId(t)),
        None => LockState::ReadHeld(1),
    }
}

/// Puts locks in that have these owners or are held by a reader.
fn put_locks(owners: &[Option<u16>], locks: &mut Vec<LockState>) -> Result<(), AllocError> {
    for owner in owners {
        locks.push(lock_of(*owner))?;
    }
    Ok(())
}

fn threads_of(alloc: Global, waits: &[Option<u16>]) -> Result<Vec<ThreadState>, AllocError> {
    let mut threads = Vec::new(alloc);
    put_threads(waits, &mut threads)?;
    Ok(threads)
}

fn locks_of(alloc: Global, owners: &[Option<u16>]) -> Result<Vec<LockState>, AllocError> {
    let mut locks = Vec::new(alloc);
    put_locks(owners, &mut locks)?;
    Ok(locks)
}

/// A state of these threads and locks.
fn blocked(
    alloc: Global,
    waits: &[Option<u16>],
    owners: &[Option<u16>],
) -> Result<State, AllocError> {
    let threads = threads_of(alloc, waits)?;
    let locks = locks_of(alloc, owners)?;
    Ok(state(alloc, threads, locks, Vec::new(alloc)))
}

/// The cycles found are these.
fn are_cycles(found: &[Vec<usize>], want: &[&[usize]]) -> bool {
    if found.len() != want.len() {
        return false;
    }
    for i in 0..want.len() {
        if found[i].as_slice() != want[i] {
            return false;
        }
    }
    true
}

/// The lock for which each thread waits, the owner of each lock, and the cycles.
#[derive(Clone, Copy)]
struct Case {
    waits: &'static [Option<u16>],
    owners: &'static [Option<u16>],
    cycles: &'static [&'static [usize]],
}

const CASES: [Case; 6] = [
    Case {
        waits: &[],
        owners: &[],
        cycles: &[],
    },
    // a chain that ends at a thread that does not wait, and one that ends at readers
    Case {
        waits: &[Some(0), Some(1), None, Some(2)],
        owners: &[Some(1), Some(2), None],
        cycles: &[],
    },
    Case {
        waits: &[Some(0), Some(1)],
        owners: &[Some(1), Some(0)],
        cycles: &[&[0, 1]],
    },
    // not in the order of the numbers
    Case {
        waits: &[Some(0), Some(2), Some(1)],
        owners: &[Some(2), Some(1), Some(0)],
        cycles: &[&[0, 2, 1]],
    },
    // two cycles, and a thread behind the first
    Case {
        waits: &[None, Some(1), Some(0), Some(2), Some(1), Some(3)],
        owners: &[Some(1), Some(2), Some(5), Some(3)],
        cycles: &[&[1, 2], &[3, 5]],
    },
    // a thread before all others of the chain on which it waits
    Case {
        waits: &[Some(0), Some(1), Some(2)],
        owners: &[Some(1), Some(2), Some(1)],
        cycles: &[&[1, 2]],
    },
];

/// These cycles are found in the state.
fn has_cycles(alloc: Global, s: &State, want: &[&[usize]]) -> Result<bool, AllocError> {
    let found = cycles(alloc, s)?;
    Ok(are_cycles(&found, want))
}

/// Those cycles are found in that state.
fn is_found(alloc: Global, case: &Case) -> Result<bool, AllocError> {
    let s = blocked(alloc, case.waits, case.owners)?;
    has_cycles(alloc, &s, case.cycles)
}

/// The first case whose cycles are others.
fn wrong_case(alloc: Global) -> Result<Option<usize>, AllocError> {
    for (index, case) in CASES.iter().enumerate() {
        if !is_found(alloc, case)? {
            return Ok(Some(index));
        }
    }
    Ok(None)
}

#[test]
fn cycles_and_chains(rt: HostRuntime) {
    judge_cases(&rt, wrong_case(rt.alloc()));
}
