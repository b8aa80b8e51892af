//! The search for cycles: from each thread along the chain of owners.

ghost use Rattle.std.specs.Prelude.{◌≡◌, ◌++◌, length, map, option_map, IfOk, OnOk};
ghost use Rattle.sd_machine.specs.Cycles.{ahead, lap, none_or_one};
ghost use Rattle.sd_machine.specs.LockGraph.{cycles_of, graph, owner_of, wait_of};
ghost use Rattle.sd_machine.specs.Threads.{lock_of};
ghost use Rattle.sd_state.specs.States.{thread_of};

use sd_state::{LockState, Place, State, ThreadState};
use sd_types::LockId;
use std::alloc::{AllocError, Global};

// The lock for which a thread waits.
fn lock_waited(x: &ThreadState) -> Option<LockId>
    ensures { option_map (λ l. l.0) result ≡ option_map (λ w. w.lock) (wait_of x.now.place) }
{
    match x.place {
        Place::Waiting(l, _, _) => Some(l),
        _ => None,
    }
}

// The lock for which thread `t` waits.
fn waits_on(s: &State, t: usize) -> Option<LockId>
    ensures { option_map (λ l. l.0) result ≡ option_map (λ w. w.lock) (wait_of (thread_of s.now t).place) }
{
    match s.threads.items().get(t) {
        Some(x) => lock_waited(x),
        None => None,
    }
}

// The owner of a lock.
fn lock_owner(s: &State, l: LockId) -> Option<usize>
    ensures { result ≡ owner_of (lock_of s.now l.0) }
{
    match s.locks.items().get(l.0 as usize) {
        Some(LockState::Owned(t)) => Some(t.0 as usize),
        _ => None,
    }
}

// The owner of the lock for which thread `t` waits.
fn thread_ahead(s: &State, t: usize) -> Option<usize>
    ensures { result ≡ ahead (graph s.now) t }
{
    match waits_on(s, t) {
        Some(l) => lock_owner(s, l),
        None => None,
    }
}

// The cycle of which `first` is the least thread, from it on, where there is one.
fn lap(alloc: Global, s: &State, first: usize) -> Result<Option<Vec<usize>>, AllocError>
    ensures { IfOk result (λ found. option_map (λ v. v.items) found ≡ lap (graph s.now) first (length s.now.threads) first) }
{
    let mut threads = Vec::new(alloc);
    let mut t = first;
    for _i in 0..s.threads.items().len() {
        let Some(u) = thread_ahead(s, t) else {
            return Ok(None);
        };
        threads.push(t)?;
        if u == first {
            return Ok(Some(threads));
        }
        if u < first {
            return Ok(None);
        }
        t = u;
    }
    Ok(None)
}

fn add_found(found: &mut Vec<Vec<usize>>, cycle: Option<Vec<usize>>) -> Result<(), AllocError>
    ensures { OnOk result (map (λ v. v.items) found.new.items ≡ map (λ v. v.items) found.old.items ++ none_or_one (option_map (λ v. v.items) cycle)) }
{
    if let Some(threads) = cycle {
        found.push(threads)?;
    }
    Ok(())
}

/// The blocking cycles of the state, in order of their least threads: each from that thread on, with each thread before
/// the owner of the lock for which it waits. No cycle is found from two threads. The time is at most that of as many steps
/// as the square of the number of threads.
#[tactic(auto, unfolding(sd_machine::specs::LockGraph::cycles_of))]
pub fn cycles(alloc: Global, s: &State) -> Result<Vec<Vec<usize>>, AllocError>
    ensures { IfOk result (λ found. map (λ v. v.items) found.items ≡ cycles_of s.now) }
{
    let mut found = Vec::new(alloc);
    for first in 0..s.threads.items().len() {
        add_found(&mut found, lap(alloc, s, first)?)?;
    }
    Ok(found)
}
