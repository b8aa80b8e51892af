//! What two processors do at a table, by one test each. One function owns the workload and one the table for all of them, since a function
//! that drops these takes long to prove.

ghost use Rattle.std.specs.Prelude.{◌≡◌, ◌<◌, length, IfOk};
ghost use Rattle.sd_shared_table.specs.Seats.{id_of, work_of};
ghost use Rattle.sd_shared_table.specs.Whole.{IsSeatOf};

use crate::counting::CONTENDED;
use crate::joining::{Act, both_done};
use crate::tables::{Opened, Seats, close_two, open_two};
use crate::trying::{sought, taken};
use sd_replay::replay;
use sd_shared_table::Shared;
use sd_state::{Place, State};
use sd_types::{Entry, Work};
use sd_workload::read_work;
use std::alloc::Global;
use std::marker::Sync;
use std::process::Abort;
use std::sync::Wait;
use std::test::Fail;
use std::thread::Threads;

/// Two processors, each with two threads that have nothing to do.
const FOUR_THREADS: &str =
    "cpus 2\nlimit 1\nthread a ts 29 0 0\nthread b ts 29 0 0\nthread d ts 29 0 0\nthread e ts 29 0 0\n";

/// What the two processors do.
#[derive(Clone, Copy)]
pub(crate) enum Deed {
    /// They take one home by turns.
    Take,
    /// They take the home of one thread by turns.
    Seek,
    /// Each acts on a thread of its own.
    Both(Act),
}

/// The seats after a deed, and how many entries it made.
#[derive(Drop)]
pub(crate) struct Done {
    pub(crate) seats: Seats,
    pub(crate) made: u64,
}

/// The workload of a deed.
fn workload_of(deed: Deed) -> &'static str {
    match deed {
        Deed::Take | Deed::Seek => FOUR_THREADS,
        Deed::Both(Act::Turns | Act::Tries) => FOUR_THREADS,
        Deed::Both(Act::Attempts) => CONTENDED,
    }
}

/// Does it. `Err` says what went otherwise.
fn carry_out<R: Threads + Wait + Sync>(
    rt: &R,
    shared: &Shared,
    work: &Work,
    seats: Seats,
    deed: Deed,
) -> Result<Done, &'static str>
    requires work { work.now ≡ work_of shared.now }
    requires threads { 0 < length work.now.threads }
    requires first { IsSeatOf (id_of shared.now) (work_of shared.now) 0 seats.first }
    requires second { IsSeatOf (id_of shared.now) (work_of shared.now) 1 seats.second }
    ensures first { IfOk result (λ r. IsSeatOf (id_of shared.now) (work_of shared.now) 0 r.seats.first) }
    ensures second { IfOk result (λ r. IsSeatOf (id_of shared.now) (work_of shared.now) 1 r.seats.second) }
{
    match deed {
        Deed::Take => taken(shared, seats),
        Deed::Seek => sought(shared, work, seats),
        Deed::Both(act) => both_done(rt, shared, work, seats, act),
    }
}

/// All threads have ended.
fn have_ended(state: &State) -> bool {
    for thread in state.threads.items() {
        match thread.place {
            Place::Ended => {}
            _ => return false,
        }
    }
    true
}

/// The entries are a run, at whose end all threads have ended where this is asked for. False also where memory runs out.
fn is_run(alloc: Global, work: &Work, entries: &[Entry], to_the_end: bool) -> bool {
    match replay(alloc, work, entries) {
        Ok(state) => !to_the_end || have_ended(&state),
        Err(_) => false,
    }
}

/// The entries are a run, where the deed is judged by it.
fn is_legal(alloc: Global, work: &Work, entries: &[Entry], deed: Deed) -> bool {
    match deed {
        Deed::Take | Deed::Seek | Deed::Both(Act::Tries) => true,
        Deed::Both(Act::Turns) => is_run(alloc, work, entries, true),
        Deed::Both(Act::Attempts) => is_run(alloc, work, entries, false),
    }
}

/// What is wrong with the entries of the table.
fn wrong_entries(
    alloc: Global,
    work: &Work,
    entries: &[Entry],
    deed: Deed,
    made: u64,
) -> Option<&'static str> {
    if entries.len() as u64 != made {
        return Some("the number of entries");
    }
    if !is_legal(alloc, work, entries, deed) {
        return Some("the run of the entries");
    }
    None
}

/// What is wrong with the entries of the table after this.
fn wrong_after(
    alloc: Global,
    shared: Shared,
    work: &Work,
    deed: Deed,
    done: Done,
) -> Result<Option<&'static str>, Fail>
    requires work { work.now ≡ work_of shared }
    requires cpus { work.now.cpus ≡ 2 }
    requires first { IsSeatOf (id_of shared) (work_of shared) 0 done.seats.first }
    requires second { IsSeatOf (id_of shared) (work_of shared) 1 done.seats.second }
{
    let Done { seats, made } = done;
    let entries = close_two(alloc, shared, work, seats)?;
    Ok(wrong_entries(alloc, work, &entries, deed, made))
}

/// The first that is not as it should be, at a table of this workload.
fn wrong_over<R: Threads + Wait + Sync + AllocGlobal>(
    rt: &R,
    work: &Work,
    deed: Deed,
) -> Result<Option<&'static str>, Fail> {
    let Opened { shared, seats } = open_two(rt.alloc(), work)?;
    match carry_out(rt, &shared, work, seats, deed) {
        Ok(done) => wrong_after(rt.alloc(), shared, work, deed, done),
        Err(wrong) => Ok(Some(wrong)),
    }
}

/// The first that is not as it should be.
fn wrong<R: Threads + Wait + Sync + AllocGlobal>(
    rt: &R,
    deed: Deed,
) -> Result<Option<&'static str>, Fail> {
    let text = workload_of(deed).as_bytes();
    if text.len() >= 1000 {
        return Ok(Some("a large workload"));
    }
    match read_work(rt.alloc(), text) {
        Ok(work) => wrong_over(rt, &work, deed),
        Err(_) => Ok(Some("no work")),
    }
}

/// All of it is as it should be.
pub(crate) fn judge<R: Threads + Wait + Sync + Abort + AllocGlobal>(
    rt: &R,
    deed: Deed,
) -> Result<(), Fail> {
    let wrong = wrong(rt, deed)?;
    assert!(rt; wrong.is_none(), "{wrong:?}");
    Ok(())
}
