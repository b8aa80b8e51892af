//! A table of two processors: opened with a seat for each, and closed.

ghost use Rattle.std.specs.Prelude.{◌≡◌, ◌<◌, ◌∷◌, [], length, IfOk, IfSome, OnOk};
ghost use Rattle.sd_shared_table.specs.Seats.{id_of, work_of};
ghost use Rattle.sd_shared_table.specs.Whole.{IsSeatOf};

use sd_log::EntryLog;
use sd_shared_table::{Seat, Shared};
use sd_types::{Entry, Work};
use std::alloc::{AllocError, Global};
use std::test::Fail;

/// The seats of two processors.
#[derive(Drop)]
pub(crate) struct Seats {
    pub(crate) first: Seat,
    pub(crate) second: Seat,
}

/// A table of two processors with their seats.
#[derive(Drop)]
pub(crate) struct Opened {
    pub(crate) shared: Shared,
    pub(crate) seats: Seats,
}

/// The two seats, where there are so many.
fn two_of(seats: Vec<Seat>) -> Option<Seats>
    ensures { IfSome result (λ r. seats.items ≡ r.first ∷ r.second ∷ []) }
{
    let mut seats = seats;
    let Some(second) = seats.pop() else {
        return None;
    };
    let Some(first) = seats.pop() else {
        return None;
    };
    if !seats.is_empty() {
        return None;
    }
    Some(Seats { first, second })
}

/// The table of a workload that has two processors and some thread, with the seats of both.
pub(crate) fn open_two(alloc: Global, work: &Work) -> Result<Opened, Fail>
    ensures work { IfOk result (λ r. work_of r.shared ≡ work.now) }
    ensures cpus { OnOk result (work.now.cpus ≡ 2) }
    ensures threads { OnOk result (0 < length work.now.threads) }
    ensures first { IfOk result (λ r. IsSeatOf (id_of r.shared) work.now 0 r.seats.first) }
    ensures second { IfOk result (λ r. IsSeatOf (id_of r.shared) work.now 1 r.seats.second) }
{
    if work.threads.items().is_empty() {
        return Err("no thread".into());
    }
    let (shared, all) = Shared::open(alloc, work)?;
    let Some(seats) = two_of(all) else {
        return Err("not two seats".into());
    };
    Ok(Opened { shared, seats })
}

/// The entries of a log, one by one.
fn entries_of(alloc: Global, log: &EntryLog) -> Result<Vec<Entry>, AllocError> {
    let mut entries = Vec::new(alloc);
    for i in 0..log.len() {
        entries.push(log.entry(i))?;
    }
    Ok(entries)
}

/// Both seats in a row.
fn listed(alloc: Global, seats: Seats) -> Result<Vec<Seat>, AllocError>
    ensures { IfOk result (λ r. r.items ≡ seats.first ∷ seats.second ∷ []) }
{
    let Seats { first, second } = seats;
    let mut list = Vec::new(alloc);
    list.push(first)?;
    list.push(second)?;
    Ok(list)
}

/// The entries of a table that nobody shares any more.
pub(crate) fn close_two(
    alloc: Global,
    shared: Shared,
    work: &Work,
    seats: Seats,
) -> Result<Vec<Entry>, AllocError>
    requires work { work.now ≡ work_of shared }
    requires cpus { work.now.cpus ≡ 2 }
    requires first { IsSeatOf (id_of shared) work.now 0 seats.first }
    requires second { IsSeatOf (id_of shared) work.now 1 seats.second }
{
    let list = listed(alloc, seats)?;
    let world = shared.close(alloc, work, list)?;
    entries_of(alloc, &world.entries)
}
