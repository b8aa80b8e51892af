//! The whole run: the table is opened, stints follow one another, it is closed, and rounds end the run.

ghost use Rattle.std.specs.Prelude.{◌≡◌, ℕ, ◌<◌, ◌≤◌, length, map, IfErr, IfOk, IsErrOf};
ghost use Rattle.sd_machine.specs.Runs.{IsComplete, IsRun, final, state_at};
ghost use Rattle.sd_hand.specs.OneHome.{StandsInHomes};
ghost use Rattle.sd_state.specs.Opening.{opening};
ghost use Rattle.sd_rounds.specs.Rounds.{IsLongRun};
ghost use Rattle.sd_threads.specs.Jobs.{seats_in};

use crate::jobs::Job;
use crate::stints::run_to_rest;
use sd_cpu::Gate;
use sd_rounds::{Finished, run_to_end};
use sd_shared_table::{Seat, Shared};
use sd_types::{MOST_ENTRIES, Stop, Work};
use std::alloc::{AllocError, Global};
use std::sync::Wait;
use std::thread::Threads;

/// The processors before their first stints.
fn jobs_of(alloc: Global, seats: Vec<Seat>) -> Result<Vec<Job>, AllocError>
    ensures { IfOk result (λ v. seats_in v.items ≡ seats.items) }
{
    let mut jobs = Vec::new(alloc);
    for seat in seats {
        jobs.push(Job {
            seat,
            turn: 0,
            outcome: None,
        })?;
    }
    Ok(jobs)
}

/// Their seats, after their last stints.
fn seats_of(alloc: Global, jobs: Vec<Job>) -> Result<Vec<Seat>, AllocError>
    ensures { IfOk result (λ v. v.items ≡ seats_in jobs.items) }
{
    let mut seats = Vec::new(alloc);
    for job in jobs {
        let Job { seat, .. } = job;
        seats.push(seat)?;
    }
    Ok(seats)
}

/// How many turns each of them has had.
fn turns_of(alloc: Global, jobs: &[Job]) -> Result<Vec<u64>, AllocError>
    ensures { IfOk result (λ v. v.items ≡ map (λ j. j.turn) jobs.now) }
{
    let mut turns = Vec::new(alloc);
    for job in jobs {
        turns.push(job.turn)?;
    }
    Ok(turns)
}

/// A run of the workload, whose processors act side by side on threads of the host, where threads can be made: a complete legal run, with
/// the state at its end. Which of these runs it is depends on how the threads go. `Full` only where a run of the workload has 2^40
/// entries or more; what `Memory` stands for is only that memory ran out. Each processor passes the gate in each of its turns.
pub fn run_on_threads<R: Threads + Wait + Sync, G: Gate + Sync>(
    rt: &R,
    alloc: Global,
    work: &Work,
    gate: &G,
) -> Result<Finished, Stop>
    ensures run { IfOk result (λ r. IsRun work.now r.entries.items) }
    ensures complete { IfOk result (λ r. IsComplete work.now r.state) }
    ensures state { IfOk result (λ r. r.state ≡ final work.now (opening work.now) r.entries.items) }
    ensures homes { IfOk result (λ r. (k : ℕ) → k ≤ length r.entries.items → StandsInHomes k (state_at work.now r.entries.items k)) }
    ensures short { IfOk result (λ r. length r.entries.items < MOST_ENTRIES) }
    ensures full { IsErrOf result Stop.Full → IsLongRun work.now }
{
    let Ok((shared, seats)) = Shared::open(alloc, work) else {
        return Err(Stop::Memory);
    };
    let Ok(jobs) = jobs_of(alloc, seats) else {
        return Err(Stop::Memory);
    };
    let jobs = run_to_rest(rt, gate, &shared, work, jobs)?;
    let Ok(turns) = turns_of(alloc, &jobs) else {
        return Err(Stop::Memory);
    };
    let Ok(seats) = seats_of(alloc, jobs) else {
        return Err(Stop::Memory);
    };
    match shared.close(alloc, work, seats) {
        Ok(world) => run_to_end(alloc, work, world, gate, &turns),
        Err(_) => Err(Stop::Memory),
    }
}
