//! Stints of all processors side by side, until they make no entry.

ghost use Rattle.std.specs.Prelude.{◌≡◌, length, Some, Err, IfErr, IfOk, IsErrOf};
ghost use Rattle.std.specs.List.{All};
ghost use Rattle.sd_rounds.specs.Rounds.{IsLongRun};
ghost use Rattle.sd_shared_table.specs.Seats.{id_of, work_of};
ghost use Rattle.sd_threads.specs.Jobs.{AllTell, AreAtRest, AreJobs, HasPhased, HavePhased, IsEmptyHanded, Tells, WasStopped};

use crate::jobs::{Job, stint_of};
use sd_cpu::Gate;
use sd_shared_table::Shared;
use sd_types::{Stop, Work};
use std::alloc::AllocError;
use std::sync::Wait;
use std::thread;
use std::thread::Threads;

/// One stint of each processor, each on a thread of its own where one can be made, and else one after another. `Err` only where memory
/// runs out.
fn run_stint<R: Threads + Wait + Sync, G: Gate + Sync>(
    rt: &R,
    gate: &G,
    shared: &Shared,
    work: &Work,
    jobs: Vec<Job>,
) -> Result<Vec<Job>, AllocError>
    requires work { work.now ≡ work_of shared.now }
    requires free { All (λ j. IsEmptyHanded (id_of shared.now) work.now j.seat) jobs.items }
    ensures many { IfOk result (λ v. length v.items ≡ length jobs.items) }
    ensures phased { IfOk result (λ v. HavePhased (id_of shared.now) work.now jobs.items v.items) }
{
    thread::map_vec(
        rt,
        jobs,
        &|job: Job| -> Job
            requires { (work.now ≡ work_of shared.now) × IsEmptyHanded (id_of shared.now) work.now job.seat }
            ensures { HasPhased (id_of shared.entry.now) work.entry.now job result }
        { stint_of(rt, gate, shared, work, job) },
    )
}

/// Whether a processor has made entries in its last stint. `Err` where it was refused.
fn has_acted(job: &Job) -> Result<bool, Stop>
    ensures told { IfOk result (λ acted. Tells job.now.outcome acted) }
    ensures stopped { IfErr result (λ stop. job.now.outcome ≡ Some (Err stop)) }
{
    match job.outcome {
        None => Ok(false),
        Some(outcome) => match outcome {
            Err(stop) => Err(stop),
            Ok(phased) => Ok(phased.entries > 0),
        },
    }
}

/// Whether any of these processors has made entries in its last stint. `Err` where one was refused: what the first of them was.
fn have_acted(jobs: &[Job]) -> Result<bool, Stop>
    ensures told { IfOk result (λ acted. AllTell jobs.now (length jobs.now) acted) }
    ensures stopped { IfErr result (λ stop. WasStopped jobs.now stop) }
{
    let mut acted = false;
    for i in 0..jobs.len() {
        match has_acted(&jobs[i]) {
            Ok(one) => acted = acted | one,
            Err(stop) => return Err(stop),
        }
    }
    Ok(acted)
}

/// Stints of all processors, until none makes an entry. `Full` only where a run of the workload has 2^40 entries or more.
pub(crate) fn run_to_rest<R: Threads + Wait + Sync, G: Gate + Sync>(
    rt: &R,
    gate: &G,
    shared: &Shared,
    work: &Work,
    jobs: Vec<Job>,
) -> Result<Vec<Job>, Stop>
    requires work { work.now ≡ work_of shared.now }
    requires jobs { AreJobs (id_of shared.now) work.now jobs.items }
    ensures jobs { IfOk result (λ v. AreJobs (id_of shared.now) work.now v.items) }
    ensures rest { IfOk result (λ v. AreAtRest (id_of shared.now) work.now v.items) }
    ensures full { IsErrOf result Stop.Full → IsLongRun work.now }
{
    let mut jobs = jobs;
    for _ in rt.forever() {
        match run_stint(rt, gate, shared, work, jobs) {
            Err(_) => return Err(Stop::Memory),
            Ok(done) => match have_acted(&done) {
                Err(stop) => return Err(stop),
                Ok(acted) => {
                    if !acted {
                        return Ok(done);
                    }
                    jobs = done;
                }
            },
        }
    }
    unreachable!()
}
