//! A processor between two stints, and the stint as a job for a thread of the host: phases in a row, so that a thread is kept for many
//! phases and not started for each.

ghost use Rattle.std.specs.Prelude.{◌≡◌, Ok, Some};
ghost use Rattle.sd_shared_table.specs.Seats.{id_of, work_of};
ghost use Rattle.sd_threads.specs.Jobs.{HasPhased, IsEmptyHanded};

use crate::TableWorld;
use crate::patience::Patience;
use sd_cpu::{Gate, Phased, Turned, phase};
use sd_shared_table::{Seat, Shared};
use sd_types::{Stop, Work};
use std::sync::Wait;

/// A processor between two stints: its seat, the number of its next turn, and what its last stint answered, before the first `None`.
#[derive(Drop)]
pub(crate) struct Job {
    pub seat: Seat,
    pub turn: u64,
    pub outcome: Option<Result<Phased, Stop>>,
}

// One phase of a processor, at whose end it holds no home.
fn phase_of<R: Wait, G: Gate>(rt: &R, gate: &G, shared: &Shared, work: &Work, job: Job) -> Job
    requires work { work.now ≡ work_of shared.now }
    requires free { IsEmptyHanded (id_of shared.now) work.now job.seat }
    ensures phased { HasPhased (id_of shared.now) work.now job result }
{
    let Job {
        seat,
        turn,
        outcome: _,
    } = job;
    let mut turn = turn;
    let mut world = TableWorld::new(shared, seat);
    let outcome = phase(rt, &mut world, gate, work, &mut turn);
    Job {
        seat: world.into_seat(),
        turn,
        outcome: Some(outcome),
    }
}

// The same processor, with the answer of all its phases.
fn answering(job: Job, entries: u64, end: Turned) -> Job
    ensures seat { result.seat ≡ job.seat }
    ensures outcome { result.outcome ≡ Some (Ok (record { entries = entries; end = end })) }
{
    let Job { seat, turn, .. } = job;
    Job {
        seat,
        turn,
        outcome: Some(Ok(Phased { entries, end })),
    }
}

/// A stint of a processor: phases in a row, until one is refused, or its patience is over (`Patience`). It
/// answers how many entries they made together, and how the last one ended. At its end the processor holds no home.
pub(crate) fn stint_of<R: Wait, G: Gate>(
    rt: &R,
    gate: &G,
    shared: &Shared,
    work: &Work,
    job: Job,
) -> Job
    requires work { work.now ≡ work_of shared.now }
    requires free { IsEmptyHanded (id_of shared.now) work.now job.seat }
    ensures phased { HasPhased (id_of shared.now) work.now job result }
{
    let mut going = job;
    let mut entries = 0u64;
    let mut patience = Patience::first();
    for _ in rt.forever() {
        let done = phase_of(rt, gate, shared, work, going);
        match done.outcome {
            None => return done,
            Some(outcome) => match outcome {
                Err(_) => return done,
                Ok(phased) => {
                    entries = entries.saturating_add(phased.entries);
                    patience = patience.after(rt, phased);
                    if patience.is_over(phased) {
                        return answering(done, entries, phased.end);
                    }
                    going = done;
                }
            },
        }
    }
    unreachable!()
}
