//! A run on homes, all of which one thread of the host has: dispatch queues, real-time queues, chains of turnstiles and of sleep
//! queues, between which the boxes of threads move.

ghost use Rattle.std.specs.Prelude.{◌≡◌, ◌≤◌, [], length, IfOk};
ghost use Rattle.sd_machine.specs.Runs.{IsRun, final};
ghost use Rattle.sd_state.specs.Opening.{opening};
ghost use Rattle.sd_world.specs.Told.{AreActorsOf, IsActorOf};
ghost use Rattle.sd_world.specs.Plain.{HasStood, Stands, told};
ghost use Rattle.sd_types.specs.Limits.{most_processors};

use crate::homes::Homes;
use crate::snapshot::state_of;
use sd_flat::cpu_of;
use sd_hand::{Acting, Actor};
use sd_homes::{ListId, list_at};
use sd_log::EntryLog;
use sd_opening::opening;
use sd_state::State;
use sd_types::{CpuId, Work};
use std::alloc::{AllocError, Global};

/// All homes of a run of this workload, the processor that acts, the count and the duty of each, and the entries that were made.
#[derive(Drop)]
pub struct PlainWorld<'a> {
    pub work: &'a Work,
    pub acting: Acting,
    pub actors: Vec<Actor>,
    pub entries: EntryLog,
}

/// The lists in which the threads of a state stand: where look-ups begin.
fn lists_of(alloc: Global, s: &State) -> Result<Vec<ListId>, AllocError> {
    let mut lists = Vec::new(alloc);
    for x in s.threads.items() {
        lists.push(list_at(x.body.last, x.place))?;
    }
    Ok(lists)
}

/// The count and the duty of processor `c`.
fn actor_of(s: &State, c: CpuId) -> Actor
    ensures { IsActorOf s.now c.0 result }
{
    let x = cpu_of(s, c);
    Actor {
        cpu: c,
        count: x.count,
        duty: x.duty,
    }
}

/// The counts and the duties of a state.
fn actors_of(alloc: Global, s: &State) -> Result<Vec<Actor>, AllocError>
    requires few { length s.now.cpus ≤ most_processors }
    ensures { IfOk result (λ v. AreActorsOf s.now v.items) }
{
    let mut actors = Vec::new(alloc);
    let cpus = s.cpus.items();
    for c in 0..cpus.len() {
        actors.push(actor_of(s, CpuId(c as u16)))?;
    }
    Ok(actors)
}

impl<'a> PlainWorld<'a> {
    /// A run that goes on from a state to which these entries led; each state before it stood in homes. `Err` only where memory
    /// runs out.
    pub fn resume(
        alloc: Global,
        work: &'a Work,
        s: &State,
        entries: EntryLog,
    ) -> Result<PlainWorld<'a>, AllocError>
        requires run { IsRun work.now entries.items }
        requires state { s.now ≡ final work.now (opening work.now) entries.items }
        requires stood { HasStood work.now entries.items }
        ensures stands { IfOk result (λ x. Stands work.now x) }
        ensures work { IfOk result (λ x. x.work.now ≡ work.now) }
        ensures entries { IfOk result (λ x. x.entries.items ≡ entries.items) }
    {
        let homes = Homes::new(alloc, work, entries.len() as u64, s)?;
        let actors = actors_of(alloc, s)?;
        let lists = lists_of(alloc, s)?;
        let actor = actors[0];
        Ok(PlainWorld {
            work,
            acting: Acting {
                hand: homes.into_hand(lists),
                actor,
            },
            actors,
            entries,
        })
    }

    /// A run at its beginning. `Err` only where memory runs out.
    pub fn new(alloc: Global, work: &'a Work) -> Result<PlainWorld<'a>, AllocError>
        ensures stands { IfOk result (λ x. Stands work.now x) }
        ensures work { IfOk result (λ x. x.work.now ≡ work.now) }
        ensures entries { IfOk result (λ x. x.entries.items ≡ []) }
    {
        let s = opening(alloc, work)?;
        PlainWorld::resume(alloc, work, &s, EntryLog::new(alloc))
    }

    /// The state to which the entries led, as the homes have it. `Err` only where memory runs out.
    pub fn state(&self, alloc: Global, work: &Work) -> Result<State, AllocError>
        requires stands { Stands work.now self.now }
        ensures { IfOk result (λ s. s ≡ told work.now self.now) }
    {
        state_of(alloc, work, &self.acting.hand, &self.actors)
    }
}
