//! One step of the machine.

ghost use Rattle.std.specs.Prelude.{◌≡◌, ◌↔◌, ◌+◌, ◌<◌, ◌^◌, length, IsSome, IsTrue, option_to_list};
ghost use Rattle.std.specs.Bool.{OnTrue, OnFalse};
ghost use Rattle.sd_machine.specs.Events.{after, next};
ghost use Rattle.sd_machine.specs.Needs.{Needs};
ghost use Rattle.sd_machine.specs.Runs.{IsReached, IsStep, final, turn};
ghost use Rattle.sd_invariants.specs.Laws.{IsFit};

use crate::equality::same_event;
use crate::serial::serial_next;
use sd_state::State;
use sd_step::{after, next};
use sd_types::{CpuId, Entry, Event, Hints, Work};

/// The one event that processor `c` may make in a state, where it has read these numbers.
fn next_of(work: &Work, s: &State, c: CpuId, hints: &Option<Hints>) -> Option<Event>
    requires fit { IsFit work.now s.now }
    ensures { result ≡ next work.now s.now c hints.now }
{
    match next(work, s, c, hints) {
        Ok(event) => event,
        Err(never) => match never {},
    }
}

/// Makes the state that which follows after entry `number` of processor `c`, with this event. It takes no memory.
pub fn apply(work: &Work, s: &mut State, number: u64, c: CpuId, event: Event)
    requires fit { IsFit work.now s.old }
    requires number { number < 2 ^ 62 }
    requires needs { Needs work.now s.old c event }
    ensures { s.new ≡ after work.now s.old number c event }
{
    match after(work, s, number, c, event) {
        Ok(()) => {}
        Err(never) => match never {},
    }
}

/// True exactly where the entry, with its own number, is a step from the state of a run with as many entries, which is
/// then the next state. With false the state is as before. It takes no memory.
pub fn step(work: &Work, s: &mut State, entry: &Entry) -> bool
    requires reached { IsReached work.now entry.now.number s.old }
    requires number { entry.now.number < 2 ^ 62 }
    ensures step { IsTrue result ↔ IsStep work.now s.old entry.now }
    ensures made { OnTrue result (s.new ≡ after work.now s.old entry.now.number entry.now.cpu entry.now.event) }
    ensures kept { OnFalse result (s.new ≡ s.old) }
    ensures reached { OnTrue result (IsReached work.now (entry.now.number + 1) s.new) }
{
    match next_of(work, s, entry.cpu, &entry.hints) {
        Some(event) if same_event(&event, &entry.event) => {
            apply(work, s, entry.number, entry.cpu, event);
            true
        }
        _ => false,
    }
}

/// The entry that processor `c` makes where there is such a processor and it has one, with this number, in a run that goes in rounds: what it reads
/// are the numbers of the state, which is that of a run with so many entries. The state is then the next one.
pub fn make_entry(work: &Work, s: &mut State, number: u64, c: CpuId) -> Option<Entry>
    requires reached { IsReached work.now number s.old }
    requires number { number < 2 ^ 62 }
    ensures entry { option_to_list result ≡ turn work.now s.old number c }
    ensures state { s.new ≡ final work.now s.old (turn work.now s.old number c) }
    ensures reached { IsSome result → IsReached work.now (number + 1) s.new }
{
    if c.0 >= work.cpus {
        return None;
    }
    let (hints, event) = serial_next(work, s, c);
    match event {
        Some(event) => {
            apply(work, s, number, c, event);
            Some(Entry {
                number,
                cpu: c,
                event,
                hints,
            })
        }
        None => None,
    }
}
