//! What a processor makes in a run that goes in rounds, where it reads the numbers of the state itself.

ghost use Rattle.std.specs.Prelude.{◌≡◌, ◌<◌, ℕ, nat_lt, option_map, true};
ghost use Rattle.std.specs.List.{list_all};
ghost use Rattle.sd_state.specs.States.{thread_of};
ghost use Rattle.sd_machine.specs.Events.{allowed, next, plan_event};
ghost use Rattle.sd_machine.specs.Hints.{hints_fit, plan_reads};
ghost use Rattle.sd_machine.specs.Plans.{plan};
ghost use Rattle.sd_machine.specs.Runs.{serial_hints, shown};
ghost use Rattle.sd_dispatcher.specs.Reading.{parts};
ghost use Rattle.sd_invariants.specs.Laws.{IsFit};

use sd_dispatcher::Reading;
use sd_flat::numbers_shown;
use sd_machine::Plan;
use sd_state::State;
use sd_step::{plan, plan_next, plan_reads};
use sd_types::{CpuId, Event, Hints, Work};

/// What processor `c` is about to do in a state.
pub(crate) fn plan_of(work: &Work, s: &State, c: CpuId) -> Plan
    requires fit { IsFit work.now s.now }
    ensures { result ≡ plan work.now s.now c.0 }
{
    match plan(work, s, c) {
        Ok(plan) => plan,
        Err(never) => match never {},
    }
}

/// The numbers that the state shows of what is read.
fn shown(s: &State, reading: &Option<Reading>) -> Option<Hints>
    requires { (t : ℕ) → list_all (λ n. nat_lt n.1 160) (thread_of s.now t).body.willed.items ≡ true }
    ensures { result ≡ shown s.now (option_map parts reading.now) }
{
    match reading {
        None => None,
        Some(reading) => Some(Hints {
            which: reading.which,
            numbers: numbers_shown(s, reading.which, reading.cpus.as_slice()),
        }),
    }
}

/// The numbers of the state that are read for a plan.
fn hints_of(work: &Work, s: &State, c: CpuId, plan: Plan) -> Option<Hints>
    requires fit { IsFit work.now s.now }
    ensures { result ≡ shown s.now (plan_reads work.now s.now c.0 plan) }
{
    match plan_reads(work, s, c, plan) {
        Ok(reading) => shown(s, &reading),
        Err(never) => match never {},
    }
}

/// The event of a plan where processor `c` may make it, with the numbers that were read for it.
fn event_of(work: &Work, s: &State, c: CpuId, hints: &Option<Hints>, plan: Plan) -> Option<Event>
    requires fit { IsFit work.now s.now }
    requires hints { hints_fit (plan_reads work.now s.now c.0 plan) hints.now ≡ true }
    ensures { result ≡ allowed work.now s.now c.0 (plan_event work.now s.now c.0 hints.now plan) }
{
    match plan_next(work, s, c, hints, plan) {
        Ok(event) => event,
        Err(never) => match never {},
    }
}

/// The numbers that processor `c` reads in the state itself, and the event that it may make then, None where it may make
/// none.
#[tactic(auto, using(crate::proofs::EnteringLemmas::serial_event, sd_invariants::proofs::Complete::shown_fit), unfolding(sd_machine::specs::Runs::serial_hints, sd_machine::specs::Hints::reads))]
pub fn serial_next(work: &Work, s: &State, c: CpuId) -> (Option<Hints>, Option<Event>)
    requires fit { IsFit work.now s.now }
    requires cpu { c.0 < work.now.cpus }
    ensures hints { result.0 ≡ serial_hints work.now s.now c }
    ensures event { result.1 ≡ next work.now s.now c (serial_hints work.now s.now c) }
{
    let plan = plan_of(work, s, c);
    let hints = hints_of(work, s, c, plan);
    let event = event_of(work, s, c, &hints, plan);
    (hints, event)
}
