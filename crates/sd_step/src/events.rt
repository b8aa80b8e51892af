//! The one event that a processor may make, and what it reads of others before it.

ghost use Rattle.std.specs.Prelude.{◌≡◌, ℕ, ◌++◌, IfOk, None, true, option_map, if◌then◌else◌};
ghost use Rattle.sd_types.specs.declared.numbers.ChanId.{ChanId as ChanIdOf};
ghost use Rattle.sd_machine.specs.declared.plans.Plan.TheVariants.{Place};
ghost use Rattle.sd_machine.specs.Choosing.{neighbours, put_chosen, victim_for};
ghost use Rattle.sd_machine.specs.Dispatching.{search_event};
ghost use Rattle.sd_machine.specs.Events.{allowed, event_of, next, plan_event};
ghost use Rattle.sd_machine.specs.Hints.{hints_fit, placed_thread, plan_reads, read_of, reads, reads_for};
ghost use Rattle.sd_machine.specs.Needs.{CanCount};
ghost use Rattle.sd_state.specs.declared.states.State.{State};
ghost use Rattle.sd_dispatcher.specs.Reading.{parts, put_unread as unread_place};
ghost use Rattle.sd_dispatcher.specs.Touched.{victim_parts};
ghost use Rattle.sd_step.specs.Needed.{choice_parts, next_parts, read_parts, turn_parts};
ghost use Rattle.sd_store.specs.Parts.{ready_parts};
ghost use Rattle.sd_store.specs.Words.{Lacks, LacksIf, Tells, TellsIf};

use crate::plans::plan;
use sd_dispatcher::{
    Reading, hints_fit, put_chosen, put_read, put_unread, reads_for, reads_to_steal, search_event,
    victim_for, victim_read,
};
use sd_machine::{Placement, Plan};
use sd_store::{Clock, Look};
use sd_types::{CpuId, Event, Hints, PrioAnswer, Put, ThreadId, Work};

/// A placement with the put that was chosen.
fn event_of(placement: Placement, at: Put) -> Event
    ensures { result ≡ event_of placement at }
{
    match placement {
        Placement::Napend { t } => Event::Napend { t, at },
        Placement::Wake { t, k, u } => Event::Wake {
            t,
            k,
            woken: Some((u, at)),
        },
        Placement::Rouse { k, u } => Event::Rouse {
            k,
            woken: Some((u, at)),
        },
        Placement::Will { l, o, p } => Event::Will {
            l,
            o,
            p,
            at: Some(at),
        },
        Placement::Unblock { l, u } => Event::Unblock { l, u, at },
        Placement::Grant { l, u } => Event::Grant { l, u, at },
        Placement::Prio { t, u, p } => Event::Prio {
            t,
            u,
            answer: PrioAnswer::Changed { p, at: Some(at) },
        },
        Placement::SemaVWake { t, k, u } => Event::SemaVWake { t, k, u, at },
        Placement::Move { t } => Event::Move { t, at },
    }
}

/// The thread that is placed.
fn placed_thread(placement: Placement) -> ThreadId
    ensures { result.0 ≡ placed_thread placement }
{
    match placement {
        Placement::Napend { t } => t,
        Placement::Wake { u, .. } => u,
        Placement::Rouse { u, .. } => u,
        Placement::Will { o, .. } => o,
        Placement::Unblock { u, .. } => u,
        Placement::Grant { u, .. } => u,
        Placement::Prio { u, .. } => u,
        Placement::SemaVWake { u, .. } => u,
        Placement::Move { t } => t,
    }
}

/// What processor `c` reads where it is about to do this.
pub fn plan_reads<L: Look>(
    work: &Work,
    x: &L,
    c: CpuId,
    plan: Plan,
) -> Result<Option<Reading>, L::Lack>
    ensures value { IfOk result (λ r. (n : ℕ) (s : State) → L.shows x.now n s → option_map parts r ≡ plan_reads work.now s c.0 plan) }
    ensures lack { Lacks L.part (L.shows x.now) (L.has x.now) result (λ s. read_parts work.now s c plan) }
{
    match plan {
        Plan::Make(_) => Ok(None),
        Plan::Place(placement, _) => reads_for(work, x, c, placed_thread(placement)),
        Plan::Search => reads_to_steal(x, c),
    }
}

/// A placement with the put that processor `c` chooses by the numbers that it read.
#[tactic(auto, using(sd_machine::proofs::NumberLemmas::placed_numbers))]
fn place_event<L: Look>(
    work: &Work,
    x: &L,
    c: CpuId,
    hints: &Option<Hints>,
    placement: Placement,
    p: u8,
) -> Result<Event, L::Lack>
    ensures value { TellsIf (L.shows x.now) result (λ s. hints_fit (reads_for work.now s c.0 (placed_thread placement)) hints.now ≡ true) (λ s. event_of placement (put_chosen work.now s c.0 (placed_thread placement) p hints.now)) }
    ensures lack { Lacks L.part (L.shows x.now) (L.has x.now) result (λ s. read_parts work.now s c (Place placement p)) }
{
    let t = placed_thread(placement);
    Ok(event_of(placement, put_chosen(work, x, c, t, p, hints)?))
}

/// What processor `c` comes to in a search by the numbers that it read.
#[tactic(auto, using(sd_machine::proofs::NumberLemmas::search_numbers, sd_store::proofs::Among::among_left, sd_store::proofs::Among::among_right))]
fn searched<L: Look>(x: &L, c: CpuId, hints: &Option<Hints>) -> Result<Event, L::Lack>
    ensures value { TellsIf (L.shows x.now) result (λ s. hints_fit (read_of (neighbours s c.0)) hints.now ≡ true) (λ s. search_event s (victim_for s c.0 hints.now)) }
    ensures lack { LacksIf L.part (L.shows x.now) (L.has x.now) result (λ s. hints_fit (read_of (neighbours s c.0)) hints.now ≡ true) (λ s. ready_parts s c ++ victim_parts (victim_for s c.0 hints.now)) }
{
    let victim = victim_for(x, c, hints)?;
    search_event(x, victim)
}

/// The event of a plan, whether or not it may come now, with the numbers that were read for it.
pub fn plan_event<L: Look>(
    work: &Work,
    x: &L,
    c: CpuId,
    hints: &Option<Hints>,
    plan: Plan,
) -> Result<Event, L::Lack>
    ensures value { TellsIf (L.shows x.now) result (λ s. hints_fit (plan_reads work.now s c.0 plan) hints.now ≡ true) (λ s. plan_event work.now s c.0 hints.now plan) }
    ensures lack { LacksIf L.part (L.shows x.now) (L.has x.now) result (λ s. hints_fit (plan_reads work.now s c.0 plan) hints.now ≡ true) (λ s. choice_parts work.now s c hints.now plan) }
{
    match plan {
        Plan::Make(event) => Ok(event),
        Plan::Place(placement, p) => place_event(work, x, c, hints, placement, p),
        Plan::Search => searched(x, c, hints),
    }
}

/// A placement with the put that processor `c` chooses by what was found that it reads for it, and by the numbers that it read.
fn place_event_read<L: Look>(
    work: &Work,
    x: &L,
    c: CpuId,
    reading: &Option<Reading>,
    hints: &Option<Hints>,
    placement: Placement,
    p: u8,
) -> Result<Event, L::Lack>
    ensures value { TellsIf (L.shows x.now) result (λ s. (option_map parts reading.now ≡ reads_for work.now s c.0 (placed_thread placement)) × (hints_fit (reads_for work.now s c.0 (placed_thread placement)) hints.now ≡ true)) (λ s. event_of placement (put_chosen work.now s c.0 (placed_thread placement) p hints.now)) }
    ensures lack { Lacks L.part (L.shows x.now) (L.has x.now) result (λ s. read_parts work.now s c (Place placement p)) }
{
    let t = placed_thread(placement);
    let at = put_read(work, x, c, t, p, reading, hints)?;
    Ok(event_of(placement, at))
}

/// The event of a placement for which processor `c` reads nothing, whether or not it may come now; None where it reads something.
pub fn unread_event<L: Look>(
    work: &Work,
    x: &L,
    c: CpuId,
    placement: Placement,
    p: u8,
) -> Result<Option<Event>, L::Lack>
    ensures value { Tells (L.shows x.now) result (λ s. option_map (event_of placement) (unread_place work.now s c.0 (placed_thread placement) p)) }
    ensures lack { Lacks L.part (L.shows x.now) (L.has x.now) result (λ s. read_parts work.now s c (Place placement p)) }
{
    match put_unread(work, x, c, placed_thread(placement), p)? {
        None => Ok(None),
        Some(at) => Ok(Some(event_of(placement, at))),
    }
}

/// The event of a plan by what was found that is read for it, whether or not it may come now, with the numbers that were read. So the
/// processors of a choice are listed once, where they are read.
#[tactic(auto, using(sd_store::proofs::Among::among_left, sd_store::proofs::Among::among_right))]
pub fn plan_event_read<L: Look>(
    work: &Work,
    x: &L,
    c: CpuId,
    reading: &Option<Reading>,
    hints: &Option<Hints>,
    plan: Plan,
) -> Result<Event, L::Lack>
    ensures value { TellsIf (L.shows x.now) result (λ s. (option_map parts reading.now ≡ plan_reads work.now s c.0 plan) × (hints_fit (plan_reads work.now s c.0 plan) hints.now ≡ true)) (λ s. plan_event work.now s c.0 hints.now plan) }
    ensures lack { LacksIf L.part (L.shows x.now) (L.has x.now) result (λ s. (option_map parts reading.now ≡ plan_reads work.now s c.0 plan) × (hints_fit (plan_reads work.now s c.0 plan) hints.now ≡ true)) (λ s. choice_parts work.now s c hints.now plan) }
{
    match plan {
        Plan::Make(event) => Ok(event),
        Plan::Place(placement, p) => place_event_read(work, x, c, reading, hints, placement, p),
        Plan::Search => search_event(x, victim_read(reading, hints)),
    }
}

/// An event that processor `c` may make now: it may tick, where the event ticks.
fn allowed<L: Clock>(work: &Work, x: &L, c: CpuId, event: Event) -> Option<Event>
    ensures { (n : ℕ) (s : State) → L.shows x.now n s → result ≡ allowed work.now s c.0 event }
{
    if !event.ticks() || x.may_tick(work, c) {
        Some(event)
    } else {
        None
    }
}

/// The event of a plan where processor `c` may make it.
pub fn plan_next<L: Clock>(
    work: &Work,
    x: &L,
    c: CpuId,
    hints: &Option<Hints>,
    plan: Plan,
) -> Result<Option<Event>, L::Lack>
    ensures value { TellsIf (L.shows x.now) result (λ s. hints_fit (plan_reads work.now s c.0 plan) hints.now ≡ true) (λ s. allowed work.now s c.0 (plan_event work.now s c.0 hints.now plan)) }
    ensures lack { LacksIf L.part (L.shows x.now) (L.has x.now) result (λ s. hints_fit (plan_reads work.now s c.0 plan) hints.now ≡ true) (λ s. choice_parts work.now s c hints.now plan) }
{
    let event = plan_event(work, x, c, hints, plan)?;
    Ok(allowed(work, x, c, event))
}

/// The same where the numbers that it read are those of the plan.
#[tactic(auto, using(sd_store::proofs::Among::among_left, sd_store::proofs::Among::among_right))]
fn planned<L: Clock>(
    work: &Work,
    x: &L,
    c: CpuId,
    hints: &Option<Hints>,
    plan: Plan,
) -> Result<Option<Event>, L::Lack>
    ensures value { Tells (L.shows x.now) result (λ s. if hints_fit (plan_reads work.now s c.0 plan) hints.now then allowed work.now s c.0 (plan_event work.now s c.0 hints.now plan) else None) }
    ensures lack { Lacks L.part (L.shows x.now) (L.has x.now) result (λ s. turn_parts work.now s c hints.now plan) }
{
    let reading = plan_reads(work, x, c, plan)?;
    if hints_fit(&reading, hints) {
        plan_next(work, x, c, hints, plan)
    } else {
        Ok(None)
    }
}

/// The one event that processor `c` may make, where it has read these numbers; None where it may make none, where there is
/// no such processor, and where the numbers are not what it reads in this state.
#[tactic(auto, using(sd_store::proofs::Among::among_left, sd_store::proofs::Among::among_right), unfolding(sd_machine::specs::Events::next, sd_machine::specs::Hints::reads, sd_machine::specs::Events::wish))]
pub fn next<L: Clock>(
    work: &Work,
    x: &L,
    c: CpuId,
    hints: &Option<Hints>,
) -> Result<Option<Event>, L::Lack>
    ensures value { TellsIf (L.shows x.now) result (λ s. (k : ChanIdOf) → CanCount s k) (λ s. next work.now s c hints.now) }
    ensures lack { LacksIf L.part (L.shows x.now) (L.has x.now) result (λ s. (k : ChanIdOf) → CanCount s k) (λ s. next_parts work.now s c hints.now) }
{
    if c.0 < work.cpus {
        let plan = plan(work, x, c)?;
        planned(work, x, c, hints, plan)
    } else {
        Ok(None)
    }
}
