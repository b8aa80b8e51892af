//! One step of a run on its homes.

ghost use Rattle.std.specs.Prelude.{◌≡◌, ◌↔◌, ◌+◌, ◌++◌, ◌<◌, ◌∷◌, [], length, option_map, true, IfOk, IsTrue, OnErr, OnOk};
ghost use Rattle.std.specs.Bool.{OnFalse, OnTrue};
ghost use Rattle.sd_machine.specs.Events.{after, allowed, next, plan_event};
ghost use Rattle.sd_machine.specs.Hints.{hints_fit as fit, plan_reads as reads_of};
ghost use Rattle.sd_machine.specs.Plans.{plan as plan_in};
ghost use Rattle.sd_machine.specs.Runs.{IsStep};
ghost use Rattle.sd_dispatcher.specs.Reading.{parts};
ghost use Rattle.sd_world.specs.Plain.{Stands, told};

use sd_dispatcher::{Reading, hints_fit};
use sd_machine::Plan;
use sd_replay::same_event;
use sd_step::{plan, plan_event_read, plan_reads};
use sd_types::{Entry, Event, Hints, MOST_ENTRIES, Work};
use sd_world::PlainWorld;
use std::alloc::AllocError;

/// What the processor that acts is about to do.
fn plan_of(work: &Work, world: &PlainWorld) -> Plan
    requires stands { Stands work.now world.now }
    ensures { result ≡ plan_in work.now (told work.now world.now) world.now.acting.actor.cpu.0 }
{
    match plan(work, &world.acting, world.acting.actor.cpu) {
        Ok(plan) => plan,
        Err(_) => unreachable!(),
    }
}

/// What the processor that acts reads for its plan.
fn reading_of(work: &Work, world: &PlainWorld, plan: Plan) -> Option<Reading>
    requires stands { Stands work.now world.now }
    requires plan { plan ≡ plan_in work.now (told work.now world.now) world.now.acting.actor.cpu.0 }
    ensures { option_map parts result ≡ reads_of work.now (told work.now world.now) world.now.acting.actor.cpu.0 plan }
{
    match plan_reads(work, &world.acting, world.acting.actor.cpu, plan) {
        Ok(reading) => reading,
        Err(_) => unreachable!(),
    }
}

/// The event of its plan, whether or not it may come now, with numbers that fit what it reads.
fn event_of(
    work: &Work,
    world: &PlainWorld,
    plan: Plan,
    reading: &Option<Reading>,
    hints: &Option<Hints>,
) -> Event
    requires stands { Stands work.now world.now }
    requires plan { plan ≡ plan_in work.now (told work.now world.now) world.now.acting.actor.cpu.0 }
    requires reads { option_map parts reading.now ≡ reads_of work.now (told work.now world.now) world.now.acting.actor.cpu.0 plan }
    requires hints { fit (reads_of work.now (told work.now world.now) world.now.acting.actor.cpu.0 plan) hints.now ≡ true }
    ensures { result ≡ plan_event work.now (told work.now world.now) world.now.acting.actor.cpu.0 hints.now plan }
{
    match plan_event_read(
        work,
        &world.acting,
        world.acting.actor.cpu,
        reading,
        hints,
        plan,
    ) {
        Ok(event) => event,
        Err(_) => unreachable!(),
    }
}

/// An event of the processor that acts, where it may come now: it may tick, where the event ticks.
fn allowed(work: &Work, world: &PlainWorld, event: Event) -> Option<Event>
    requires stands { Stands work.now world.now }
    ensures { result ≡ allowed work.now (told work.now world.now) world.now.acting.actor.cpu.0 event }
{
    if !event.ticks() || world.may_tick(work) {
        Some(event)
    } else {
        None
    }
}

/// The one event that the processor that acts may make, where it has read these numbers; None where it may make none, and where the
/// numbers are not what it reads in this state.
pub fn next_event(work: &Work, world: &PlainWorld, hints: &Option<Hints>) -> Option<Event>
    requires stands { Stands work.now world.now }
    ensures { result ≡ next work.now (told work.now world.now) world.now.acting.actor.cpu hints.now }
{
    let plan = plan_of(work, world);
    let reading = reading_of(work, world, plan);
    if !hints_fit(&reading, hints) {
        return None;
    }
    allowed(work, world, event_of(work, world, plan, &reading, hints))
}

/// Makes room for an entry.
fn reserve(work: &Work, world: &mut PlainWorld) -> Result<(), AllocError>
    requires stands { Stands work.now world.old }
    ensures stands { Stands work.now world.new }
    ensures same { (world.new.work ≡ world.old.work) × (world.new.acting ≡ world.old.acting) × (world.new.entries.items ≡ world.old.entries.items) }
    ensures room { OnOk result (0 < world.new.entries.room) }
{
    world.entries.reserve()
}

/// Makes the event of the processor that acts, as an entry behind the others. `Err` only where memory runs out, and then nothing
/// is made.
fn make(
    work: &Work,
    world: &mut PlainWorld,
    hints: &Option<Hints>,
    event: Event,
) -> Result<(), AllocError>
    requires stands { Stands work.now world.old }
    requires few { length world.old.entries.items < MOST_ENTRIES }
    requires next { next work.now (told work.now world.old) world.old.acting.actor.cpu hints.now ≡ Some event }
    ensures stands { Stands work.now world.new }
    ensures work { world.new.work ≡ world.old.work }
    ensures entries { OnOk result (world.new.entries.items ≡ world.old.entries.items
        ++ record { number = length world.old.entries.items; cpu = world.old.acting.actor.cpu; event = event; hints = hints.now } ∷ []) }
    ensures kept { OnErr result (world.new.entries.items ≡ world.old.entries.items) }
{
    reserve(work, world)?;
    world.make(work, hints, event);
    Ok(())
}

/// Makes the entry where the processor that acts may make it.
fn step_as(work: &Work, world: &mut PlainWorld, entry: &Entry) -> Result<bool, AllocError>
    requires stands { Stands work.now world.old }
    requires acts { world.old.acting.actor.cpu ≡ entry.now.cpu }
    requires number { entry.now.number ≡ length world.old.entries.items }
    requires few { length world.old.entries.items < MOST_ENTRIES }
    ensures stands { Stands work.now world.new }
    ensures work { world.new.work ≡ world.old.work }
    ensures step { IfOk result (λ is_step. IsTrue is_step ↔ IsStep work.now (told work.now world.old) entry.now) }
    ensures made { IfOk result (λ is_step. OnTrue is_step (world.new.entries.items ≡ world.old.entries.items ++ entry.now ∷ [])) }
    ensures kept { IfOk result (λ is_step. OnFalse is_step (world.new.entries.items ≡ world.old.entries.items)) }
    ensures memory { OnErr result (world.new.entries.items ≡ world.old.entries.items) }
{
    match next_event(work, world, &entry.hints) {
        Some(event) if same_event(&event, &entry.event) => {
            make(work, world, &entry.hints, event)?;
            Ok(true)
        }
        _ => Ok(false),
    }
}

/// True exactly where the entry, whose number is that of the entries so far, is a step from the state to which they led, which it
/// then makes: it stands behind them, and the homes tell the next state. With false, and where memory runs out, entries and state are
/// as before.
pub fn step(work: &Work, world: &mut PlainWorld, entry: &Entry) -> Result<bool, AllocError>
    requires stands { Stands work.now world.old }
    requires number { entry.now.number ≡ length world.old.entries.items }
    requires few { length world.old.entries.items < MOST_ENTRIES }
    ensures stands { Stands work.now world.new }
    ensures work { world.new.work ≡ world.old.work }
    ensures step { IfOk result (λ is_step. IsTrue is_step ↔ IsStep work.now (told work.now world.old) entry.now) }
    ensures made { IfOk result (λ is_step. OnTrue is_step (told work.now world.new ≡ after work.now (told work.now world.old) entry.now.number entry.now.cpu entry.now.event)) }
    ensures entries { IfOk result (λ is_step. OnTrue is_step (world.new.entries.items ≡ world.old.entries.items ++ entry.now ∷ [])) }
    ensures more { IfOk result (λ is_step. OnTrue is_step (length world.new.entries.items ≡ entry.now.number + 1)) }
    ensures kept { IfOk result (λ is_step. OnFalse is_step (world.new.entries.items ≡ world.old.entries.items)) }
    ensures memory { OnErr result (world.new.entries.items ≡ world.old.entries.items) }
{
    if entry.cpu.0 >= work.cpus {
        return Ok(false);
    }
    world.act_as(work, entry.cpu);
    step_as(work, world, entry)
}
