//! The homes that a processor takes to find its event, and to make it.

ghost use Rattle.std.specs.Prelude.{◌≡◌, ◌||◌, ℕ, true, false, IfOk, MatchOption, option_map};
ghost use Rattle.sd_types.specs.declared.numbers.ChanId.{ChanId as ChanIdOf};
ghost use Rattle.sd_state.specs.declared.states.State.{State as StateOf};
ghost use Rattle.sd_machine.specs.Events.{plan_event};
ghost use Rattle.sd_machine.specs.Hints.{hints_fit, plan_reads};
ghost use Rattle.sd_machine.specs.Needs.{CanCount};
ghost use Rattle.sd_dispatcher.specs.Reading.{parts};
ghost use Rattle.sd_step.specs.Needed.{choice_parts, read_parts, reads_parts};
ghost use Rattle.sd_step.specs.Touched.{after_parts};
ghost use Rattle.sd_store.specs.Words.{Lacks, LacksIf, TellsIf};
ghost use Rattle.sd_hand.specs.Acting.{IsShown, has_part, the_part};
ghost use Rattle.sd_store.specs.declared.parts.Part.TheVariants.{Home, Thread};
ghost use Rattle.sd_world.specs.Worlds.{CanLock, CanTake};
ghost use Rattle.sd_cpu.specs.Gates.{holds_first};
ghost use Rattle.sd_cpu.specs.Has.{HasIn, ShowsOne};
ghost use Rattle.sd_cpu.specs.Seeking.{CanFetch, Fetches, FindsCourse, FindsEvent, GivesUp, HoldsAll, HoldsToMake, HoldsToRead, IsOnItsWay, IsReady, TellsCourse};

use crate::gate::{Gate, pass_once};
use crate::touching::touched;
use sd_dispatcher::Reading;
use sd_hand::Acting;
use sd_machine::Plan;
use sd_step::{plan, plan_event, plan_reads};
use sd_store::Part;
use sd_types::{Event, Hints, HomeId, ThreadId, Work};
use sd_world::{Take, ThreadLock, World};

/// What a processor is about to do, and what it reads for that.
#[derive(Drop)]
pub(crate) struct Course {
    pub plan: Plan,
    pub reading: Option<Reading>,
}

/// What the processor that acts reads for this plan.
fn course_of(work: &Work, x: &Acting, plan: Plan) -> Result<Course, Part>
    ensures value { IfOk result (λ r. (n : ℕ) (s : StateOf) → IsShown x.now n s → (r.plan ≡ plan) × (option_map parts r.reading ≡ plan_reads work.now s x.now.actor.cpu.0 plan)) }
    ensures lack { Lacks the_part (IsShown x.now) (has_part x.now) result (λ s. read_parts work.now s x.now.actor.cpu plan) }
{
    match plan_reads(work, x, x.actor.cpu, plan) {
        Ok(reading) => Ok(Course { plan, reading }),
        Err(part) => Err(part),
    }
}

/// The course of the processor that acts, as far as its hand shows it.
fn plan_course(work: &Work, x: &Acting) -> Result<Course, Part>
    ensures value { TellsCourse work.now x.now result }
    ensures lack { LacksIf the_part (IsShown x.now) (has_part x.now) result (λ s. (k : ChanIdOf) → CanCount s k) (λ s. reads_parts work.now s x.now.actor.cpu) }
{
    match plan(work, x, x.actor.cpu) {
        Ok(plan) => course_of(work, x, plan),
        Err(part) => Err(part),
    }
}

/// The event of its plan, with the numbers that were read for it.
fn planned_event(work: &Work, x: &Acting, hints: &Option<Hints>, plan: Plan) -> Result<Event, Part>
    ensures value { TellsIf (IsShown x.now) result (λ s. hints_fit (plan_reads work.now s x.now.actor.cpu.0 plan) hints.now ≡ true) (λ s. plan_event work.now s x.now.actor.cpu.0 hints.now plan) }
    ensures lack { LacksIf the_part (IsShown x.now) (has_part x.now) result (λ s. hints_fit (plan_reads work.now s x.now.actor.cpu.0 plan) hints.now ≡ true) (λ s. choice_parts work.now s x.now.actor.cpu hints.now plan) }
{
    plan_event(work, x, x.actor.cpu, hints, plan)
}

/// Its hand has all that the event touches, or lacks this part of it.
fn lacking(work: &Work, x: &Acting, event: Event) -> Result<(), Part>
    requires { ShowsOne x.now }
    ensures { HasIn x.now result (λ s. after_parts work.now s x.now.actor.cpu event) }
{
    touched(work, x, x.actor.cpu, event)
}

/// Takes the home of this number.
fn take_home<W: World>(world: &mut W, k: HomeId) -> bool
    requires good { W.good world.old }
    requires can { CanTake (W.meaning world.old) k }
    requires few { (W.meaning world.old).all ≡ false }
    ensures good { W.good world.new }
    ensures fetches { Fetches (W.meaning world.old) (W.meaning world.new) (Home k) result }
{
    match world.take(k) {
        Take::Taken => true,
        Take::Busy { .. } => false,
    }
}

/// Takes the home in which the thread stands.
fn take_thread<W: World>(world: &mut W, t: ThreadId) -> bool
    requires good { W.good world.old }
    requires can { CanLock (W.meaning world.old) t }
    requires few { (W.meaning world.old).all ≡ false }
    ensures good { W.good world.new }
    ensures fetches { Fetches (W.meaning world.old) (W.meaning world.new) (Thread t) result }
{
    match world.lock_thread(t) {
        ThreadLock::Held { .. } => true,
        ThreadLock::Busy { .. } => false,
        ThreadLock::Moved { .. } => false,
    }
}

/// Takes the home that has the part.
fn fetch<W: World>(world: &mut W, part: Part) -> bool
    requires good { W.good world.old }
    requires can { CanFetch (W.meaning world.old) part }
    ensures good { W.good world.new }
    ensures fetches { Fetches (W.meaning world.old) (W.meaning world.new) part result }
{
    match part {
        Part::Home(k) => take_home(world, k),
        Part::Thread(t) => take_thread(world, t),
        Part::Actor(_) => unreachable!(),
    }
}

/// Takes the homes that are needed for the course of the processor, which passes the gate with the one that it looks at first. `None`
/// where another processor is in the way.
pub(crate) fn find_course<W: World, G: Gate>(
    world: &mut W,
    gate: &G,
    work: &Work,
    turn: u64,
    passed: &mut bool,
) -> Option<Course>
    requires good { W.good world.old }
    requires work { work.now ≡ (W.meaning world.old).work }
    requires holds { HoldsToRead (W.meaning world.old) }
    ensures good { W.good world.new }
    ensures finds { MatchOption result (GivesUp (W.meaning world.old) (W.meaning world.new)) (FindsCourse (W.meaning world.old) (W.meaning world.new)) }
    ensures passes { passed.new ≡ passed.old || holds_first (W.meaning world.new).acting }
{
    *passed = pass_once(world, gate, turn, *passed);
    'seeking: loop {
        match plan_course(work, world.acting()) {
            Ok(course) => return Some(course),
            Err(part) => {
                if !fetch(world, part) {
                    return None;
                }
                *passed = pass_once(world, gate, turn, *passed);
            }
        }
    }
}

/// Takes the homes that are needed to find the event of this plan, with the numbers that were read for it.
pub(crate) fn find_event<W: World>(
    world: &mut W,
    work: &Work,
    plan: Plan,
    hints: &Option<Hints>,
) -> Option<Event>
    requires good { W.good world.old }
    requires work { work.now ≡ (W.meaning world.old).work }
    requires ready { IsReady (W.meaning world.old) plan hints.now }
    requires holds { HoldsToMake (W.meaning world.old) hints.now }
    ensures good { W.good world.new }
    ensures finds { MatchOption result (GivesUp (W.meaning world.old) (W.meaning world.new)) (FindsEvent (W.meaning world.old) (W.meaning world.new) hints.now) }
{
    'seeking: loop {
        match planned_event(work, world.acting(), hints, plan) {
            Ok(event) => return Some(event),
            Err(part) => {
                if !fetch(world, part) {
                    return None;
                }
            }
        }
    }
}

/// Takes the homes that the event touches.
pub(crate) fn hold_all<W: World>(world: &mut W, work: &Work, event: Event) -> bool
    requires good { W.good world.old }
    requires work { work.now ≡ (W.meaning world.old).work }
    requires way { IsOnItsWay (W.meaning world.old) event }
    ensures good { W.good world.new }
    ensures holds { HoldsAll (W.meaning world.old) (W.meaning world.new) event result }
{
    'seeking: loop {
        match lacking(work, world.acting(), event) {
            Ok(()) => return true,
            Err(part) => {
                if !fetch(world, part) {
                    return false;
                }
            }
        }
    }
}
