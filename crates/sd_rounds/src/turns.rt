//! The turn of a processor in a run on one thread of the host, which has all homes: by what one look tells (`sight.rt`) where that is enough, and
//! else by its plan and what it reads for that, each found once. Should its hand not show these, it makes an attempt, as where homes are shared.

ghost use Rattle.std.specs.Prelude.{◌≡◌, ℕ, ◌++◌, ◌-◌, ◌<◌, ◌≤◌, ◌↔◌, List, Option, IfErr, IfSome, Some, length, map, option_map, replicate, IsErrOf, OnErr, OnOk};
ghost use Rattle.sd_types.specs.declared.events.Duty.TheVariants.{Nothing};
ghost use Rattle.sd_types.specs.declared.events.Which.TheVariants.{Queued};
ghost use Rattle.sd_types.specs.declared.numbers.CpuId.{CpuId as CpuOf};
ghost use Rattle.sd_types.specs.Limits.{most_processors};
ghost use Rattle.sd_state.specs.declared.states.State.{State as StateOf};
ghost use Rattle.sd_state.specs.Operations.{op_of};
ghost use Rattle.sd_state.specs.States.{thread_of};
ghost use Rattle.sd_machine.specs.declared.plans.Plan.TheVariants.{Place, Search};
ghost use Rattle.sd_machine.specs.Choosing.{neighbours};
ghost use Rattle.sd_machine.specs.Dispatching.{dispatch_plan as plan_of_best};
ghost use Rattle.sd_machine.specs.Events.{allowed, next};
ghost use Rattle.sd_machine.specs.Hints.{hint_shown, plan_reads as reads_of, read_of};
ghost use Rattle.sd_machine.specs.Plans.{op_plan, plan as plan_of, run_plan};
ghost use Rattle.sd_machine.specs.Prioritising.{age_plan};
ghost use Rattle.sd_machine.specs.Runs.{made, serial_hints, shown, turn};
ghost use Rattle.sd_machine.specs.Threads.{best_ready};
ghost use Rattle.sd_dispatcher.specs.Reading.{parts};
ghost use Rattle.sd_hand.specs.Acting.{IsShown};
ghost use Rattle.sd_hand.specs.Ranked.{ranked_in};
ghost use Rattle.sd_world.specs.Plain.{AreCpus, Stands, told};
ghost use Rattle.sd_rounds.specs.Floors.{IsFloor};
ghost use Rattle.sd_rounds.specs.Searched.{IsSearched};
ghost use Rattle.sd_rounds.specs.Surveys.{IsSurvey};

use crate::sight::{Searched, Sight, see};
use crate::survey::{Survey, open_around, take_survey};
use crate::ticks::{come_idle, come_tick, reserve};
use arrayvec::ArrayVec;
use sd_cpu::{OpenGate, attempt};
use sd_dispatcher::{Reading, search_event};
use sd_hand::Acting;
use sd_machine::{Placement, Plan};
use sd_priocntl::age_plan;
use sd_step::{plan, plan_event_read, plan_reads, run_plan, runner_plan, unread_event};
use sd_types::{CpuId, Event, Hints, MOST_ENTRIES, Stop, ThreadId, Which, Work};
use sd_world::PlainWorld;

/// What the processor that acts is about to do, as far as the homes show it.
fn find_plan(work: &Work, world: &PlainWorld) -> Option<Plan>
    requires { Stands work.now world.now }
    ensures { IfSome result (λ p. p ≡ plan_of work.now (told work.now world.now) world.now.acting.actor.cpu.0) }
{
    match plan(work, &world.acting, world.acting.actor.cpu) {
        Ok(plan) => Some(plan),
        Err(_) => None,
    }
}

/// Makes the event, for which there is memory, where it may come now.
#[inline(always)]
fn come(work: &Work, world: &mut PlainWorld, event: Event, hints: Option<Hints>) -> Result<(), Stop>
    requires stands { Stands work.now world.old }
    requires work { world.old.work.now ≡ work.now }
    requires few { length world.old.entries.items < MOST_ENTRIES }
    requires event { next work.now (told work.now world.old) world.old.acting.actor.cpu hints ≡ allowed work.now (told work.now world.old) world.old.acting.actor.cpu.0 event }
    ensures stands { Stands work.now world.new }
    ensures work { world.new.work.now ≡ work.now }
    ensures entries { OnOk result (world.new.entries.items ≡ world.old.entries.items
        ++ made (length world.old.entries.items) world.old.acting.actor.cpu hints (next work.now (told work.now world.old) world.old.acting.actor.cpu hints)) }
    ensures stop { IfErr result (λ stop. (stop ≡ Stop.Memory) × (world.new.entries.items ≡ world.old.entries.items)) }
{
    if event.ticks() && !world.may_tick(work) {
        return Ok(());
    }
    reserve(work, world)?;
    world.make(work, &hints, event);
    Ok(())
}

/// An idle tick after a search in a set with so many open processors, of which all others show 0. A processor without neighbours has read
/// nothing.
#[inline(always)]
fn end_search(work: &Work, world: &mut PlainWorld, floor: &mut u32, cpus: usize) -> Result<(), Stop>
    requires stands { Stands work.now world.old }
    requires least { IsFloor work.now (told work.now world.old) floor.old }
    requires work { world.old.work.now ≡ work.now }
    requires few { length world.old.entries.items < MOST_ENTRIES }
    requires duty { world.old.acting.actor.duty ≡ Nothing }
    requires plan { Search ≡ plan_of work.now (told work.now world.old) world.old.acting.actor.cpu.0 }
    requires fits { cpus ≤ most_processors }
    requires numbers { replicate (cpus - 1) 0 ≡ map (hint_shown (told work.now world.old) Queued) (neighbours (told work.now world.old) world.old.acting.actor.cpu.0) }
    ensures stands { Stands work.now world.new }
    ensures work { world.new.work.now ≡ work.now }
    ensures entries { OnOk result (world.new.entries.items ≡ world.old.entries.items ++ turn work.now (told work.now world.old) (length world.old.entries.items) world.old.acting.actor.cpu) }
    ensures stop { IfErr result (λ stop. (stop ≡ Stop.Memory) × (world.new.entries.items ≡ world.old.entries.items)) }
    ensures least { IsFloor work.now (told work.now world.old) floor.new }
{
    come_idle(work, world, floor, cpus.saturating_sub(1))
}

/// The turn of the processor that acts, by an attempt: where its hand does not show its plan, or what it reads for that.
#[inline(never)]
fn attempt_turn(work: &Work, world: &mut PlainWorld) -> Result<(), Stop>
    requires stands { Stands work.now world.old }
    requires work { world.old.work.now ≡ work.now }
    requires few { length world.old.entries.items < MOST_ENTRIES }
    ensures stands { Stands work.now world.new }
    ensures work { world.new.work.now ≡ work.now }
    ensures entries { OnOk result (world.new.entries.items ≡ world.old.entries.items ++ turn work.now (told work.now world.old) (length world.old.entries.items) world.old.acting.actor.cpu) }
    ensures stop { IfErr result (λ stop. (stop ≡ Stop.Memory) × (world.new.entries.items ≡ world.old.entries.items)) }
{
    match attempt(world, &OpenGate, work, 0, false) {
        Ok(_) => Ok(()),
        Err(stop) => Err(stop),
    }
}

/// The numbers that the processor reads, as the state shows them.
fn read(work: &Work, world: &PlainWorld, reading: &Option<Reading>) -> Option<Hints>
    requires stands { Stands work.now world.now }
    requires there { IfSome reading.now (λ r. AreCpus work.now r.cpus.items) }
    ensures { result ≡ shown (told work.now world.now) (option_map parts reading.now) }
{
    match reading {
        None => None,
        Some(taken) => Some(Hints {
            which: taken.which,
            numbers: world.numbers(work, taken.which, taken.cpus.as_slice()),
        }),
    }
}

/// Makes the event to which the processor comes with the numbers of the state, where it may come now.
#[inline(always)]
fn come_alone(
    work: &Work,
    world: &mut PlainWorld,
    event: Event,
    hints: Option<Hints>,
) -> Result<(), Stop>
    requires stands { Stands work.now world.old }
    requires work { world.old.work.now ≡ work.now }
    requires few { length world.old.entries.items < MOST_ENTRIES }
    requires hints { hints ≡ serial_hints work.now (told work.now world.old) world.old.acting.actor.cpu }
    requires event { next work.now (told work.now world.old) world.old.acting.actor.cpu hints ≡ allowed work.now (told work.now world.old) world.old.acting.actor.cpu.0 event }
    ensures stands { Stands work.now world.new }
    ensures work { world.new.work.now ≡ work.now }
    ensures entries { OnOk result (world.new.entries.items ≡ world.old.entries.items ++ turn work.now (told work.now world.old) (length world.old.entries.items) world.old.acting.actor.cpu) }
    ensures stop { IfErr result (λ stop. (stop ≡ Stop.Memory) × (world.new.entries.items ≡ world.old.entries.items)) }
{
    come(work, world, event, hints)?;
    Ok(())
}

/// The turn of a processor whose plan this is, and that reads these numbers for it.
fn act_with(
    work: &Work,
    world: &mut PlainWorld,
    plan: Plan,
    reading: &Option<Reading>,
) -> Result<(), Stop>
    requires stands { Stands work.now world.old }
    requires work { world.old.work.now ≡ work.now }
    requires few { length world.old.entries.items < MOST_ENTRIES }
    requires plan { plan ≡ plan_of work.now (told work.now world.old) world.old.acting.actor.cpu.0 }
    requires reads { option_map parts reading.now ≡ reads_of work.now (told work.now world.old) world.old.acting.actor.cpu.0 plan }
    ensures stands { Stands work.now world.new }
    ensures work { world.new.work.now ≡ work.now }
    ensures entries { OnOk result (world.new.entries.items ≡ world.old.entries.items ++ turn work.now (told work.now world.old) (length world.old.entries.items) world.old.acting.actor.cpu) }
    ensures stop { IfErr result (λ stop. (stop ≡ Stop.Memory) × (world.new.entries.items ≡ world.old.entries.items)) }
{
    let hints = read(work, world, reading);
    match plan_event_read(
        work,
        &world.acting,
        world.acting.actor.cpu,
        reading,
        &hints,
        plan,
    ) {
        Ok(event) => come_alone(work, world, event, hints),
        Err(_) => attempt_turn(work, world),
    }
}

/// The turn of a processor whose plan this is, and that reads for it what it has to.
fn act_by_reading(work: &Work, world: &mut PlainWorld, plan: Plan) -> Result<(), Stop>
    requires stands { Stands work.now world.old }
    requires work { world.old.work.now ≡ work.now }
    requires few { length world.old.entries.items < MOST_ENTRIES }
    requires plan { plan ≡ plan_of work.now (told work.now world.old) world.old.acting.actor.cpu.0 }
    ensures stands { Stands work.now world.new }
    ensures work { world.new.work.now ≡ work.now }
    ensures entries { OnOk result (world.new.entries.items ≡ world.old.entries.items ++ turn work.now (told work.now world.old) (length world.old.entries.items) world.old.acting.actor.cpu) }
    ensures stop { IfErr result (λ stop. (stop ≡ Stop.Memory) × (world.new.entries.items ≡ world.old.entries.items)) }
{
    match plan_reads(work, &world.acting, world.acting.actor.cpu, plan) {
        Ok(reading) => act_with(work, world, plan, &reading),
        Err(_) => attempt_turn(work, world),
    }
}

/// The turn of a processor whose plan is to put a thread somewhere: at once where it reads nothing for that.
fn act_by_place(
    work: &Work,
    world: &mut PlainWorld,
    placement: Placement,
    p: u8,
) -> Result<(), Stop>
    requires stands { Stands work.now world.old }
    requires work { world.old.work.now ≡ work.now }
    requires few { length world.old.entries.items < MOST_ENTRIES }
    requires plan { Place placement p ≡ plan_of work.now (told work.now world.old) world.old.acting.actor.cpu.0 }
    ensures stands { Stands work.now world.new }
    ensures work { world.new.work.now ≡ work.now }
    ensures entries { OnOk result (world.new.entries.items ≡ world.old.entries.items ++ turn work.now (told work.now world.old) (length world.old.entries.items) world.old.acting.actor.cpu) }
    ensures stop { IfErr result (λ stop. (stop ≡ Stop.Memory) × (world.new.entries.items ≡ world.old.entries.items)) }
{
    match unread_event(work, &world.acting, world.acting.actor.cpu, placement, p) {
        Ok(Some(event)) => come_alone(work, world, event, None),
        Ok(None) => act_by_reading(work, world, Plan::Place(placement, p)),
        Err(_) => attempt_turn(work, world),
    }
}

/// The turn of a processor whose plan this is. Most plans read nothing.
#[inline(always)]
fn act_on(work: &Work, world: &mut PlainWorld, plan: Plan) -> Result<(), Stop>
    requires stands { Stands work.now world.old }
    requires work { world.old.work.now ≡ work.now }
    requires few { length world.old.entries.items < MOST_ENTRIES }
    requires plan { plan ≡ plan_of work.now (told work.now world.old) world.old.acting.actor.cpu.0 }
    ensures stands { Stands work.now world.new }
    ensures work { world.new.work.now ≡ work.now }
    ensures entries { OnOk result (world.new.entries.items ≡ world.old.entries.items ++ turn work.now (told work.now world.old) (length world.old.entries.items) world.old.acting.actor.cpu) }
    ensures stop { IfErr result (λ stop. (stop ≡ Stop.Memory) × (world.new.entries.items ≡ world.old.entries.items)) }
{
    match plan {
        Plan::Make(event) => come_alone(work, world, event, None),
        Plan::Place(placement, p) => act_by_place(work, world, placement, p),
        Plan::Search => act_by_reading(work, world, Plan::Search),
    }
}

/// The turn of a processor that makes a plan.
#[inline(never)]
fn act_by_plan(work: &Work, world: &mut PlainWorld) -> Result<(), Stop>
    requires stands { Stands work.now world.old }
    requires work { world.old.work.now ≡ work.now }
    requires few { length world.old.entries.items < MOST_ENTRIES }
    ensures stands { Stands work.now world.new }
    ensures work { world.new.work.now ≡ work.now }
    ensures entries { OnOk result (world.new.entries.items ≡ world.old.entries.items ++ turn work.now (told work.now world.old) (length world.old.entries.items) world.old.acting.actor.cpu) }
    ensures stop { IfErr result (λ stop. (stop ≡ Stop.Memory) × (world.new.entries.items ≡ world.old.entries.items)) }
{
    match find_plan(work, world) {
        Some(plan) => act_on(work, world, plan),
        None => attempt_turn(work, world),
    }
}

/// What thread `t`, which runs on the processor that acts and need not leave it, is about to do, as far as the homes show it.
#[inline(always)]
fn runner_of(work: &Work, world: &PlainWorld, t: ThreadId) -> Option<Plan>
    requires { Stands work.now world.now }
    ensures { IfSome result (λ p. p ≡ op_plan work.now (told work.now world.now) t.0 (op_of work.now t.0 (thread_of (told work.now world.now) t.0).body)) }
{
    match runner_plan(work, &world.acting, t) {
        Ok(plan) => Some(plan),
        Err(_) => None,
    }
}

/// The turn of a processor on which thread `t` runs and need not leave it.
#[inline(never)]
fn act_by_runner(work: &Work, world: &mut PlainWorld, t: ThreadId) -> Result<(), Stop>
    requires stands { Stands work.now world.old }
    requires work { world.old.work.now ≡ work.now }
    requires few { length world.old.entries.items < MOST_ENTRIES }
    requires plan { op_plan work.now (told work.now world.old) t.0 (op_of work.now t.0 (thread_of (told work.now world.old) t.0).body) ≡ plan_of work.now (told work.now world.old) world.old.acting.actor.cpu.0 }
    ensures stands { Stands work.now world.new }
    ensures work { world.new.work.now ≡ work.now }
    ensures entries { OnOk result (world.new.entries.items ≡ world.old.entries.items ++ turn work.now (told work.now world.old) (length world.old.entries.items) world.old.acting.actor.cpu) }
    ensures stop { IfErr result (λ stop. (stop ≡ Stop.Memory) × (world.new.entries.items ≡ world.old.entries.items)) }
{
    match runner_of(work, world, t) {
        Some(plan) => act_on(work, world, plan),
        None => attempt_turn(work, world),
    }
}

/// What the processor that acts does, on which thread `t` runs, as far as the homes show it.
#[inline(always)]
fn marked_of(work: &Work, world: &PlainWorld, t: ThreadId) -> Option<Plan>
    requires { Stands work.now world.now }
    ensures { IfSome result (λ p. p ≡ run_plan work.now (told work.now world.now) world.now.acting.actor.cpu.0 t.0) }
{
    match run_plan(work, &world.acting, world.acting.actor.cpu, t) {
        Ok(plan) => Some(plan),
        Err(_) => None,
    }
}

/// The turn of a processor with a mark, on which thread `t` runs.
#[inline(never)]
fn act_by_mark(work: &Work, world: &mut PlainWorld, t: ThreadId) -> Result<(), Stop>
    requires stands { Stands work.now world.old }
    requires work { world.old.work.now ≡ work.now }
    requires few { length world.old.entries.items < MOST_ENTRIES }
    requires plan { run_plan work.now (told work.now world.old) world.old.acting.actor.cpu.0 t.0 ≡ plan_of work.now (told work.now world.old) world.old.acting.actor.cpu.0 }
    ensures stands { Stands work.now world.new }
    ensures work { world.new.work.now ≡ work.now }
    ensures entries { OnOk result (world.new.entries.items ≡ world.old.entries.items ++ turn work.now (told work.now world.old) (length world.old.entries.items) world.old.acting.actor.cpu) }
    ensures stop { IfErr result (λ stop. (stop ≡ Stop.Memory) × (world.new.entries.items ≡ world.old.entries.items)) }
{
    match marked_of(work, world, t) {
        Some(plan) => act_on(work, world, plan),
        None => attempt_turn(work, world),
    }
}

/// That thread `t` of its queue is aged, as far as the homes show it.
#[inline(always)]
fn ageing_of(work: &Work, world: &PlainWorld, t: ThreadId) -> Option<Plan>
    requires { Stands work.now world.now }
    ensures { IfSome result (λ p. Some p ≡ age_plan work.now (told work.now world.now) (Some t.0)) }
{
    match age_plan(work, &world.acting, Some(t)) {
        Ok(plan) => plan,
        Err(_) => None,
    }
}

/// The turn of a processor that ages thread `t` of its queue.
#[inline(never)]
fn act_by_age(work: &Work, world: &mut PlainWorld, t: ThreadId) -> Result<(), Stop>
    requires stands { Stands work.now world.old }
    requires work { world.old.work.now ≡ work.now }
    requires few { length world.old.entries.items < MOST_ENTRIES }
    requires plan { age_plan work.now (told work.now world.old) (Some t.0) ≡ Some (plan_of work.now (told work.now world.old) world.old.acting.actor.cpu.0) }
    ensures stands { Stands work.now world.new }
    ensures work { world.new.work.now ≡ work.now }
    ensures entries { OnOk result (world.new.entries.items ≡ world.old.entries.items ++ turn work.now (told work.now world.old) (length world.old.entries.items) world.old.acting.actor.cpu) }
    ensures stop { IfErr result (λ stop. (stop ≡ Stop.Memory) × (world.new.entries.items ≡ world.old.entries.items)) }
{
    match ageing_of(work, world, t) {
        Some(plan) => act_on(work, world, plan),
        None => attempt_turn(work, world),
    }
}

/// The best that is ready, found with its effective priority, is dispatched; where nothing is, a search begins.
#[inline(always)]
fn dispatch_found(best: Option<(ThreadId, u8)>) -> Plan
    ensures { (s : StateOf) (t : Option ℕ) → best ≡ option_map (ranked_in s) t → result ≡ plan_of_best s t }
{
    match best {
        None => Plan::Search,
        Some((t, p)) => Plan::Make(Event::Dispatch { t, p }),
    }
}

/// What the processor that acts does where no thread runs on it: it dispatches the best that is ready.
#[inline(always)]
fn dispatch_of(x: &Acting) -> Option<Plan>
    ensures { IfSome result (λ p. (n : ℕ) (s : StateOf) → IsShown x.now n s → p ≡ plan_of_best s (best_ready s x.now.actor.cpu.0)) }
{
    match x.best_ready_ranked(x.actor.cpu) {
        Ok(best) => Some(dispatch_found(best)),
        Err(_) => None,
    }
}

/// The turn of a processor on which no thread runs, and for which one may be ready.
#[inline(never)]
fn act_by_dispatch(work: &Work, world: &mut PlainWorld) -> Result<(), Stop>
    requires stands { Stands work.now world.old }
    requires work { world.old.work.now ≡ work.now }
    requires few { length world.old.entries.items < MOST_ENTRIES }
    requires plan { plan_of_best (told work.now world.old) (best_ready (told work.now world.old) world.old.acting.actor.cpu.0) ≡ plan_of work.now (told work.now world.old) world.old.acting.actor.cpu.0 }
    ensures stands { Stands work.now world.new }
    ensures work { world.new.work.now ≡ work.now }
    ensures entries { OnOk result (world.new.entries.items ≡ world.old.entries.items ++ turn work.now (told work.now world.old) (length world.old.entries.items) world.old.acting.actor.cpu) }
    ensures stop { IfErr result (λ stop. (stop ≡ Stop.Memory) × (world.new.entries.items ≡ world.old.entries.items)) }
{
    match dispatch_of(&world.acting) {
        Some(plan) => act_on(work, world, plan),
        None => attempt_turn(work, world),
    }
}

/// The numbers of a search as an entry records them: of no processor nothing was read.
#[inline(always)]
fn hints_of(numbers: ArrayVec<u8, 64>) -> Option<Hints>
    ensures { (s : StateOf) (cpus : List CpuOf) → numbers.items ≡ map (hint_shown s Queued) cpus → result ≡ shown s (read_of cpus) }
{
    if numbers.is_empty() {
        return None;
    }
    Some(Hints {
        which: Which::Queued,
        numbers,
    })
}

/// The turn of a processor that searches, and that reads this.
fn act_by_survey(work: &Work, world: &mut PlainWorld, found: Survey) -> Result<(), Stop>
    requires stands { Stands work.now world.old }
    requires work { world.old.work.now ≡ work.now }
    requires few { length world.old.entries.items < MOST_ENTRIES }
    requires plan { Search ≡ plan_of work.now (told work.now world.old) world.old.acting.actor.cpu.0 }
    requires survey { IsSurvey (told work.now world.old) (neighbours (told work.now world.old) world.old.acting.actor.cpu.0) found }
    ensures stands { Stands work.now world.new }
    ensures work { world.new.work.now ≡ work.now }
    ensures entries { OnOk result (world.new.entries.items ≡ world.old.entries.items ++ turn work.now (told work.now world.old) (length world.old.entries.items) world.old.acting.actor.cpu) }
    ensures stop { IfErr result (λ stop. (stop ≡ Stop.Memory) × (world.new.entries.items ≡ world.old.entries.items)) }
{
    match search_event(&world.acting, found.victim) {
        Ok(event) => {
            let hints = hints_of(found.numbers);
            come_alone(work, world, event, hints)
        }
        Err(_) => attempt_turn(work, world),
    }
}

/// The turn of a processor that searches: by one walk along the processors of its set.
#[inline(never)]
fn act_by_search(work: &Work, world: &mut PlainWorld) -> Result<(), Stop>
    requires stands { Stands work.now world.old }
    requires work { world.old.work.now ≡ work.now }
    requires few { length world.old.entries.items < MOST_ENTRIES }
    requires plan { Search ≡ plan_of work.now (told work.now world.old) world.old.acting.actor.cpu.0 }
    ensures stands { Stands work.now world.new }
    ensures work { world.new.work.now ≡ work.now }
    ensures entries { OnOk result (world.new.entries.items ≡ world.old.entries.items ++ turn work.now (told work.now world.old) (length world.old.entries.items) world.old.acting.actor.cpu) }
    ensures stop { IfErr result (λ stop. (stop ≡ Stop.Memory) × (world.new.entries.items ≡ world.old.entries.items)) }
{
    match open_around(&world.acting) {
        None => attempt_turn(work, world),
        Some(cpus) => {
            let found = take_survey(work, world, cpus);
            act_by_survey(work, world, found)
        }
    }
}

/// The turn of the processor that acts, by one look or by its plan. Where it searches and one look finds nothing to steal, this is so in its
/// set until an entry comes that is neither a tick of a thread nor an idle one. Each look answers on its own, so that the compiler sees that
/// most turns end well, and asks nothing after them.
#[inline(always)]
fn act(
    work: &Work,
    world: &mut PlainWorld,
    floor: &mut u32,
    searched: &mut Option<Searched>,
) -> Result<(), Stop>
    requires stands { Stands work.now world.old }
    requires least { IsFloor work.now (told work.now world.old) floor.old }
    requires searched { IsSearched (told work.now world.old) searched.old }
    requires work { world.old.work.now ≡ work.now }
    requires few { length world.old.entries.items < MOST_ENTRIES }
    ensures stands { Stands work.now world.new }
    ensures work { world.new.work.now ≡ work.now }
    ensures entries { OnOk result (world.new.entries.items ≡ world.old.entries.items ++ turn work.now (told work.now world.old) (length world.old.entries.items) world.old.acting.actor.cpu) }
    ensures stop { IfErr result (λ stop. (stop ≡ Stop.Memory) × (world.new.entries.items ≡ world.old.entries.items)) }
    ensures least { IsFloor work.now (told work.now world.old) floor.new }
    ensures searched { IsSearched (told work.now world.new) searched.new }
{
    match see(work, &world.acting, searched) {
        Sight::Runs { t, expires } => {
            come_tick(work, world, floor, t, expires)?;
            Ok(())
        }
        Sight::Acts(t) => {
            *searched = None;
            act_by_runner(work, world, t)
        }
        Sight::Marked(t) => {
            *searched = None;
            act_by_mark(work, world, t)
        }
        Sight::Ages(t) => {
            *searched = None;
            act_by_age(work, world, t)
        }
        Sight::Idles(found) => {
            end_search(work, world, floor, found.cpus)?;
            Ok(())
        }
        Sight::Searches => {
            *searched = None;
            act_by_search(work, world)
        }
        Sight::Ready => {
            *searched = None;
            act_by_dispatch(work, world)
        }
        Sight::Unclear => {
            *searched = None;
            act_by_plan(work, world)
        }
    }
}

/// The turn of processor `c`: it makes its entry, where it has one. No processor's count is below the floor before it, and there is nothing to steal in the
/// set that was searched, after it too. `Full` exactly where the log holds 2^40 entries or more; so
/// memory runs out only where it holds fewer, and the entries are then as they were.
#[inline(always)]
pub(crate) fn take_turn(
    work: &Work,
    world: &mut PlainWorld,
    floor: &mut u32,
    searched: &mut Option<Searched>,
    c: CpuId,
) -> Result<(), Stop>
    requires stands { Stands work.now world.old }
    requires least { IsFloor work.now (told work.now world.old) floor.old }
    requires searched { IsSearched (told work.now world.old) searched.old }
    requires work { world.old.work.now ≡ work.now }
    ensures stands { Stands work.now world.new }
    ensures work { world.new.work.now ≡ work.now }
    ensures entries { OnOk result (world.new.entries.items ≡ world.old.entries.items ++ turn work.now (told work.now world.old) (length world.old.entries.items) c) }
    ensures room { OnOk result (length world.new.entries.items ≤ MOST_ENTRIES) }
    ensures begins { OnOk result (length world.old.entries.items < MOST_ENTRIES) }
    ensures full { IsErrOf result Stop.Full ↔ (MOST_ENTRIES ≤ length world.old.entries.items) }
    ensures memory { IsErrOf result Stop.Memory → length world.old.entries.items < MOST_ENTRIES }
    ensures kept { OnErr result (world.new.entries.items ≡ world.old.entries.items) }
    ensures least { IsFloor work.now (told work.now world.old) floor.new }
    ensures searched { IsSearched (told work.now world.new) searched.new }
{
    if world.entries.len() >= MOST_ENTRIES {
        return Err(Stop::Full);
    }
    if c.0 >= work.cpus {
        return Ok(());
    }
    world.act_as(work, c);
    act(work, world, floor, searched)
}
