//! The entries of most turns: a thread runs for a tick, or a processor is idle for one. They are made as any entry is, but of an event that
//! the compiler knows.

ghost use Rattle.std.specs.Prelude.{◌≡◌, ◌++◌, ◌<◌, ◌≤◌, ◌∷◌, [], None, Some, length, IfErr, OnOk};
ghost use Rattle.sd_types.specs.declared.events.Duty.TheVariants.{Nothing};
ghost use Rattle.sd_types.specs.declared.events.Event.TheVariants.{Idle as IdleEvent, Tick as TickEvent};
ghost use Rattle.sd_machine.specs.Events.{allowed, may_tick, next};
ghost use Rattle.sd_machine.specs.Runs.{final_state, serial_hints, turn};
ghost use Rattle.sd_rules.specs.ClassRules.{class_expires};
ghost use Rattle.sd_state.specs.States.{thread_of};
ghost use Rattle.sd_types.specs.Limits.{most_processors};
ghost use Rattle.sd_log.specs.Parts.{zeros_read};
ghost use Rattle.sd_world.specs.Entries.{CanEnter, Enters};
ghost use Rattle.sd_world.specs.Plain.{Stands, told};
ghost use Rattle.sd_rounds.specs.Floors.{IsFloor};

use sd_basics::known;
use sd_dispatcher::ticked_as;
use sd_hand::{Acting, Actor};
use sd_log::EntryLog;
use sd_store::Store;
use sd_types::{Event, MOST_ENTRIES, Stop, ThreadId, Work};
use sd_world::PlainWorld;

/// Makes room for an entry. `Memory` where memory runs out, and no other error.
#[inline(always)]
pub(crate) fn reserve(work: &Work, world: &mut PlainWorld) -> Result<(), Stop>
    requires stands { Stands work.now world.old }
    requires few { length world.old.entries.items < MOST_ENTRIES }
    ensures stands { Stands work.now world.new }
    ensures same { (world.new.work ≡ world.old.work) × (world.new.acting ≡ world.old.acting) × (world.new.entries.items ≡ world.old.entries.items) }
    ensures room { OnOk result (0 < world.new.entries.room) }
    ensures stop { IfErr result (λ stop. stop ≡ Stop.Memory) }
{
    match world.entries.reserve() {
        Ok(()) => Ok(()),
        Err(_) => Err(Stop::Memory),
    }
}

/// The thread runs for a tick on the processor that acts, which has no duty. It was seen before whether that ends its quantum.
#[inline(always)]
fn enter_tick(
    work: &Work,
    acting: &mut Acting,
    actors: &mut Vec<Actor>,
    entries: &mut EntryLog,
    t: ThreadId,
    expires: bool,
)
    requires can { CanEnter work.now acting.old actors.old.items entries.old.items (TickEvent t) None }
    requires duty { acting.old.actor.duty ≡ Nothing }
    requires expires { expires ≡ class_expires (thread_of (final_state work.now entries.old.items) t.0).body.class }
    requires room { 0 < entries.old.room }
    ensures { Enters work.now acting.old acting.new actors.old.items actors.new.items entries.old.items entries.new.items (TickEvent t) None }
{
    let cpu = acting.actor.cpu;
    match ticked_as(work, acting, cpu, t, expires) {
        Ok(()) => {}
        Err(_) => {
            known(false);
            unreachable!()
        }
    }
    actors[cpu.0 as usize] = acting.actor;
    entries.push_reserved(cpu, Event::Tick { t }, &None);
}

/// The processor that acts, which has no duty, is idle for a tick, after it has read so many zeros.
#[inline(always)]
fn enter_idle(
    work: &Work,
    acting: &mut Acting,
    actors: &mut Vec<Actor>,
    entries: &mut EntryLog,
    zeros: usize,
)
    requires can { CanEnter work.now acting.old actors.old.items entries.old.items IdleEvent (zeros_read zeros) }
    requires duty { acting.old.actor.duty ≡ Nothing }
    requires room { 0 < entries.old.room }
    requires fits { zeros ≤ most_processors }
    ensures { Enters work.now acting.old acting.new actors.old.items actors.new.items entries.old.items entries.new.items IdleEvent (zeros_read zeros) }
{
    let cpu = acting.actor.cpu;
    match acting.count_tick(work, cpu) {
        Ok(()) => {}
        Err(_) => {
            known(false);
            unreachable!()
        }
    }
    actors[cpu.0 as usize] = acting.actor;
    entries.push_idle(cpu, zeros);
}

/// The thread runs for a tick, for whose entry the log has room, on the processor that acts, which has no duty.
#[inline(always)]
fn make_tick(work: &Work, world: &mut PlainWorld, t: ThreadId, expires: bool)
    requires stands { Stands work.now world.old }
    requires duty { world.old.acting.actor.duty ≡ Nothing }
    requires next { next work.now (told work.now world.old) world.old.acting.actor.cpu None ≡ Some (TickEvent t) }
    requires expires { expires ≡ class_expires (thread_of (told work.now world.old) t.0).body.class }
    requires room { 0 < world.old.entries.room }
    requires few { length world.old.entries.items < MOST_ENTRIES }
    ensures stands { Stands work.now world.new }
    ensures entries { world.new.entries.items ≡ world.old.entries.items
        ++ record { number = length world.old.entries.items; cpu = world.old.acting.actor.cpu; event = TickEvent t; hints = None } ∷ [] }
    ensures work { world.new.work ≡ world.old.work }
{
    enter_tick(
        work,
        &mut world.acting,
        &mut world.actors,
        &mut world.entries,
        t,
        expires,
    );
}

/// The processor that acts, which has no duty, is idle for a tick, after it has read so many zeros. The log has room for its entry.
#[inline(always)]
fn make_idle(work: &Work, world: &mut PlainWorld, zeros: usize)
    requires stands { Stands work.now world.old }
    requires duty { world.old.acting.actor.duty ≡ Nothing }
    requires fits { zeros ≤ most_processors }
    requires next { next work.now (told work.now world.old) world.old.acting.actor.cpu (zeros_read zeros) ≡ Some IdleEvent }
    requires room { 0 < world.old.entries.room }
    requires few { length world.old.entries.items < MOST_ENTRIES }
    ensures stands { Stands work.now world.new }
    ensures entries { world.new.entries.items ≡ world.old.entries.items
        ++ record { number = length world.old.entries.items; cpu = world.old.acting.actor.cpu; event = IdleEvent; hints = zeros_read zeros } ∷ [] }
    ensures work { world.new.work ≡ world.old.work }
{
    enter_idle(
        work,
        &mut world.acting,
        &mut world.actors,
        &mut world.entries,
        zeros,
    );
}

/// The processor that acts may tick. No processor's count is below the floor, so that one whose count is not above it asks no other; the
/// count of another that may tick is the floor from then on.
#[inline(always)]
fn may_tick(work: &Work, world: &PlainWorld, floor: &mut u32) -> bool
    requires stands { Stands work.now world.now }
    requires least { IsFloor work.now (told work.now world.now) floor.old }
    ensures may { result ≡ may_tick work.now (told work.now world.now) world.now.acting.actor.cpu.0 }
    ensures least { IsFloor work.now (told work.now world.now) floor.new }
{
    let count = world.acting.actor.count;
    if count <= *floor {
        return count < work.limit;
    }
    let may = world.may_tick(work);
    if may {
        *floor = count;
    }
    may
}

/// The thread runs for a tick, where one may come now, on the processor that acts, which has no duty.
#[inline(always)]
pub(crate) fn come_tick(
    work: &Work,
    world: &mut PlainWorld,
    floor: &mut u32,
    t: ThreadId,
    expires: bool,
) -> Result<(), Stop>
    requires stands { Stands work.now world.old }
    requires work { world.old.work.now ≡ work.now }
    requires few { length world.old.entries.items < MOST_ENTRIES }
    requires least { IsFloor work.now (told work.now world.old) floor.old }
    requires duty { world.old.acting.actor.duty ≡ Nothing }
    requires hints { serial_hints work.now (told work.now world.old) world.old.acting.actor.cpu ≡ None }
    requires event { next work.now (told work.now world.old) world.old.acting.actor.cpu None ≡ allowed work.now (told work.now world.old) world.old.acting.actor.cpu.0 (TickEvent t) }
    requires expires { expires ≡ class_expires (thread_of (told work.now world.old) t.0).body.class }
    ensures stands { Stands work.now world.new }
    ensures work { world.new.work.now ≡ work.now }
    ensures entries { OnOk result (world.new.entries.items ≡ world.old.entries.items ++ turn work.now (told work.now world.old) (length world.old.entries.items) world.old.acting.actor.cpu) }
    ensures stop { IfErr result (λ stop. (stop ≡ Stop.Memory) × (world.new.entries.items ≡ world.old.entries.items)) }
    ensures least { IsFloor work.now (told work.now world.old) floor.new }
{
    if !may_tick(work, world, floor) {
        return Ok(());
    }
    if let Err(stop) = reserve(work, world) {
        return Err(stop);
    }
    make_tick(work, world, t, expires);
    Ok(())
}

/// The processor that acts, which has no duty, is idle for a tick, where one may come now, after it has read so many zeros.
#[inline(always)]
pub(crate) fn come_idle(
    work: &Work,
    world: &mut PlainWorld,
    floor: &mut u32,
    zeros: usize,
) -> Result<(), Stop>
    requires stands { Stands work.now world.old }
    requires work { world.old.work.now ≡ work.now }
    requires few { length world.old.entries.items < MOST_ENTRIES }
    requires least { IsFloor work.now (told work.now world.old) floor.old }
    requires duty { world.old.acting.actor.duty ≡ Nothing }
    requires fits { zeros ≤ most_processors }
    requires hints { serial_hints work.now (told work.now world.old) world.old.acting.actor.cpu ≡ zeros_read zeros }
    requires event { next work.now (told work.now world.old) world.old.acting.actor.cpu (zeros_read zeros) ≡ allowed work.now (told work.now world.old) world.old.acting.actor.cpu.0 IdleEvent }
    ensures stands { Stands work.now world.new }
    ensures work { world.new.work.now ≡ work.now }
    ensures entries { OnOk result (world.new.entries.items ≡ world.old.entries.items ++ turn work.now (told work.now world.old) (length world.old.entries.items) world.old.acting.actor.cpu) }
    ensures stop { IfErr result (λ stop. (stop ≡ Stop.Memory) × (world.new.entries.items ≡ world.old.entries.items)) }
    ensures least { IsFloor work.now (told work.now world.old) floor.new }
{
    if !may_tick(work, world, floor) {
        return Ok(());
    }
    if let Err(stop) = reserve(work, world) {
        return Err(stop);
    }
    make_idle(work, world, zeros);
    Ok(())
}
