//! One attempt to make the entry of a processor. It waits for nobody.

ghost use Rattle.std.specs.Prelude.{◌≡◌, true, IfSome};
ghost use Rattle.sd_types.specs.Events.{ticks};
ghost use Rattle.sd_world.specs.Plain.{AreCpus};
ghost use Rattle.sd_world.specs.Worlds.{Holds, Makes, ReadsCounts};
ghost use Rattle.sd_cpu.specs.Attempts.{Acts, Answers, AreRead, Enters, Hinders, IsEmpty, StaysPassed, attempted_of, turn_of};
ghost use Rattle.sd_cpu.specs.Seeking.{Comes, HoldsAll, HoldsToMake, HoldsToRead, IsOnItsWay, Looks};

use crate::gate::Gate;
use crate::seeking::{find_course, find_event, hold_all};
use sd_dispatcher::Reading;
use sd_types::{CpuId, Event, Hints, Stop, Work};
use sd_world::{Behind, World};

/// What a turn did: it made an entry that does not tick, or one that does; or none, since the processor would tick and has counted more
/// ticks than another, or as many as the limit.
#[derive(Clone, Copy)]
pub enum Turned {
    Acted { number: u64 },
    Ticked { number: u64 },
    Behind { cpu: CpuId, count: u32 },
    Finished,
}

/// The turn was made; or another processor was in the way, and the attempt is to be repeated: the gate has been passed by then, or not. Once
/// it has been passed, it stays so.
#[derive(Clone, Copy)]
pub enum Attempted {
    Made(Turned),
    Again { passed: bool },
}

/// Why the processor that acts may not tick, where it may not.
fn hindrance<W: World>(world: &mut W, work: &Work) -> Option<Turned>
    requires good { W.good world.old }
    requires work { work.now ≡ (W.meaning world.old).work }
    ensures good { W.good world.new }
    ensures counts { ReadsCounts (W.meaning world.old) (W.meaning world.new) }
    ensures hinders { Hinders (W.meaning world.old) (W.meaning world.new) result }
{
    if world.acting().actor.count >= work.limit {
        return Some(Turned::Finished);
    }
    match world.behind(work) {
        None => None,
        Some(Behind { cpu, count }) => Some(Turned::Behind { cpu, count }),
    }
}

/// The numbers that are read.
fn read_hints<W: World>(world: &mut W, work: &Work, reading: &Option<Reading>) -> Option<Hints>
    requires good { W.good world.old }
    requires work { work.now ≡ (W.meaning world.old).work }
    requires there { IfSome reading.now (λ r. AreCpus work.now r.cpus.items) }
    ensures good { W.good world.new }
    ensures looks { Looks (W.meaning world.old) (W.meaning world.new) }
    ensures acting { (W.meaning world.new).acting ≡ (W.meaning world.old).acting }
    ensures read { AreRead (W.meaning world.old) (W.meaning world.new) reading.now result }
{
    match reading {
        None => None,
        Some(reading) => Some(world.hints(work, reading)),
    }
}

/// The hand has all that the event touches, or takes it. False where another processor is in the way.
fn holds_touched<W: World>(world: &mut W, work: &Work, event: Event) -> bool
    requires good { W.good world.old }
    requires work { work.now ≡ (W.meaning world.old).work }
    requires way { IsOnItsWay (W.meaning world.old) event }
    ensures good { W.good world.new }
    ensures holds { HoldsAll (W.meaning world.old) (W.meaning world.new) event result }
{
    if world.has_all() {
        true
    } else {
        hold_all(world, work, event)
    }
}

/// Makes the entry, for which all is held, and answers its number.
fn enter<W: World>(
    world: &mut W,
    work: &Work,
    event: Event,
    hints: Option<Hints>,
) -> Result<Option<u64>, Stop>
    requires good { W.good world.old }
    requires work { work.now ≡ (W.meaning world.old).work }
    requires comes { Comes (W.meaning world.old) event hints }
    requires makes { Makes (W.meaning world.old) event hints }
    requires holds { Holds (W.meaning world.old) event }
    ensures good { W.good world.new }
    ensures enters { Enters (W.meaning world.old) (W.meaning world.new) (ticks event) result }
{
    match world.reserve() {
        Ok(()) => Ok(Some(world.commit(work, event, hints))),
        Err(stop) => Err(stop),
    }
}

/// Makes the event, which may come now, once the homes are held that it touches, and answers the number of its entry. `None` where
/// another processor is in the way.
fn make<W: World>(
    world: &mut W,
    work: &Work,
    event: Event,
    hints: Option<Hints>,
) -> Result<Option<u64>, Stop>
    requires good { W.good world.old }
    requires work { work.now ≡ (W.meaning world.old).work }
    requires comes { Comes (W.meaning world.old) event hints }
    requires held { HoldsToMake (W.meaning world.old) hints }
    requires makes { Makes (W.meaning world.old) event hints }
    ensures good { W.good world.new }
    ensures enters { Enters (W.meaning world.old) (W.meaning world.new) (ticks event) result }
{
    if holds_touched(world, work, event) {
        enter(world, work, event, hints)
    } else {
        Ok(None)
    }
}

/// The turn in which an entry was made that ticks or not.
fn turn_of(made: Result<Option<u64>, Stop>, ticks: bool) -> Result<Option<Turned>, Stop>
    ensures { result ≡ turn_of made ticks }
{
    match made {
        Ok(Some(number)) if ticks => Ok(Some(Turned::Ticked { number })),
        Ok(Some(number)) => Ok(Some(Turned::Acted { number })),
        Ok(None) => Ok(None),
        Err(stop) => Err(stop),
    }
}

/// Ticks, where the processor may.
fn tick<W: World>(
    world: &mut W,
    work: &Work,
    event: Event,
    hints: Option<Hints>,
) -> Result<Option<Turned>, Stop>
    requires good { W.good world.old }
    requires work { work.now ≡ (W.meaning world.old).work }
    requires comes { Comes (W.meaning world.old) event hints }
    requires held { HoldsToMake (W.meaning world.old) hints }
    requires ticks { ticks event ≡ true }
    ensures good { W.good world.new }
    ensures acts { Acts (W.meaning world.old) (W.meaning world.new) result }
{
    match hindrance(world, work) {
        Some(turned) => Ok(Some(turned)),
        None => turn_of(make(world, work, event, hints), true),
    }
}

/// Makes the event, where it may come now.
fn come<W: World>(
    world: &mut W,
    work: &Work,
    event: Event,
    hints: Option<Hints>,
) -> Result<Option<Turned>, Stop>
    requires good { W.good world.old }
    requires work { work.now ≡ (W.meaning world.old).work }
    requires comes { Comes (W.meaning world.old) event hints }
    requires held { HoldsToMake (W.meaning world.old) hints }
    ensures good { W.good world.new }
    ensures acts { Acts (W.meaning world.old) (W.meaning world.new) result }
{
    if event.ticks() {
        tick(world, work, event, hints)
    } else {
        turn_of(make(world, work, event, hints), false)
    }
}

/// Takes the homes that the processor's event needs, and makes it. `None` where another processor is in the way.
fn act<W: World, G: Gate>(
    world: &mut W,
    gate: &G,
    work: &Work,
    turn: u64,
    passed: &mut bool,
) -> Result<Option<Turned>, Stop>
    requires good { W.good world.old }
    requires work { work.now ≡ (W.meaning world.old).work }
    requires holds { HoldsToRead (W.meaning world.old) }
    ensures good { W.good world.new }
    ensures acts { Acts (W.meaning world.old) (W.meaning world.new) result }
    ensures passed { passed.old ≡ true → passed.new ≡ true }
{
    let Some(course) = find_course(world, gate, work, turn, passed) else {
        return Ok(None);
    };
    let hints = read_hints(world, work, &course.reading);
    match find_event(world, work, course.plan, &hints) {
        Some(event) => come(world, work, event, hints),
        None => Ok(None),
    }
}

/// The turn was made, or is to be repeated.
fn attempted_of(done: Option<Turned>, passed: bool) -> Attempted
    ensures { result ≡ attempted_of done passed }
{
    match done {
        Some(turned) => Attempted::Made(turned),
        None => Attempted::Again { passed },
    }
}

/// One attempt to make the entry of the processor that acts. It ends with no home held but where the world has all from the first.
pub fn attempt<W: World, G: Gate>(
    world: &mut W,
    gate: &G,
    work: &Work,
    turn: u64,
    passed: bool,
) -> Result<Attempted, Stop>
    requires good { W.good world.old }
    requires work { work.now ≡ (W.meaning world.old).work }
    requires empty { IsEmpty (W.meaning world.old) }
    ensures good { W.good world.new }
    ensures empty { IsEmpty (W.meaning world.new) }
    ensures answers { Answers (W.meaning world.old) (W.meaning world.new) result }
    ensures passed { StaysPassed passed result }
{
    let mut passed = passed;
    let acted = act(world, gate, work, turn, &mut passed);
    world.give_all();
    match acted {
        Ok(done) => Ok(attempted_of(done, passed)),
        Err(stop) => Err(stop),
    }
}
