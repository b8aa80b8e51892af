//! Two threads of the system class on one processor, worked out by hand.

use arrayvec::ArrayVec;
use sd_boxq::{Boxed, Four};
use sd_dispatcher::{dispatched, done};
use sd_hand::{Acting, Actor, Hand};
use sd_homes::{ChainHome, CpuHome, Home, ListId, RealTimeHome, SleepersHome, Traveller};
use sd_record::Record;
use sd_state::LockState;
use sd_store::{CpuView, Destination, Look, Part, Sets, Spot, Store};
use sd_types::{
    ChanId, ClassState, CpuId, Duty, LockId, SetId, Side, SysState, ThreadBody, ThreadId,
};
use std::alloc::{AllocError, Global};
use std::process::Abort;
use std::test::Fail;

const CPU: CpuId = CpuId(0);

fn thread(alloc: Global, number: u16, low: bool) -> Result<Traveller, AllocError> {
    let pri = if low { 60 } else { 70 };
    let body = ThreadBody {
        class: ClassState::Sys(SysState { pri }),
        willed: ArrayVec::new(),
        held: ArrayVec::new(),
        op: 0,
        run_left: 0,
        back: false,
        last: CPU,
        left_at: None,
        looped: false,
        bound: None,
    };
    Traveller::new(alloc, Record::new(alloc, ThreadId(number), body, 4096)?)
}

fn view() -> CpuView {
    CpuView {
        user: true,
        kernel: false,
        set: SetId(0),
        closing: None,
        bound: 0,
    }
}

fn acting(alloc: Global) -> Result<Acting, AllocError> {
    Ok(Acting {
        hand: Hand::new(alloc)?,
        actor: Actor {
            cpu: CPU,
            count: 3,
            duty: Duty::Nothing,
        },
    })
}

fn cpu_home(alloc: Global) -> Result<Home, AllocError> {
    Ok(Home::Cpu(Boxed::new(alloc, CpuHome::new(alloc, CPU, view(), 8)?)?))
}

fn set_home(alloc: Global) -> Result<Home, AllocError> {
    Ok(Home::RealTime(Boxed::new(
        alloc,
        RealTimeHome::new(alloc, SetId(0), ArrayVec::new(), 8)?,
    )?))
}

/// What crosses threads crosses here.
fn sent<T: Send>(value: T) -> T {
    value
}

fn number(found: Result<Option<ThreadId>, Part>) -> Option<u16> {
    match found {
        Ok(Some(t)) => Some(t.0),
        _ => None,
    }
}

/// The home is held from now on.
fn holds(x: &mut Acting, home: Home) -> bool {
    x.hand.hold(home).is_ok()
}

/// A thread comes to this list.
fn put(
    alloc: Global,
    x: &mut Acting,
    number: u16,
    low: bool,
    at: ListId,
) -> Result<(), AllocError> {
    x.hand.put(thread(alloc, number, low)?, at);
    Ok(())
}

/// Two threads in the queue of the processor, whose home is held and cannot be held twice.
fn queues_two(alloc: Global, x: &mut Acting) -> Result<bool, AllocError> {
    let once = holds(x, cpu_home(alloc)?);
    let twice = holds(x, cpu_home(alloc)?);
    put(alloc, x, 7, true, ListId::Queues(CPU))?;
    put(alloc, x, 9, false, ListId::Queues(CPU))?;
    Ok(once && !twice)
}

/// The better of the two is the best of the queue; what is ready is not told, since the real-time queue is lacking.
fn lacks_a_queue(x: &Acting) -> bool {
    number(x.runner(CPU)).is_none()
        && number(x.best_queued(CPU)) == Some(9)
        && matches!(x.best_ready(CPU), Err(Part::Home(_)))
}

fn runs(x: &mut Acting) -> bool {
    number(x.best_ready(CPU)) == Some(9)
        && x.run_on(ThreadId(9), CPU).is_ok()
        && number(x.runner(CPU)) == Some(9)
        && number(x.best_queued(CPU)) == Some(7)
}

/// Leaving clears the mark.
fn naps(x: &mut Acting) -> bool {
    x.leave(0, CPU, ThreadId(9), Destination::Nap(3)).is_ok()
        && number(x.runner(CPU)).is_none()
        && number(x.first_due(CPU)) == Some(9)
        && matches!(x.spot(ThreadId(9)), Ok(Spot::Napping(_)))
        && matches!(x.spot(ThreadId(8)), Err(Part::Thread(_)))
        && matches!(x.cpu(CPU), Ok(CpuView { user: false, .. }))
}

fn wrong_run(alloc: Global, x: &mut Acting) -> Result<Option<&'static str>, AllocError> {
    if !queues_two(alloc, x)? {
        return Ok(Some("the home of a processor"));
    }
    if !lacks_a_queue(x) {
        return Ok(Some("what is ready"));
    }
    let held = holds(x, set_home(alloc)?);
    if !held || !runs(x) || !naps(x) {
        return Ok(Some("a run and a nap"));
    }
    Ok(None)
}

#[test]
fn runs_and_naps(rt: HostRuntime) -> Result<(), Fail> {
    judge(&rt, Judged::Run)
}

fn chain_home(alloc: Global) -> Result<Home, AllocError> {
    Ok(Home::Chain(Boxed::new(alloc, ChainHome::new(1))?))
}

/// It has five tokens of channel 130.
fn sleepers_home(alloc: Global) -> Result<Home, AllocError> {
    Ok(Home::Sleepers(Boxed::new(alloc, SleepersHome::new(2, Four::new(0, 0, 5, 0)))?))
}

/// A thread that waits for lock 65 and one that sleeps on channel 2.
fn one_waits_one_sleeps(alloc: Global, x: &mut Acting) -> Result<bool, AllocError> {
    let chain = holds(x, chain_home(alloc)?);
    let sleepers = holds(x, sleepers_home(alloc)?);
    put(alloc, x, 7, true, ListId::Waits(LockId(65), Side::Reader))?;
    put(alloc, x, 9, false, ListId::Sleeps(ChanId(2)))?;
    Ok(chain && sleepers)
}

fn waits(x: &Acting) -> bool {
    number(x.best_waiter(LockId(65), Side::Reader)) == Some(7)
        && number(x.best_waiter(LockId(1), Side::Reader)).is_none()
        && matches!(x.greatest_waiting(LockId(65)), Ok(Some(60)))
        && matches!(x.others_waiting(LockId(65), ThreadId(7)), Ok(None))
}

fn sleeps(x: &Acting) -> bool {
    number(x.best_sleeper(ChanId(2))) == Some(9) && matches!(x.tokens(ChanId(130)), Ok(5))
}

fn is_owned(x: &mut Acting) -> bool {
    x.set_lock(LockId(1), LockState::Owned(ThreadId(4))).is_ok()
        && matches!(x.lock(LockId(1)), Ok(LockState::Owned(ThreadId(4))))
        && matches!(x.lock(LockId(65)), Ok(LockState::Free))
}

fn wrong_wait(alloc: Global, x: &mut Acting) -> Result<Option<&'static str>, AllocError> {
    if !one_waits_one_sleeps(alloc, x)? {
        return Ok(Some("homes of waiters and sleepers"));
    }
    if !waits(x) || !sleeps(x) || !is_owned(x) {
        return Ok(Some("waiters, sleepers and owners"));
    }
    Ok(None)
}

#[test]
fn waits_and_sleeps(rt: HostRuntime) -> Result<(), Fail> {
    judge(&rt, Judged::Wait)
}

/// Dispatching clears the mark.
fn is_dispatched(x: &mut Acting) -> bool {
    dispatched(x, CPU, ThreadId(7)).is_ok()
        && number(x.runner(CPU)) == Some(7)
        && matches!(x.cpu(CPU), Ok(CpuView { user: false, .. }))
}

/// The count that a thread takes along is its processor's.
fn is_done(x: &mut Acting) -> bool {
    matches!(done(x, 1, CpuId(1), ThreadId(7)), Err(Part::Actor(_)))
        && done(x, 1, CPU, ThreadId(7)).is_ok()
        && number(x.runner(CPU)).is_none()
        && matches!(x.spot(ThreadId(7)), Ok(Spot::Ended))
}

fn wrong_event(alloc: Global, x: &mut Acting) -> Result<Option<&'static str>, AllocError> {
    let held = holds(x, cpu_home(alloc)?);
    put(alloc, x, 7, true, ListId::Queues(CPU))?;
    if !held || !is_dispatched(x) || !is_done(x) {
        return Ok(Some("a dispatch and an end"));
    }
    Ok(None)
}

#[test]
fn events_change_a_hand(rt: HostRuntime) -> Result<(), Fail> {
    judge(&rt, Judged::Events)
}

fn open_count(x: &Acting) -> Option<usize> {
    match x.open_cpus(SetId(0)) {
        Ok(cpus) => Some(cpus.len()),
        Err(_) => None,
    }
}

fn joins(x: &mut Acting) -> bool {
    open_count(x) == Some(0) && x.join(CPU, SetId(0)).is_ok() && open_count(x) == Some(1)
}

fn closes(x: &mut Acting) -> bool {
    x.close(CPU, SetId(2)).is_ok()
        && open_count(x) == Some(0)
        && matches!(
            x.cpu(CPU),
            Ok(CpuView {
                closing: Some(SetId(2)),
                ..
            })
        )
}

/// The home of the set is lacking.
fn lacks_a_set(x: &mut Acting) -> bool {
    matches!(x.join(CPU, SetId(0)), Err(Part::Home(_)))
}

fn wrong_set(alloc: Global, x: &mut Acting) -> Result<Option<&'static str>, AllocError> {
    if !holds(x, cpu_home(alloc)?) || !lacks_a_set(x) {
        return Ok(Some("a set that is lacking"));
    }
    if !holds(x, set_home(alloc)?) || !joins(x) || !closes(x) {
        return Ok(Some("a set that is joined and left"));
    }
    Ok(None)
}

#[test]
fn joins_and_closes(rt: HostRuntime) -> Result<(), Fail> {
    judge(&rt, Judged::Set)
}

/// What is judged of a hand, by one test.
#[derive(Clone, Copy)]
enum Judged {
    Run,
    Wait,
    Events,
    Set,
}

/// The first that is not as it should be, of a hand that holds nothing.
fn wrong_of(
    alloc: Global,
    x: &mut Acting,
    judged: Judged,
) -> Result<Option<&'static str>, AllocError> {
    match judged {
        Judged::Run => wrong_run(alloc, x),
        Judged::Wait => wrong_wait(alloc, x),
        Judged::Events => wrong_event(alloc, x),
        Judged::Set => wrong_set(alloc, x),
    }
}

/// The first that is not as it should be. It owns the hand for all tests, since a function that drops one takes long to prove.
fn wrong(alloc: Global, judged: Judged) -> Result<Option<&'static str>, AllocError> {
    let mut x = sent(acting(alloc)?);
    wrong_of(alloc, &mut x, judged)
}

/// All of it is as it should be.
fn judge<R: Abort + AllocGlobal>(rt: &R, judged: Judged) -> Result<(), Fail> {
    let wrong = wrong(rt.alloc(), judged)?;
    assert!(rt; wrong.is_none(), "{wrong:?}");
    Ok(())
}
