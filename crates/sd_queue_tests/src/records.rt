//! Priorities worked out by hand, on records that hold the locks 1, 2 and 3.

ghost use Rattle.std.specs.Prelude.{◌≡◌, ◌≤◌, ◌∷◌, [], IfOk, pos, negsuc, ◌≤ℤ◌};

use crate::items::sent;
use crate::judging::is_so;
use arrayvec::ArrayVec;
use sd_boxq::{BoxQueue, Node, Ranked};
use sd_record::Record;
use sd_types::{
    ClassState, CpuId, FxState, LockId, Quantum, RtState, SysState, ThreadBody, ThreadId, TsState,
};
use std::alloc::{AllocError, Global};

/// A record of a thread of this class that holds the locks 1, 2 and 3.
fn holder(alloc: Global, class: ClassState) -> Result<Record, AllocError>
    ensures { IfOk result (λ r. r.body.held.items ≡ record { 0 = 1 } ∷ record { 0 = 2 } ∷ record { 0 = 3 } ∷ []) }
{
    let mut held = ArrayVec::new();
    held.push(LockId(1));
    held.push(LockId(2));
    held.push(LockId(3));
    let body = ThreadBody {
        class,
        willed: ArrayVec::new(),
        held,
        op: 0,
        run_left: 0,
        back: false,
        last: CpuId(0),
        left_at: None,
        looped: false,
        bound: None,
    };
    Record::new(alloc, ThreadId(7), body, -5)
}

fn ts(cpupri: u8, upri: i8) -> ClassState
    requires cpupri { cpupri ≤ 59 }
    requires low { negsuc 59 ≤ℤ upri }
    requires high { upri ≤ℤ pos 60 }
{
    ClassState::Ts(TsState {
        cpupri,
        limit: 60,
        upri,
        left: 1,
        wait: 0,
    })
}

fn fx(pri: u8) -> ClassState
    requires { pri ≤ 60 }
{
    ClassState::Fx(FxState {
        limit: 60,
        pri,
        quantum: Quantum::Inf,
        left: 0,
    })
}

fn sys(pri: u8) -> ClassState
    requires low { 60 ≤ pri }
    requires high { pri ≤ 99 }
{
    ClassState::Sys(SysState { pri })
}

fn rt_class(pri: u8) -> ClassState
    requires { pri ≤ 59 }
{
    ClassState::Rt(RtState {
        pri,
        quantum: Quantum::Inf,
        left: 0,
    })
}

/// The base of a new record is its effective priority and its rank too.
fn has_base(alloc: Global, class: ClassState, base: u8) -> Result<bool, AllocError> {
    let thread = holder(alloc, class)?;
    Ok(
        thread.base() == base
            && thread.effective() == base
            && thread.rank() == base
            && thread.id() == 7
            && thread.key() == -5,
    )
}

/// The new record of each of these classes has the base beside it.
fn have_bases(alloc: Global) -> Result<bool, AllocError> {
    let cases = [
        (ts(0, 0), 0),
        (ts(29, 0), 29),
        (ts(59, 0), 59),
        (ts(29, -60), 0),
        (ts(29, -10), 19),
        (ts(29, 30), 59),
        (ts(30, 60), 59),
        (ts(59, -60), 0),
        (fx(0), 0),
        (fx(60), 60),
        (sys(60), 60),
        (sys(99), 99),
        (rt_class(0), 100),
        (rt_class(59), 159),
    ];
    for case in &cases {
        let (class, base) = case;
        if !has_base(alloc, *class, *base)? {
            return Ok(false);
        }
    }
    Ok(true)
}

#[test]
fn bases(rt: HostRuntime) {
    is_so(&rt, have_bases(rt.alloc()));
}

/// The effective priority after each of these steps, of a thread that holds the locks 1, 2 and 3.
fn inheriting(thread: &mut Record) -> [u8; 5]
    requires { thread.old.body.held.items ≡ record { 0 = 1 } ∷ record { 0 = 2 } ∷ record { 0 = 3 } ∷ [] }
    ensures { thread.new.body.held.items ≡ thread.old.body.held.items }
{
    thread.inherit(LockId(1), 20);
    let first = thread.effective();
    thread.inherit(LockId(2), 40);
    let second = thread.effective();
    thread.inherit(LockId(3), 35);
    let third = thread.effective();
    // instead of the number that there was, also of a greater one
    thread.inherit(LockId(2), 30);
    let replaced = thread.effective();
    thread.inherit(LockId(1), 159);
    [first, second, third, replaced, thread.effective()]
}

fn waiving(thread: &mut Record) -> [u8; 4] {
    thread.waive(LockId(1));
    let first = thread.effective();
    // nothing is removed where there is no number
    thread.waive(LockId(1));
    thread.waive(LockId(9));
    let same = thread.effective();
    thread.waive(LockId(3));
    let third = thread.effective();
    thread.waive(LockId(2));
    [first, same, third, thread.effective()]
}

/// The thread inherits, and waives what it inherited, through locks that it goes on holding.
fn inherits(thread: &mut Record) -> bool
    requires { thread.old.body.held.items ≡ record { 0 = 1 } ∷ record { 0 = 2 } ∷ record { 0 = 3 } ∷ [] }
{
    let inherited = inheriting(thread);
    let three = thread.kept.body.willed.len() == 3 && thread.base() == 29;
    let waived = waiving(thread);
    inherited.as_slice() == &[29, 40, 40, 35, 159][..]
        && three
        && waived.as_slice() == &[35, 35, 30, 29][..]
        && thread.kept.body.held.len() == 3
}

fn holder_inherits(alloc: Global) -> Result<bool, AllocError> {
    let mut thread = holder(alloc, ts(29, 0))?;
    Ok(inherits(&mut thread))
}

#[test]
fn inheritance(rt: HostRuntime) {
    is_so(&rt, holder_inherits(rt.alloc()));
}

fn is_sent(alloc: Global) -> Result<bool, AllocError> {
    let thread = sent(holder(alloc, ts(29, 0))?);
    Ok(thread.id() == 7)
}

#[test]
fn another_thread_may_have_a_record(rt: HostRuntime) {
    is_so(&rt, is_sent(rt.alloc()));
}

/// The effective priority that the thread would have in each of these class states.
fn would_be_in(thread: &Record) -> bool {
    // the class state, and the effective priority in it
    let classes = [
        (ts(10, 0), 40),
        (ts(59, 0), 59),
        (fx(41), 41),
        (sys(60), 60),
        (rt_class(3), 103),
    ];
    for case in &classes {
        let (class, effective) = case;
        if thread.effective_as(class) != *effective {
            return false;
        }
    }
    true
}

/// The effective priority that the thread would have with each of these numbers.
fn would_be_with(thread: &Record) -> bool {
    // the lock, its number, and the effective priority with it
    let numbers = [
        (1, Some(50), 50),
        (1, Some(30), 30),
        (1, Some(10), 29),
        (1, None, 29),
        (2, Some(159), 159),
        (2, None, 40),
        (3, Some(35), 40),
        (3, Some(41), 41),
        // also for a lock that is not held
        (9, Some(120), 120),
        (9, None, 40),
    ];
    for case in &numbers {
        let (lock, number, effective) = case;
        if thread.effective_with(LockId(*lock), *number) != *effective {
            return false;
        }
    }
    true
}

/// The thread has a number for two of its locks.
fn would_be(thread: &mut Record) -> bool
    requires { thread.old.body.held.items ≡ record { 0 = 1 } ∷ record { 0 = 2 } ∷ record { 0 = 3 } ∷ [] }
{
    thread.inherit(LockId(1), 40);
    thread.inherit(LockId(2), 20);
    would_be_in(thread) && would_be_with(thread) && thread.effective() == 40
}

fn holder_would_be(alloc: Global) -> Result<bool, AllocError> {
    let mut thread = holder(alloc, ts(29, 0))?;
    Ok(would_be(&mut thread))
}

#[test]
fn priorities_that_would_be(rt: HostRuntime) {
    is_so(&rt, holder_would_be(rt.alloc()));
}

/// Whether the record holds exactly these locks, in this order.
fn holds(thread: &Record, locks: &[u16]) -> bool {
    let held = thread.kept.body.held.as_slice();
    held.len() == locks.len()
        && held
            .iter()
            .zip(locks)
            .all(|(lock, number)| lock.0 == *number)
}

/// A thread that holds the locks 1, 2 and 3 takes another one, and inherits through it.
fn takes_one_more(thread: &mut Record) -> bool
    requires { thread.old.body.held.items ≡ record { 0 = 1 } ∷ record { 0 = 2 } ∷ record { 0 = 3 } ∷ [] }
{
    thread.inherit(LockId(1), 40);
    thread.inherit(LockId(3), 50);
    thread.take_lock(LockId(0));
    let is_taken = holds(thread, &[1, 2, 3, 0]);
    thread.inherit(LockId(0), 90);
    is_taken && thread.effective() == 90
}

/// The number goes with the lock, and the others keep their order.
fn releases(thread: &mut Record) -> bool {
    thread.release_lock(LockId(3));
    let three = holds(thread, &[1, 2, 0]) && thread.effective() == 90;
    thread.release_lock(LockId(0));
    let two = holds(thread, &[1, 2]) && thread.effective() == 40;
    // one without a number, and one that is not held
    thread.release_lock(LockId(2));
    thread.release_lock(LockId(9));
    let one = holds(thread, &[1]) && thread.effective() == 40;
    thread.release_lock(LockId(1));
    three && two && one && holds(thread, &[]) && thread.effective() == 29
}

fn holder_changes_locks(alloc: Global) -> Result<bool, AllocError> {
    let mut thread = holder(alloc, ts(29, 0))?;
    Ok(takes_one_more(&mut thread) && releases(&mut thread))
}

#[test]
fn locks(rt: HostRuntime) {
    is_so(&rt, holder_changes_locks(rt.alloc()));
}

/// Puts a new record of this class into the queue.
fn queue_up(
    alloc: Global,
    queue: &mut BoxQueue<Record>,
    class: ClassState,
) -> Result<(), AllocError> {
    queue.insert_ranked(Node::node(alloc, holder(alloc, class)?)?);
    Ok(())
}

/// The base of the record at this place.
fn base_at(queue: &BoxQueue<Record>, index: usize) -> Option<u8> {
    match queue.item(index) {
        Some(thread) => Some(thread.base()),
        None => None,
    }
}

fn queue_up_three(alloc: Global, queue: &mut BoxQueue<Record>) -> Result<(), AllocError> {
    queue_up(alloc, queue, fx(10))?;
    queue_up(alloc, queue, rt_class(0))?;
    queue_up(alloc, queue, fx(30))
}

fn is_ranked(queue: &BoxQueue<Record>) -> bool {
    base_at(queue, 0) == Some(100) && base_at(queue, 1) == Some(30) && base_at(queue, 2) == Some(10)
}

fn ranks_three(alloc: Global) -> Result<bool, AllocError> {
    let mut queue = BoxQueue::new();
    queue_up_three(alloc, &mut queue)?;
    Ok(is_ranked(&queue))
}

#[test]
fn a_queue_of_records(rt: HostRuntime) {
    is_so(&rt, ranks_three(rt.alloc()));
}
