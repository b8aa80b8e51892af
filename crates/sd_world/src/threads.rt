//! The threads of a state, each with the place that its list and its key tell.

ghost use Rattle.std.specs.Prelude.{◌≡◌, ◌<◌, length, map, option_copied, IfOk, IfSome};
ghost use Rattle.sd_state.specs.declared.states.Place.{Place as PlaceOf};
ghost use Rattle.sd_state.specs.declared.states.State.{State as StateOf};
ghost use Rattle.sd_state.specs.States.{thread_of};
ghost use Rattle.sd_homes.specs.Standing.{list_at, record_key};
ghost use Rattle.sd_types.specs.declared.numbers.CpuId.{CpuId as CpuOf};
ghost use Rattle.sd_world.specs.Told.{AreTold, IsDue, IsToldBy, has_ended};

use sd_hand::Hand;
use sd_homes::ListId;
use sd_record::{Record, copied_body};
use sd_state::{Place, ThreadState};
use sd_types::{CpuId, HomeId, ThreadId};
use std::alloc::{AllocError, Global};

/// The place of a thread that stands in this list with this key.
fn place_at(at: ListId, key: i64) -> Place
    requires { IsDue at key }
    ensures { (last : CpuOf) (place : PlaceOf) → list_at last place ≡ at → record_key place ≡ key → result ≡ place }
{
    match at {
        ListId::Runs(c) => Place::Running(c),
        ListId::Queues(c) => Place::Queued(c, key),
        ListId::Urgent(p) => Place::RealTime(p, key),
        ListId::Waits(l, side) => Place::Waiting(l, side, key),
        ListId::Sleeps(k) => Place::Asleep(k, key),
        ListId::Naps(c) => Place::Napping(c, key as u32),
        ListId::Ends(_) => Place::Ended,
    }
}

/// Thread `t`, which is one of the state's.
fn thread_of(hand: &Hand, t: ThreadId) -> ThreadState
    requires { (s : StateOf) × IsToldBy hand.now.slots s × (t.0 < length s.threads) }
    ensures { (s : StateOf) → IsToldBy hand.now.slots s → t.0 < length s.threads → result ≡ thread_of s t.0 }
{
    match hand.where_is(t) {
        Err(_) => unreachable!(),
        Ok(at) => match hand.find(t, at) {
            None => unreachable!(),
            Some(thread) => ThreadState {
                body: copied_body(&thread.kept.body),
                place: place_at(at, thread.kept.key),
            },
        },
    }
}

/// The thread with this record, which has ended.
fn ended(thread: &Record) -> ThreadState
    ensures { result ≡ has_ended thread.now }
{
    ThreadState {
        body: copied_body(&thread.kept.body),
        place: Place::Ended,
    }
}

/// Tells those who have ended on processor `c`, each where its number says.
fn tell_ended<'a>(hand: &'a Hand, c: CpuId, told: &mut Vec<Option<&'a Record>>)
    ensures { (s : StateOf) → IsToldBy hand.now.slots s → AreTold s (map option_copied told.old.items) → AreTold s (map option_copied told.new.items) }
{
    let home = match hand.home(HomeId::Cpu(c)) {
        Err(_) => return,
        Ok(home) => home,
    };
    let threads = match home.ended(c) {
        None => return,
        Some(threads) => threads,
    };
    for thread in threads.items() {
        let number = thread.kept.id.0 as usize;
        if number < told.len() {
            told[number] = Some(thread);
        }
    }
}

/// No thread is told yet, of so many.
fn nothing_told<'a>(alloc: Global, many: u16) -> Result<Vec<Option<&'a Record>>, AllocError>
    ensures { IfOk result (λ v. (s : StateOf) → AreTold s (map option_copied v.items)) }
{
    let mut told = Vec::with_capacity(alloc, many as usize)?;
    for _ in 0..many {
        told.push(None)?;
    }
    Ok(told)
}

/// Those who have ended on some processor, of so many threads and processors, each where it stands. Who ended is told from list to list, since the
/// search for one of them passes all who ended after it.
fn all_ended<'a>(
    alloc: Global,
    hand: &'a Hand,
    many: u16,
    cpus: u16,
) -> Result<Vec<Option<&'a Record>>, AllocError>
    ensures { IfOk result (λ v. (s : StateOf) → IsToldBy hand.now.slots s → AreTold s (map option_copied v.items)) }
{
    let mut told = nothing_told(alloc, many)?;
    for c in 0..cpus {
        tell_ended(hand, CpuId(c), &mut told);
    }
    Ok(told)
}

/// What is told of the thread with this number.
fn told_of<'a>(told: &[Option<&'a Record>], number: usize) -> Option<&'a Record>
    ensures { IfSome (option_copied result) (λ r. (s : StateOf) → AreTold s (map option_copied told.now) → has_ended r ≡ thread_of s number) }
{
    if number < told.len() {
        told[number]
    } else {
        None
    }
}

/// Thread `t`, which is one of the state's and may be told already.
fn thread_told(hand: &Hand, t: ThreadId, told: Option<&Record>) -> ThreadState
    requires { (s : StateOf) × IsToldBy hand.now.slots s × (t.0 < length s.threads) }
    ensures { (s : StateOf) → IsToldBy hand.now.slots s → t.0 < length s.threads → IfSome (option_copied told.entry) (λ r. has_ended r ≡ thread_of s t.0) → result ≡ thread_of s t.0 }
{
    match told {
        None => thread_of(hand, t),
        Some(thread) => ended(thread),
    }
}

/// The threads in the order of their numbers, so many, of so many processors.
pub(crate) fn threads_of(
    alloc: Global,
    hand: &Hand,
    many: u16,
    cpus: u16,
) -> Result<Vec<ThreadState>, AllocError>
    requires { (s : StateOf) × IsToldBy hand.now.slots s × (length s.threads ≡ many) }
    ensures { IfOk result (λ v. (s : StateOf) → IsToldBy hand.now.slots s → length s.threads ≡ many → v.items ≡ s.threads) }
{
    let ended = all_ended(alloc, hand, many, cpus)?;
    let mut threads = Vec::with_capacity(alloc, many as usize)?;
    for t in 0..many {
        let told = told_of(ended.as_slice(), t as usize);
        threads.push(thread_told(hand, ThreadId(t), told))?;
    }
    Ok(threads)
}
