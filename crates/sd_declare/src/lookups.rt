//! Names that are declared: their numbers and their kinds.

ghost use Rattle.std.specs.Prelude.{◌≡◌, ◌+◌, ◌≤◌, ◌<◌, true, false, length, map, slice_get, position, IfSome, IfOk, IfErr, option_map};
ghost use Rattle.sd_types.specs.Works.{same_bytes, is_mutex, is_rwlock, is_chan, is_sema};
ghost use Rattle.sd_types.specs.Limits.{most_processors};
ghost use Rattle.sd_lines.specs.Said.{word_of};
ghost use Rattle.sd_declare.specs.Declarations.{lock_number, chan_number, set_place, thread_number, set_number, lock_kind, chan_kind, lock_id, chan_id, thread_id, set_id, is_lock_name, is_thread_name, is_set, cpu_count};
ghost use Rattle.sd_declare.specs.Kept.{declarations};

use crate::{Declared, WorkCause};
use sd_lines::is_word;
use sd_types::{
    ChanId, ChanKind, CpuId, List, LockId, LockKind, Name, SetId, ThreadDecl, ThreadId,
};

/// The number of processors.
pub fn cpu_count(d: &Declared) -> u16
    ensures value { result ≡ cpu_count (declarations d.now) }
    ensures some { 1 ≤ result }
    ensures most { result ≤ most_processors }
{
    d.cpus.unwrap_or(1)
}

/// The number of the first lock with the name, or of the locks where none has it.
#[tactic(auto, unfolding(crate::specs::Declarations::lock_number))]
pub fn lock_number(d: &Declared, name: &Name) -> usize
    ensures value { result ≡ lock_number (declarations d.now) (word_of name.now) }
    ensures bound { result ≤ length d.now.locks.items }
{
    d.lock_names.find(name.bytes()).unwrap_or(d.locks.len())
}

/// The number of the first channel with the name, or of the channels where none has it.
#[tactic(auto, unfolding(crate::specs::Declarations::chan_number))]
pub fn chan_number(d: &Declared, name: &Name) -> usize
    ensures value { result ≡ chan_number (declarations d.now) (word_of name.now) }
    ensures bound { result ≤ length d.now.chans.items }
{
    d.chan_names.find(name.bytes()).unwrap_or(d.chans.len())
}

// The place of the first set with the name.
fn set_at(sets: &[(Name, List<CpuId>)], name: &Name) -> Option<usize>
    ensures value { result ≡ position (λ x. same_bytes x.0.text.items (word_of name.now)) sets.now }
    ensures bound { IfSome result (λ n. n < length sets.now) }
{
    sets.iter()
        .position(|set| is_word(set.0.bytes(), name.bytes()))
}

/// The place of the first set with the name, or the number of sets where none has it.
#[tactic(auto, unfolding(crate::specs::Declarations::set_place))]
pub fn set_place(d: &Declared, name: &Name) -> usize
    ensures value { result ≡ set_place (declarations d.now) (word_of name.now) }
    ensures bound { result ≤ length d.now.sets.items }
{
    set_at(&d.sets, name).unwrap_or(d.sets.len())
}

/// The number of the first thread with the name, or of the threads where none has it.
#[tactic(auto, unfolding(crate::specs::Declarations::thread_number))]
pub fn thread_number(d: &Declared, name: &Name) -> usize
    ensures value { result ≡ thread_number (declarations d.now) (word_of name.now) }
    ensures bound { result ≤ length d.now.threads.items }
{
    d.thread_names.find(name.bytes()).unwrap_or(d.threads.len())
}

/// The lock of this name.
pub fn lock_of(d: &Declared, name: &Name) -> Result<LockId, WorkCause>
    ensures ok { IfOk result (λ lock. (is_lock_name (declarations d.now) (word_of name.now) ≡ true) × (lock ≡ lock_id (declarations d.now) (word_of name.now))) }
    ensures err { IfErr result (λ cause. (is_lock_name (declarations d.now) (word_of name.now) ≡ false) × (cause ≡ WorkCause.Unknown)) }
{
    let number = lock_number(d, name);
    if number < d.locks.len() {
        Ok(LockId(number as u16))
    } else {
        Err(WorkCause::Unknown)
    }
}

// The kind of the lock with a number, if there is one.
fn lock_kind_at(locks: &[(Name, LockKind)], number: usize) -> Option<LockKind>
    ensures { result ≡ option_map (λ x. x.1) (slice_get locks.now number) }
{
    locks.get(number).map(|lock| lock.1)
}

// The lock of this name, as it stands in operations, and its kind, if there is one.
fn lock_and_kind(d: &Declared, name: &Name) -> (LockId, Option<LockKind>)
    ensures lock { result.0 ≡ lock_id (declarations d.now) (word_of name.now) }
    ensures kind { result.1 ≡ lock_kind (declarations d.now) (word_of name.now) }
{
    let number = lock_number(d, name);
    (LockId(number as u16), lock_kind_at(&d.locks, number))
}

/// The mutex of this name.
pub fn mutex_of(d: &Declared, name: &Name) -> Result<LockId, WorkCause>
    ensures ok { IfOk result (λ lock. (is_mutex (lock_kind (declarations d.now) (word_of name.now)) ≡ true) × (lock ≡ lock_id (declarations d.now) (word_of name.now))) }
    ensures err { IfErr result (λ cause. (is_mutex (lock_kind (declarations d.now) (word_of name.now)) ≡ false) × (cause ≡ WorkCause.Unknown)) }
{
    let (lock, kind) = lock_and_kind(d, name);
    match kind {
        Some(LockKind::Mutex) => Ok(lock),
        _ => Err(WorkCause::Unknown),
    }
}

/// The rwlock of this name.
pub fn rwlock_of(d: &Declared, name: &Name) -> Result<LockId, WorkCause>
    ensures ok { IfOk result (λ lock. (is_rwlock (lock_kind (declarations d.now) (word_of name.now)) ≡ true) × (lock ≡ lock_id (declarations d.now) (word_of name.now))) }
    ensures err { IfErr result (λ cause. (is_rwlock (lock_kind (declarations d.now) (word_of name.now)) ≡ false) × (cause ≡ WorkCause.Unknown)) }
{
    let (lock, kind) = lock_and_kind(d, name);
    match kind {
        Some(LockKind::Rwlock) => Ok(lock),
        _ => Err(WorkCause::Unknown),
    }
}

// The kind of the channel with a number, if there is one.
fn chan_kind_at(chans: &[(Name, ChanKind)], number: usize) -> Option<ChanKind>
    ensures { result ≡ option_map (λ x. x.1) (slice_get chans.now number) }
{
    chans.get(number).map(|chan| chan.1)
}

// The channel of this name, as it stands in operations, and its kind, if there is one.
fn chan_and_kind(d: &Declared, name: &Name) -> (ChanId, Option<ChanKind>)
    ensures chan { result.0 ≡ chan_id (declarations d.now) (word_of name.now) }
    ensures kind { result.1 ≡ chan_kind (declarations d.now) (word_of name.now) }
{
    let number = chan_number(d, name);
    (ChanId(number as u16), chan_kind_at(&d.chans, number))
}

/// The channel of this name, which is no semaphore.
pub fn chan_of(d: &Declared, name: &Name) -> Result<ChanId, WorkCause>
    ensures ok { IfOk result (λ chan. (is_chan (chan_kind (declarations d.now) (word_of name.now)) ≡ true) × (chan ≡ chan_id (declarations d.now) (word_of name.now))) }
    ensures err { IfErr result (λ cause. (is_chan (chan_kind (declarations d.now) (word_of name.now)) ≡ false) × (cause ≡ WorkCause.Unknown)) }
{
    let (chan, kind) = chan_and_kind(d, name);
    match kind {
        Some(ChanKind::Chan) => Ok(chan),
        _ => Err(WorkCause::Unknown),
    }
}

/// The semaphore of this name.
pub fn sema_of(d: &Declared, name: &Name) -> Result<ChanId, WorkCause>
    ensures ok { IfOk result (λ chan. (is_sema (chan_kind (declarations d.now) (word_of name.now)) ≡ true) × (chan ≡ chan_id (declarations d.now) (word_of name.now))) }
    ensures err { IfErr result (λ cause. (is_sema (chan_kind (declarations d.now) (word_of name.now)) ≡ false) × (cause ≡ WorkCause.Unknown)) }
{
    let (chan, kind) = chan_and_kind(d, name);
    match kind {
        Some(ChanKind::Sema { .. }) => Ok(chan),
        _ => Err(WorkCause::Unknown),
    }
}

/// The thread of this name.
pub fn thread_of(d: &Declared, name: &Name) -> Result<ThreadId, WorkCause>
    ensures ok { IfOk result (λ thread. (is_thread_name (declarations d.now) (word_of name.now) ≡ true) × (thread ≡ thread_id (declarations d.now) (word_of name.now))) }
    ensures err { IfErr result (λ cause. (is_thread_name (declarations d.now) (word_of name.now) ≡ false) × (cause ≡ WorkCause.Unknown)) }
    ensures within { IfOk result (λ thread. thread.0 < length d.now.threads.items) }
{
    let number = thread_number(d, name);
    if number < d.threads.len() {
        Ok(ThreadId(number as u16))
    } else {
        Err(WorkCause::Unknown)
    }
}

// The number of a set, of which 0 is the default partition.
fn set_number(d: &Declared, set: &Option<Name>) -> usize
    ensures value { result ≡ set_number (declarations d.now) (option_map word_of set.now) }
    ensures bound { result ≤ length d.now.sets.items + 1 }
{
    match set {
        Some(name) => set_place(d, name) + 1,
        None => 0,
    }
}

/// The set of this name, or the default partition.
pub fn set_of(d: &Declared, set: &Option<Name>) -> Result<SetId, WorkCause>
    ensures ok { IfOk result (λ s. (is_set (declarations d.now) (option_map word_of set.now) ≡ true) × (s ≡ set_id (declarations d.now) (option_map word_of set.now))) }
    ensures err { IfErr result (λ cause. (is_set (declarations d.now) (option_map word_of set.now) ≡ false) × (cause ≡ WorkCause.Unknown)) }
{
    let number = set_number(d, set);
    if number < d.sets.len() + 1 {
        Ok(SetId(number as u8))
    } else {
        Err(WorkCause::Unknown)
    }
}
