//! What homes keep beside their threads: processors, locks, the counts of channels and the open processors of sets, each in
//! the order of their numbers.

ghost use Rattle.std.specs.Prelude.{◌≡◌, ◌<◌, Some, length, slice_get, IfOk};
ghost use Rattle.sd_state.specs.declared.states.State.{State as StateOf};
ghost use Rattle.sd_state.specs.States.{cpu_of};
ghost use Rattle.sd_machine.specs.Threads.{count_of, lock_of, open_of};
ghost use Rattle.sd_store.specs.Parts.{view_of};
ghost use Rattle.sd_world.specs.Told.{AreActorsOf, IsActorOf, IsToldBy};

use arrayvec::ArrayVec;
use sd_hand::{Actor, Hand};
use sd_state::{CpuState, LockState};
use sd_store::CpuView;
use sd_types::{ChanId, CpuId, HomeId, LockId, SetId, home_of_chan, home_of_lock};
use std::alloc::{AllocError, Global};

/// The marks, the set and the bindings of processor `c`.
fn view_of(hand: &Hand, c: CpuId) -> CpuView
    requires { (s : StateOf) × IsToldBy hand.now.slots s × (c.0 < length s.cpus) }
    ensures { (s : StateOf) → IsToldBy hand.now.slots s → result ≡ view_of (cpu_of s c.0) }
{
    match hand.home(HomeId::Cpu(c)) {
        Err(_) => unreachable!(),
        Ok(home) => match home.view() {
            None => unreachable!(),
            Some(view) => view,
        },
    }
}

/// A processor as its home and the processor itself tell it.
fn cpu_of(hand: &Hand, actor: &Actor) -> CpuState
    requires { (s : StateOf) × IsToldBy hand.now.slots s × (actor.now.cpu.0 < length s.cpus) }
    ensures { (s : StateOf) → IsToldBy hand.now.slots s → IsActorOf s actor.now.cpu.0 actor.now → result ≡ cpu_of s actor.now.cpu.0 }
{
    let view = view_of(hand, actor.cpu);
    CpuState {
        count: actor.count,
        user: view.user,
        kernel: view.kernel,
        duty: actor.duty,
        set: view.set,
        closing: view.closing,
        bound: view.bound,
    }
}

/// All processors.
pub(crate) fn cpus_of(
    alloc: Global,
    hand: &Hand,
    actors: &[Actor],
) -> Result<Vec<CpuState>, AllocError>
    requires { (s : StateOf) × IsToldBy hand.now.slots s × AreActorsOf s actors.now }
    ensures { IfOk result (λ v. (s : StateOf) → IsToldBy hand.now.slots s → AreActorsOf s actors.now → v.items ≡ s.cpus) }
{
    let mut cpus = Vec::new(alloc);
    for c in 0..actors.len() {
        cpus.push(cpu_of(hand, &actors[c]))?;
    }
    Ok(cpus)
}

/// The state of lock `l`.
fn lock_of(hand: &Hand, l: LockId) -> LockState
    requires { (s : StateOf) × IsToldBy hand.now.slots s }
    ensures { (s : StateOf) → IsToldBy hand.now.slots s → result ≡ lock_of s l.0 }
{
    match hand.home(home_of_lock(l)) {
        Err(_) => unreachable!(),
        Ok(home) => home.lock(l),
    }
}

/// The states of the locks, so many.
pub(crate) fn locks_of(alloc: Global, hand: &Hand, many: u16) -> Result<Vec<LockState>, AllocError>
    requires { (s : StateOf) × IsToldBy hand.now.slots s }
    ensures { IfOk result (λ v. (s : StateOf) → IsToldBy hand.now.slots s → length s.locks ≡ many → v.items ≡ s.locks) }
{
    let mut locks = Vec::new(alloc);
    for l in 0..many {
        locks.push(lock_of(hand, LockId(l)))?;
    }
    Ok(locks)
}

/// The count of channel `k`.
fn tokens_of(hand: &Hand, k: ChanId) -> u32
    requires { (s : StateOf) × IsToldBy hand.now.slots s }
    ensures { (s : StateOf) → IsToldBy hand.now.slots s → result ≡ count_of s k.0 }
{
    match hand.home(home_of_chan(k)) {
        Err(_) => unreachable!(),
        Ok(home) => home.tokens(k),
    }
}

/// The counts of the channels, so many.
pub(crate) fn counts_of(alloc: Global, hand: &Hand, many: u16) -> Result<Vec<u32>, AllocError>
    requires { (s : StateOf) × IsToldBy hand.now.slots s }
    ensures { IfOk result (λ v. (s : StateOf) → IsToldBy hand.now.slots s → length s.counts ≡ many → v.items ≡ s.counts) }
{
    let mut counts = Vec::new(alloc);
    for k in 0..many {
        counts.push(tokens_of(hand, ChanId(k)))?;
    }
    Ok(counts)
}

/// The open processors of set `p`.
fn open_of(hand: &Hand, p: SetId) -> ArrayVec<CpuId, 64>
    requires { (s : StateOf) × IsToldBy hand.now.slots s × (p.0 < length s.open_cpus) }
    ensures { (s : StateOf) → IsToldBy hand.now.slots s → result.items ≡ open_of s p.0 }
{
    match hand.home(HomeId::RealTime(p)) {
        Err(_) => unreachable!(),
        Ok(home) => match ArrayVec::try_from(home.open_cpus()) {
            Err(_) => unreachable!(),
            Ok(cpus) => cpus,
        },
    }
}

/// The open processors of the sets, so many with the default partition.
pub(crate) fn open_lists(
    alloc: Global,
    hand: &Hand,
    many: u8,
) -> Result<Vec<ArrayVec<CpuId, 64>>, AllocError>
    requires { (s : StateOf) × IsToldBy hand.now.slots s × (length s.open_cpus ≡ many) }
    ensures { IfOk result (λ v. (s : StateOf) → IsToldBy hand.now.slots s → length s.open_cpus ≡ many → v.items ≡ s.open_cpus) }
{
    let mut lists = Vec::new(alloc);
    for p in 0..many {
        lists.push(open_of(hand, SetId(p)))?;
    }
    Ok(lists)
}
