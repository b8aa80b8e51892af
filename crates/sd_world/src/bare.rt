//! Homes with no thread, which keep beside their threads what a state has.

ghost use Rattle.std.specs.Prelude.{◌≡◌, ◌<◌, length, IfOk};
ghost use Rattle.sd_types.specs.declared.numbers.HomeId.TheVariants.{Chain, Cpu, RealTime, Sleepers};
ghost use Rattle.sd_machine.specs.Threads.{count_of, lock_of, open_of};
ghost use Rattle.sd_homes.specs.Families.{home_id};
ghost use Rattle.sd_world.specs.Homes.{IsBare, IsNumber, sizes_of};

use arrayvec::ArrayVec;
use sd_boxq::{Boxed, Four};
use sd_flat::cpu_of;
use sd_homes::{ChainHome, CpuHome, Home, RealTimeHome, SleepersHome};
use sd_record::copied;
use sd_state::{LockState, State};
use sd_store::view_of;
use sd_types::{CpuId, HomeId, LockId, SetId};
use std::alloc::{AllocError, Global};

fn lock_of(s: &State, l: u16) -> LockState
    ensures { result ≡ lock_of s.now l }
{
    s.locks
        .items()
        .get(l as usize)
        .copied()
        .unwrap_or(LockState::Free)
}

fn tokens_of(s: &State, k: u16) -> u32
    ensures { result ≡ count_of s.now k }
{
    s.counts.items().get(k as usize).copied().unwrap_or(0)
}

fn open_of(s: &State, p: SetId) -> ArrayVec<CpuId, 64>
    ensures { result.items ≡ open_of s.now p.0 }
{
    match s.open_cpus.items().get(p.0 as usize) {
        Some(cpus) => copied(cpus),
        None => ArrayVec::new(),
    }
}

/// How many threads there are, each of which is looked up by its number.
fn thread_count(s: &State) -> u16 {
    u16::try_from(s.threads.items().len()).unwrap_or(u16::MAX)
}

/// The home of processor `c`.
fn bare_cpu(alloc: Global, s: &State, c: CpuId) -> Result<Home, AllocError>
    requires { c.0 < length s.now.cpus }
    ensures { IfOk result (λ h. (home_id h ≡ Cpu c) × IsBare s.now h) }
{
    let view = view_of(cpu_of(s, c));
    let home = CpuHome::new(alloc, c, view, thread_count(s))?;
    Ok(Home::Cpu(Boxed::new(alloc, home)?))
}

/// The home of the real-time queue of set `p`.
fn bare_real_time(alloc: Global, s: &State, p: SetId) -> Result<Home, AllocError>
    requires { p.0 < length s.now.open_cpus }
    ensures { IfOk result (λ h. (home_id h ≡ RealTime p) × IsBare s.now h) }
{
    let home = RealTimeHome::new(alloc, p, open_of(s, p), thread_count(s))?;
    Ok(Home::RealTime(Boxed::new(alloc, home)?))
}

/// The home of a chain of turnstiles.
fn bare_chain(alloc: Global, s: &State, i: u8) -> Result<Home, AllocError>
    requires { i < 64 }
    ensures { IfOk result (λ h. (home_id h ≡ Chain i) × IsBare s.now h) }
{
    let first = u16::from(i);
    let mut home = ChainHome::new(i);
    home.set_lock(LockId(first), lock_of(s, first));
    home.set_lock(LockId(first + 64), lock_of(s, first + 64));
    home.set_lock(LockId(first + 128), lock_of(s, first + 128));
    home.set_lock(LockId(first + 192), lock_of(s, first + 192));
    Ok(Home::Chain(Boxed::new(alloc, home)?))
}

/// The home of a chain of sleep queues.
fn bare_sleepers(alloc: Global, s: &State, i: u8) -> Result<Home, AllocError>
    requires { i < 64 }
    ensures { IfOk result (λ h. (home_id h ≡ Sleepers i) × IsBare s.now h) }
{
    let first = u16::from(i);
    let counts = Four::new(
        tokens_of(s, first),
        tokens_of(s, first + 64),
        tokens_of(s, first + 128),
        tokens_of(s, first + 192),
    );
    Ok(Home::Sleepers(Boxed::new(alloc, SleepersHome::new(i, counts))?))
}

/// The home of this number without its threads.
pub(crate) fn bare_home(alloc: Global, s: &State, k: HomeId) -> Result<Home, AllocError>
    requires { IsNumber (sizes_of s.now) k }
    ensures { IfOk result (λ h. (home_id h ≡ k) × IsBare s.now h) }
{
    match k {
        HomeId::Cpu(c) => bare_cpu(alloc, s, c),
        HomeId::RealTime(p) => bare_real_time(alloc, s, p),
        HomeId::Chain(i) => bare_chain(alloc, s, i),
        HomeId::Sleepers(i) => bare_sleepers(alloc, s, i),
    }
}
