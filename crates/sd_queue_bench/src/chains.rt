//! Boxes that come and go in the middle of a channel of a sleep chain, and of a side of a lock.
ghost use Rattle.std.specs.Prelude.{◌≡◌};

use crate::items::{Made, Tag, node};
use crate::measure::{CALLS, GUEST, Measured, STANDING, guest, standing, time_of};
use sd_sleepq::SleepChain;
use sd_turnstile::{Turnstile, TurnstileChain};
use sd_types::{ChanId, LockId, Side};
use std::alloc::{AllocError, Global};
use std::io;
use std::time::{Clock, Instant};

// The last ones first, so that each comes to the front.
fn fill_channel<T: Made + Drop>(alloc: Global, chain: &mut SleepChain<T>) -> Result<(), AllocError>
    requires { chain.old.chain ≡ 0 }
    ensures { chain.new.chain ≡ 0 }
{
    for id in 0..STANDING {
        chain.sleep(ChanId(64), node(alloc, standing(STANDING - 1 - id))?);
    }
    Ok(())
}

fn put_sleepers<T: Made + Drop>(alloc: Global, chain: &mut SleepChain<T>) -> Result<(), AllocError>
    requires { chain.old.chain ≡ 0 }
    ensures { chain.new.chain ≡ 0 }
{
    for _ in 0..CALLS {
        chain.sleep(ChanId(64), node(alloc, guest())?);
    }
    Ok(())
}

fn take_sleepers<T: Made + Drop>(chain: &mut SleepChain<T>) -> u32 {
    let mut done = 0u32;
    for _ in 0..CALLS {
        if chain.take(GUEST).is_some() {
            done = done.saturating_add(1);
        }
    }
    done
}

fn measure_channel<T: Made + Drop>(
    clock: &impl Clock,
    alloc: Global,
    chain: &mut SleepChain<T>,
) -> io::Result<[Measured; 2]>
    requires { chain.old.chain ≡ 0 }
{
    fill_channel(alloc, chain)?;
    let start = Instant::now(clock)?;
    put_sleepers(alloc, chain)?;
    let slept = time_of(clock, start, CALLS)?;
    let start = Instant::now(clock)?;
    let taken = time_of(clock, start, take_sleepers(chain))?;
    Ok([slept, taken])
}

/// The calls in the middle of a channel of a sleep chain: `sleep` and `take`.
pub fn measure_sleepers<T: Made + Drop>(
    clock: &impl Clock,
    alloc: Global,
) -> io::Result<[Measured; 2]> {
    let mut chain: SleepChain<T> = SleepChain::new(0);
    measure_channel(clock, alloc, &mut chain)
}

fn block<T: Made + Drop>(
    alloc: Global,
    chain: &mut TurnstileChain<T>,
    tag: Tag,
) -> Result<(), AllocError>
    requires chain { chain.old.chain ≡ 0 }
    requires rank { tag.rank ≡ 80 }
    ensures { chain.new.chain ≡ 0 }
{
    let waiter = node(alloc, tag)?;
    chain.block(LockId(64), Side::Writer, waiter, Turnstile::new(alloc)?);
    Ok(())
}

// The last ones first, so that each comes to the front.
fn fill_lock<T: Made + Drop>(alloc: Global, chain: &mut TurnstileChain<T>) -> Result<(), AllocError>
    requires { chain.old.chain ≡ 0 }
    ensures { chain.new.chain ≡ 0 }
{
    for id in 0..STANDING {
        block(alloc, chain, standing(STANDING - 1 - id))?;
    }
    Ok(())
}

fn put_waiters<T: Made + Drop>(
    alloc: Global,
    chain: &mut TurnstileChain<T>,
) -> Result<(), AllocError>
    requires { chain.old.chain ≡ 0 }
    ensures { chain.new.chain ≡ 0 }
{
    for _ in 0..CALLS {
        block(alloc, chain, guest())?;
    }
    Ok(())
}

fn take_waiters<T: Made + Drop>(chain: &mut TurnstileChain<T>) -> u32 {
    let mut done = 0u32;
    for _ in 0..CALLS {
        if chain.take(GUEST).is_some() {
            done = done.saturating_add(1);
        }
    }
    done
}

fn measure_lock<T: Made + Drop>(
    clock: &impl Clock,
    alloc: Global,
    chain: &mut TurnstileChain<T>,
) -> io::Result<[Measured; 2]>
    requires { chain.old.chain ≡ 0 }
{
    fill_lock(alloc, chain)?;
    let start = Instant::now(clock)?;
    put_waiters(alloc, chain)?;
    let blocked = time_of(clock, start, CALLS)?;
    let start = Instant::now(clock)?;
    let taken = time_of(clock, start, take_waiters(chain))?;
    Ok([blocked, taken])
}

/// The calls in the middle of a side of a lock: `block` and `take`.
pub fn measure_waiters<T: Made + Drop>(
    clock: &impl Clock,
    alloc: Global,
) -> io::Result<[Measured; 2]> {
    let mut chain: TurnstileChain<T> = TurnstileChain::new(0);
    measure_lock(clock, alloc, &mut chain)
}
