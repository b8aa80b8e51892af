//! The numbers of processors, threads, locks, channels and sets, and the homes that they belong to.

ghost use Rattle.std.specs.Prelude.{◌≡◌, ◌%◌};

/// A processor, from 0.
#[derive(Clone, Copy, PartialEq, Eq, Default)]
pub struct CpuId(pub u16);

/// A thread, from 0, in the order of the declarations.
#[derive(Clone, Copy, PartialEq, Eq, Default)]
pub struct ThreadId(pub u16);

/// A lock, from 0; mutexes and rwlocks are numbered together.
#[derive(Clone, Copy, PartialEq, Eq, Default)]
pub struct LockId(pub u16);

/// A channel, from 0; semaphores are numbered with the other channels.
#[derive(Clone, Copy, PartialEq, Eq, Default)]
pub struct ChanId(pub u16);

/// A processor set. Number 0 is the default partition, and set number 1 is the first that is declared.
#[derive(Clone, Copy, PartialEq, Eq, Default)]
pub struct SetId(pub u8);

/// A home holds a part of the state under one lock: a processor, the real-time queue of a partition,
/// one of 64 chains of turnstiles, or one of 64 chains of sleepers (this project's own).
#[derive(Clone, Copy, PartialEq, Eq)]
pub enum HomeId {
    Cpu(CpuId),
    RealTime(SetId),
    Chain(u8),
    Sleepers(u8),
}

/// The side on which a thread waits for a lock. A waiter of a mutex is a writer.
#[derive(Clone, Copy, PartialEq, Eq)]
pub enum Side {
    Writer,
    Reader,
}

/// The chain of turnstiles on which the waiters of the lock stand.
pub fn home_of_lock(l: LockId) -> HomeId
    ensures { result ≡ HomeId.Chain (l.0 % 64) }
{
    HomeId::Chain((l.0 % 64) as u8)
}

/// The chain of sleepers on which the sleepers of the channel stand.
pub fn home_of_chan(k: ChanId) -> HomeId
    ensures { result ≡ HomeId.Sleepers (k.0 % 64) }
{
    HomeId::Sleepers((k.0 % 64) as u8)
}
