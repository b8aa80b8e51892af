//! What a processor acts on, whoever keeps the homes of the run: one thread of the host that has all of them, or many that share them.

ghost use Rattle.std.specs.Prelude.{◌≡◌};
ghost use Rattle.sd_world.specs.Plain.{AreCpus};
ghost use Rattle.sd_world.specs.Worlds.{CanCommit, CanLock, CanTake, Commits, Finds, Gives, HasReserved, IsGood, Locks, Meaning, ReadsCounts, ReadsHints, Reserves, Takes};

use sd_dispatcher::Reading;
use sd_hand::Acting;
use sd_types::{CpuId, Event, Hints, HomeId, Stop, ThreadId, Work};

/// Whether a home was taken, or who holds it.
#[derive(Clone, Copy)]
pub enum Take {
    Taken,
    Busy { holder: CpuId },
}

/// Whether the home in which a thread stands was taken, who holds it, or between which homes the thread moved meanwhile.
#[derive(Clone, Copy)]
pub enum ThreadLock {
    Held { home: HomeId },
    Busy { home: HomeId, holder: CpuId },
    Moved { from: HomeId, to: HomeId },
}

/// A processor with its count of ticks, which is below that of the processor that acts.
#[derive(Clone, Copy)]
pub struct Behind {
    pub cpu: CpuId,
    pub count: u32,
}

/// Homes that a processor takes and gives back, numbers that it reads of others, and the entries that it makes. What the processor
/// holds is so in every run to which its world may have come; what others hold may change between two calls.
pub trait World {
    /// What the world means.
    ghost meaning: { Self → Meaning };

    /// What the world keeps besides.
    ghost good: { Self → Type 0 };

    /// The processor that acts, with what it holds.
    fn acting(&self) -> &Acting
        ensures { result.now ≡ (meaning self.now).acting };

    /// All homes are in its hand from the first.
    fn has_all(&self) -> bool
        ensures { result ≡ (meaning self.now).all };

    /// Takes the home of this number, or finds it in its hand where it has all. `Busy` only where another processor holds it: where others
    /// make entries too, the lock of this very home was found taken, with that processor's number.
    fn take(&mut self, k: HomeId) -> Take
        requires good { good self.old }
        requires can { CanTake (meaning self.old) k }
        ensures good { good self.new }
        ensures takes { Takes (meaning self.old) (meaning self.new) k result };

    /// Takes the home in which the thread stands, or finds it in its hand where it has all. Where others make entries too, `Busy` and `Moved`
    /// tell what was read: the home that this thread's word named, whose lock was found taken; or two different homes that the word named,
    /// one after the other.
    fn lock_thread(&mut self, t: ThreadId) -> ThreadLock
        requires good { good self.old }
        requires can { CanLock (meaning self.old) t }
        ensures good { good self.new }
        ensures locks { Locks (meaning self.old) (meaning self.new) t result };

    /// Reads the numbers that these processors show.
    fn hints(&mut self, work: &Work, reading: &Reading) -> Hints
        requires good { good self.old }
        requires work { work.now ≡ (meaning self.old).work }
        requires there { AreCpus work.now reading.now.cpus.items }
        ensures good { good self.new }
        ensures reads { ReadsHints (meaning self.old) (meaning self.new) reading.now result };

    /// Another processor whose count is below that of the processor that acts, where one is found, with the number that was read of it.
    fn behind(&mut self, work: &Work) -> Option<Behind>
        requires good { good self.old }
        requires work { work.now ≡ (meaning self.old).work }
        ensures good { good self.new }
        ensures reads { ReadsCounts (meaning self.old) (meaning self.new) }
        ensures finds { Finds (meaning self.old) (meaning self.new) result };

    /// Makes room for one entry. `Full` exactly where 2^40 entries or more were made.
    fn reserve(&mut self) -> Result<(), Stop>
        requires good { good self.old }
        ensures good { good self.new }
        ensures same { Reserves (meaning self.old) (meaning self.new) }
        ensures room { HasReserved (meaning self.old) (meaning self.new) result };

    /// Makes this one entry, and answers its number. The hand has what it had.
    fn commit(&mut self, work: &Work, event: Event, hints: Option<Hints>) -> u64
        requires good { good self.old }
        requires can { CanCommit (meaning self.old) work.now event hints }
        ensures good { good self.new }
        ensures commits { Commits (meaning self.old) (meaning self.new) result event hints };

    /// Gives all homes back.
    fn give_all(&mut self)
        requires good { good self.old }
        ensures good { good self.new }
        ensures gives { Gives (meaning self.old) (meaning self.new) };

    /// The processor that acts is one of the workload, and what it holds is so after the run that was seen.
    ghost sound: { (x : Self) → good x → IsGood (meaning x) };
}
