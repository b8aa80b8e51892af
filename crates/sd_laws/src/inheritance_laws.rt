//! Laws of priority inheritance, each as the contract of a function without a body.

ghost use Rattle.sd_laws.specs.InheritanceLaws.{CyclesStay, CyclicThreadsStay, InheritanceIsLocal, MaximaWithoutCycles, OwnersHaveChainMaximum, PrioritiesAreMaxima, WalksEndAtUnowned, WalksGoOn, WalksLeadOn};
ghost use Rattle.sd_invariants.specs.Laws.{HoldsAfterEntries, HoldsWhenReached};

/// A thread inherits only through locks that it owns. For each lock whose owner is in no blocking cycle and at which no
/// walk stands, the owner inherits exactly the greatest effective priority of the lock's waiters, and nothing where
/// nobody waits.
pub fn inheritance_is_local()
    ensures { HoldsWhenReached (λ w s. InheritanceIsLocal s) }
{}

/// After n entries inheritance is local; a walk that stands at a lock whose owner waits, with a key of at most the walk's,
/// has come along the chain of the thread that it seeks; a looped thread is in a blocking cycle; and the keys of waiters
/// and walks are less than 4096 + n.
pub fn walks_lead_on()
    ensures { HoldsAfterEntries (λ w n s. WalksLeadOn n s) }
{}

/// The effective priority of a thread that is in no blocking cycle is the maximum of the base priorities of itself and of
/// all threads blocked behind it, through any number of locks, where no walk stands at a lock of one of these.
pub fn owners_have_chain_maximum()
    ensures { HoldsWhenReached (λ w s. OwnersHaveChainMaximum s) }
{}

/// Where no processor walks along a chain, the effective priority of each thread that is in no blocking cycle is the
/// maximum of the base priorities of itself and of all threads blocked behind it.
pub fn priorities_are_maxima()
    ensures { HoldsWhenReached (λ w s. PrioritiesAreMaxima s) }
{}

/// A walk that has given an owner its number goes on to the lock on which that owner waits. It ends at an owner that waits
/// on none, and at one that is looped or is the thread that it seeks: such an owner is in a blocking cycle.
pub fn walks_go_on()
    ensures { WalksGoOn }
{}

/// A walk ends without giving anybody a number only at a lock that nobody owns.
pub fn walks_end_at_unowned()
    ensures { WalksEndAtUnowned }
{}

/// The threads of a blocking cycle are one in each later state of the run: where its last state has no blocking cycle, no
/// state of the run had one.
pub fn cycles_stay()
    ensures { CyclesStay }
{}

/// A thread that is in a blocking cycle is in one in each later state of the run.
pub fn cyclic_threads_stay()
    ensures { CyclicThreadsStay }
{}

/// Where no blocking cycle is listed at the end of a run, in each of its states in which no processor walks along a chain the
/// effective priority of every thread is the maximum of the base priorities of itself and of all threads blocked behind it.
pub fn priorities_are_maxima_without_cycles()
    ensures { MaximaWithoutCycles }
{}
