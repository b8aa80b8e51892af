//! Laws of where threads stand, each as the contract of a function without a body.

ghost use Rattle.sd_laws.specs.Belonging.{EachInOnePlace, OpenListsAreExact, ThreadsBelong};
ghost use Rattle.sd_laws.specs.Changes.{BoundAreDispatchedAtHome, SetsChangeByJoining, StolenAreUnbound};
ghost use Rattle.sd_state.specs.Invariants.{MarksStand};
ghost use Rattle.sd_invariants.specs.Laws.{HoldsAfterEntries, HoldsWhenReached};

/// In every state of every run each thread stands where its processor set, its binding and its priority ask. A thread
/// on a real-time queue has an effective priority of at least 100, is not bound, and the queue is that of its set. One on
/// the queue of a processor of its set is bound to that processor, or is not bound and below 100. One that runs does so on a
/// processor of its set, and where it is bound to another one the kernel's mark is set there. The processor to which a
/// thread is bound is in its set and is not closing.
pub fn threads_belong()
    ensures { HoldsWhenReached ThreadsBelong }
{}

/// The open list of each set rises, has exactly the processors of the set that are not closing, and is never empty.
pub fn open_lists_are_exact()
    ensures { HoldsWhenReached OpenListsAreExact }
{}

/// Where a thread runs and one on the processor's own queue has a greater effective priority, the user's mark or the kernel's
/// is set; a processor on which no thread runs has no mark.
pub fn marks_stand()
    ensures { HoldsWhenReached (λ w s. MarksStand s) }
{}

/// The set of a processor changes only by its own event of joining, with no thread on it and none on its queue.
pub fn sets_change_by_joining()
    ensures { SetsChangeByJoining }
{}

/// A thread that is bound to a processor is dispatched by that one alone, and no such thread is stolen.
pub fn bound_threads_are_dispatched_at_home()
    ensures dispatched { BoundAreDispatchedAtHome }
    ensures stolen { StolenAreUnbound }
{}

/// Each thread is in exactly one place, which is there; at most one runs on each processor, and the keys of a queue differ.
pub fn one_place()
    ensures { HoldsAfterEntries EachInOnePlace }
{}
