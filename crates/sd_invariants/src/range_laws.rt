//! Laws of what is there, each as the contract of a function without a body.

ghost use Rattle.sd_invariants.specs.Complete.{CompleteRunsReachTheLimit};
ghost use Rattle.sd_invariants.specs.Needed.{EventsHaveWhatTheyNeed};
ghost use Rattle.sd_invariants.specs.There.{BoundAreCounted, CpusAreThere, LocksAreThere, SetsAreOpen, ThreadsAreThere, ThreadsHaveCpus};
ghost use Rattle.sd_invariants.specs.Laws.{HoldsWhenReached};

/// In every state of every run the place of each thread names a processor, a set, a lock or a channel of the workload;
/// the processor on which it ran last, the one to which it is bound and the locks that it holds are there.
pub fn threads_are_there()
    ensures { HoldsWhenReached ThreadsAreThere }
{}

/// The set of each processor and the one to which it is closing are there, and so are the lock, the channel and the
/// thread that its duty names.
pub fn processors_are_there()
    ensures { HoldsWhenReached CpusAreThere }
{}

/// The owner of each lock is there, and the processor that passes one on.
pub fn locks_are_there()
    ensures { HoldsWhenReached LocksAreThere }
{}

/// Each set has an open processor.
pub fn sets_are_open()
    ensures { HoldsWhenReached SetsAreOpen }
{}

/// Each thread has a processor on which it may run, and each such processor is there.
pub fn threads_have_cpus()
    ensures { HoldsWhenReached ThreadsHaveCpus }
{}

/// Each processor counts exactly the threads that are bound to it.
pub fn bindings_are_counted()
    ensures { HoldsWhenReached BoundAreCounted }
{}

/// A processor that may make an event in a state of a run is there, and the event has what it needs: what it names is there; its thread runs
/// on the processor and stands at an operation where one is over, or nobody runs there who would be in the way; there is
/// room for one lock, one processor or one thread more, and no count leaves its type; who inherits a priority holds the
/// lock, and who is given a lock does not hold it.
pub fn events_have_what_they_need()
    ensures { EventsHaveWhatTheyNeed }
{}

/// A run is complete only where each processor has counted the ticks of the limit.
pub fn complete_runs_reach_the_limit()
    ensures { CompleteRunsReachTheLimit }
{}
