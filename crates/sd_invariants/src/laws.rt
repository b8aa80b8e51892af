//! Laws of the whole machine, each as the contract of a function without a body.

ghost use Rattle.sd_state.specs.Invariants.{KeysDiffer, KeysWithin, OneRuns, UrgentThreads};
ghost use Rattle.sd_invariants.specs.Holding.{Agreed, DutiesServe, ReadsWell};
ghost use Rattle.sd_invariants.specs.Laws.{AreSound, CountsWithin, EventsHaveCauses, FrontsAreRuns, HoldsAfterEntries, HoldsWhenReached, OneNext, OpenHold, StatesFit, WokenAreRunnable};
ghost use Rattle.sd_invariants.specs.Scripted.{Scripted};

/// In every state of every run each thread stands at an operation of its script or behind the last; it holds exactly
/// the locks that the operations before took and did not give up; and where it waits for a lock, its operation wants
/// that lock at that side.
pub fn scripts_are_followed()
    ensures { HoldsWhenReached Scripted }
{}

/// A lock is free, owned, held by readers or handed over exactly as threads hold it and processors have the duty to
/// hand it over: a free lock has no holder and no waiter, an owned one is held by its owner alone, one that n readers
/// hold by n threads, and one that is handed over by the processor that has the duty.
pub fn locks_agree()
    ensures { HoldsWhenReached (λ w s. Agreed s) }
{}

/// A processor that has to wake the waiters of a mutex, or to hand a rwlock over to a writer, has one to wake or to
/// hand it to; and the lock is of that kind.
pub fn duties_serve()
    ensures { HoldsWhenReached DutiesServe }
{}

/// Only a rwlock is held by readers, and where threads wait for one that is, a writer is among them.
pub fn readers_wait_for_writers()
    ensures { HoldsWhenReached ReadsWell }
{}

/// Each event that a processor may make in a state of a run has its cause in that state: its thread runs or is the
/// best of its queue, the operation asks for it, the lock is as the event takes it to be, and so on for each event.
pub fn events_have_causes()
    ensures { EventsHaveCauses }
{}

/// No processor has counted more ticks than the workload's limit.
pub fn counts_within()
    ensures { HoldsWhenReached CountsWithin }
{}

/// At most one thread runs on each processor, in every state of every run.
pub fn one_runs()
    ensures { HoldsWhenReached (λ w s. OneRuns s) }
{}

/// An event that wakes a thread after a nap, a sleep or a wait for a lock leaves it on a dispatch queue.
pub fn woken_are_runnable()
    ensures { WokenAreRunnable }
{}

/// Keys in one queue differ: two threads of one queue with equal keys are the same thread.
pub fn keys_differ()
    ensures { HoldsWhenReached (λ w s. KeysDiffer s) }
{}

/// After n entries each key of a thread is at least -n and less than 4096 + n.
pub fn keys_within()
    ensures { HoldsAfterEntries (λ w n s. KeysWithin n s) }
{}

/// A thread inherits priorities only through locks that it holds, one number for each, and all of them and its effective
/// priority are below 160.
pub fn inheritance_is_sound()
    ensures { HoldsWhenReached (λ w s. AreSound s) }
{}

/// The open processors of each set rise, and each of them is one of the workload's, is of that set, and is not closing.
pub fn open_lists_hold()
    ensures { HoldsWhenReached OpenHold }
{}

/// A state of a run has as much of everything as its workload; owners of locks are there, inherited priorities are below
/// 160, and the count of each semaphore may rise once more in 32 bits, where it began with 16.
pub fn states_fit()
    ensures { StatesFit }
{}

/// Given a state, a number, a processor and what it reads there is at most one event and one next state.
pub fn one_next()
    ensures { OneNext }
{}

/// A prefix of a run is a run. So what a law says of the state after every run it says of each state in one.
pub fn fronts_are_runs()
    ensures { FrontsAreRuns }
{}

/// The threads that stand on real-time queues in the initial state are those of priority 100 or more.
pub fn urgent_threads()
    ensures { UrgentThreads }
{}
