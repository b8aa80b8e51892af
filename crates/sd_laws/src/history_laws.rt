//! Laws of the entries of a run so far, each as the contract of a function without a body.

ghost use Rattle.sd_laws.specs.HistoryLaws.{SemaphoresAreBounded, SemaphoresAreCounted, SemaphoresBalance, SemaphoreWaitersSleepUntilHanded, SleepersSleepUntilWoken, SleepersWaitAtZero, WaitersSleepUntilWoken, WakesAreCounted, WokenStayRunnable};
ghost use Rattle.sd_invariants.specs.Laws.{HoldsWhenReached};

/// The accounts count an entry as a wake of a thread exactly where its event wakes that thread: after a nap, a sleep or a
/// wait for a lock. The summary counts an entry as a wake exactly where its event wakes a thread.
pub fn wakes_are_counted()
    ensures { WakesAreCounted }
{}

/// A woken sleeper is runnable or running. From an entry that the accounts count as a wake of a thread, and as long as no
/// later entry is a nap, sleep, block, cvwait, semawait or done of that thread, it is on a dispatch queue or runs.
/// The run of `examples/broadcast.workload` has such entries: three `rouse` and a `napend`.
pub fn woken_stay_runnable()
    ensures { WokenStayRunnable }
{}

/// From an entry that puts a thread to sleep on a channel, by `sleep`, `cvwait` or `semawait`, and as long as no later entry
/// wakes that thread, it is asleep on that channel with the key of that entry; and no `wake` of the channel wakes nobody,
/// nor is a semaphore on which it sleeps counted up. The runs of `examples/broadcast.workload` and
/// `examples/semaphore.workload` have such entries.
pub fn sleepers_sleep_until_woken()
    ensures { SleepersSleepUntilWoken }
{}

/// From a `cvwait` entry of a thread, and as long as no later entry wakes it, the thread is asleep on the condition
/// variable, and no `wake` of that wakes nobody. So no wakeup is lost between the release of the mutex and the sleep.
/// In the run of `examples/broadcast.workload` three threads sleep so until they are roused.
pub fn waiters_sleep_until_woken()
    ensures { WaitersSleepUntilWoken }
{}

/// The count of each semaphore is its first count, plus its `semav` entries so far that woke nobody, minus its `semap`
/// entries so far. At the end of the run of `examples/semaphore.workload` the count of `room` is 1 + 1 - 1.
pub fn semaphores_are_counted()
    ensures { SemaphoresAreCounted }
{}

/// Where a thread sleeps on a semaphore, the count is 0: nobody sleeps on one whose count is above 0. A channel that is no
/// semaphore always has a count of 0. Both semaphores of `examples/semaphore.workload` have sleepers.
pub fn semaphore_sleepers_wait_at_zero()
    ensures { HoldsWhenReached SleepersWaitAtZero }
{}

/// The count of a semaphore and the operations of all scripts that asked for it and are over come to its first count, the
/// operations that gave it and are over, and the threads that sleep on it. An operation that asks is over where its thread
/// goes to sleep: behind entry 10 of the run of `examples/semaphore.workload`, where one thread sleeps on `room`, this says
/// 0 + 2 = 1 + 0 + 1.
pub fn semaphores_balance()
    ensures { HoldsWhenReached SemaphoresBalance }
{}

/// The count of a semaphore is at most its first count and the operations of all scripts that gave it and are over.
pub fn semaphores_are_bounded()
    ensures { HoldsWhenReached SemaphoresAreBounded }
{}

/// From a `semawait` entry of a thread, and as long as no later `semav` entry hands the semaphore to it, the thread is
/// asleep on the semaphore, and no `semav` of that counts it up: nothing else wakes it. The run of
/// `examples/semaphore.workload` has three such entries.
pub fn semaphore_waiters_sleep_until_handed()
    ensures { SemaphoreWaitersSleepUntilHanded }
{}
