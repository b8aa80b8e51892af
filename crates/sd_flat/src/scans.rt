//! The searches for a thread, each by one scan. A scan finds a place in the list of the threads, whose number is that of the thread there: such
//! a list has no bound by its type, and each state of a run has at most 65,536 threads.

ghost use Rattle.std.specs.Prelude.{◌≡◌, ◌<◌, ◌≤◌, length, option_map, IfSome};
ghost use Rattle.sd_flat.specs.Standings.{best_standing, first_over, first_to_age, stands};
ghost use Rattle.sd_machine.specs.Threads.{best_queued, best_ready, best_sleeper, best_sleeper_below, best_unbound, best_waiter, first_due, is_due, naps_less, next_to_age, runner};
ghost use Rattle.sd_state.specs.Best.{beats};
ghost use Rattle.sd_state.specs.States.{no_thread};
ghost use Rattle.sd_state.proofs.BestLemmas.{goes_ahead_by};

use crate::orders::{beats, naps_less};
use crate::reads::cpu_of;
use crate::standings::{Standing, is_due, is_queued, is_running, is_ts, stands};
use sd_state::{State, ThreadState};
use sd_types::{ChanId, CpuId, LockId, Side, ThreadId};

/// The thread at a place of the list that a scan found.
fn thread_at(s: &State, index: Option<usize>) -> Option<ThreadId>
    requires { IfSome index (λ i. i < length s.now.threads) }
    ensures value { length s.now.threads ≤ 65536 → option_map (λ t. t.0) result ≡ index }
    ensures inside { IfSome result (λ t. t.0 < length s.now.threads) }
{
    match index {
        Some(i) if i < 65536 => Some(ThreadId(i as u16)),
        _ => None,
    }
}

/// Thread `i` stands there and goes before the best so far.
fn goes_ahead(standing: Standing, threads: &[ThreadState], best: Option<usize>, i: usize) -> bool
    requires here { i < length threads.now }
    requires best { IfSome best (λ b. b < length threads.now) }
    ensures { result ≡ goes_ahead_by (λ x. stands standing x) beats no_thread threads.now best i }
{
    stands(standing, &threads[i])
        && match best {
            None => true,
            Some(b) => beats(&threads[i], &threads[b]),
        }
}

/// The best thread that stands there.
#[tactic(auto, unfolding(crate::specs::Standings::best_standing))]
fn best_standing(standing: Standing, threads: &[ThreadState]) -> Option<usize>
    ensures value { result ≡ best_standing standing threads.now }
    ensures inside { IfSome result (λ t. t < length threads.now) }
{
    let mut best = None;
    for i in 0..threads.len() {
        if goes_ahead(standing, threads, best, i) {
            best = Some(i);
        }
    }
    best
}

/// The nap of thread `i` on processor `c` is over, and before that of the first so far.
fn is_over_before(
    c: CpuId,
    count: u32,
    threads: &[ThreadState],
    first: Option<usize>,
    i: usize,
) -> bool
    requires here { i < length threads.now }
    requires first { IfSome first (λ b. b < length threads.now) }
    ensures { result ≡ goes_ahead_by (λ x. is_due c.0 count x.place) naps_less no_thread threads.now first i }
{
    is_due(c, count, &threads[i].place)
        && match first {
            None => true,
            Some(b) => naps_less(&threads[i], &threads[b]),
        }
}

/// The thread whose nap on processor `c` is over first, where one is over at this count.
#[tactic(auto, unfolding(crate::specs::Standings::first_over))]
fn first_over(c: CpuId, count: u32, threads: &[ThreadState]) -> Option<usize>
    ensures value { result ≡ first_over c.0 count threads.now }
    ensures inside { IfSome result (λ t. t < length threads.now) }
{
    let mut first = None;
    for i in 0..threads.len() {
        if is_over_before(c, count, threads, first, i) {
            first = Some(i);
        }
    }
    first
}

/// The place in the list of the thread that runs on processor `c`.
#[tactic(auto, unfolding(sd_machine::specs::Threads::runner))]
pub fn index_of_runner(s: &State, c: CpuId) -> Option<usize>
    ensures value { result ≡ runner s.now c.0 }
    ensures inside { IfSome result (λ i. i < length s.now.threads) }
{
    s.threads
        .items()
        .iter()
        .position(|x| is_running(c, &x.place))
}

/// The place in the list of the best thread on the queue of processor `c` that is bound to no processor.
#[tactic(auto, unfolding(sd_machine::specs::Threads::best_unbound, crate::specs::Standings::best_standing))]
pub(crate) fn index_of_best_unbound(s: &State, c: CpuId) -> Option<usize>
    ensures value { result ≡ best_unbound s.now c.0 }
    ensures inside { IfSome result (λ i. i < length s.now.threads) }
{
    best_standing(Standing::Unbound(c), s.threads.items())
}

/// The thread that runs on processor `c`.
pub fn runner(s: &State, c: CpuId) -> Option<ThreadId>
    ensures value { length s.now.threads ≤ 65536 → option_map (λ t. t.0) result ≡ runner s.now c.0 }
    ensures inside { IfSome result (λ t. t.0 < length s.now.threads) }
{
    thread_at(s, index_of_runner(s, c))
}

/// The best thread on the queue of processor `c` or on the real-time queue of its partition.
#[tactic(auto, unfolding(sd_machine::specs::Threads::best_ready, crate::specs::Standings::best_standing))]
pub fn best_ready(s: &State, c: CpuId) -> Option<ThreadId>
    ensures value { length s.now.threads ≤ 65536 → option_map (λ t. t.0) result ≡ best_ready s.now c.0 }
    ensures inside { IfSome result (λ t. t.0 < length s.now.threads) }
{
    thread_at(
        s,
        best_standing(Standing::Ready(c, cpu_of(s, c).set), s.threads.items()),
    )
}

/// The best thread on the queue of processor `c` alone.
#[tactic(auto, unfolding(sd_machine::specs::Threads::best_queued, crate::specs::Standings::best_standing))]
pub fn best_queued(s: &State, c: CpuId) -> Option<ThreadId>
    ensures value { length s.now.threads ≤ 65536 → option_map (λ t. t.0) result ≡ best_queued s.now c.0 }
    ensures inside { IfSome result (λ t. t.0 < length s.now.threads) }
{
    thread_at(s, best_standing(Standing::Queued(c), s.threads.items()))
}

/// The best thread on the queue of processor `c` that is bound to no processor.
pub fn best_unbound(s: &State, c: CpuId) -> Option<ThreadId>
    ensures value { length s.now.threads ≤ 65536 → option_map (λ t. t.0) result ≡ best_unbound s.now c.0 }
    ensures inside { IfSome result (λ t. t.0 < length s.now.threads) }
{
    thread_at(s, index_of_best_unbound(s, c))
}

/// The best thread that waits for lock `l` at a side.
#[tactic(auto, unfolding(sd_machine::specs::Threads::best_waiter, crate::specs::Standings::best_standing))]
pub fn best_waiter(s: &State, l: LockId, side: Side) -> Option<ThreadId>
    ensures value { length s.now.threads ≤ 65536 → option_map (λ t. t.0) result ≡ best_waiter s.now l.0 side }
    ensures inside { IfSome result (λ t. t.0 < length s.now.threads) }
{
    thread_at(
        s,
        best_standing(Standing::Waiting(l, side), s.threads.items()),
    )
}

/// The best thread that sleeps on channel `k`.
#[tactic(auto, unfolding(sd_machine::specs::Threads::best_sleeper, crate::specs::Standings::best_standing))]
pub fn best_sleeper(s: &State, k: ChanId) -> Option<ThreadId>
    ensures value { length s.now.threads ≤ 65536 → option_map (λ t. t.0) result ≡ best_sleeper s.now k.0 }
    ensures inside { IfSome result (λ t. t.0 < length s.now.threads) }
{
    thread_at(s, best_standing(Standing::Asleep(k), s.threads.items()))
}

/// The best thread that sleeps on channel `k` with a key below a number.
#[tactic(auto, unfolding(sd_machine::specs::Threads::best_sleeper_below, crate::specs::Standings::best_standing))]
pub fn best_sleeper_below(s: &State, k: ChanId, below: i64) -> Option<ThreadId>
    ensures value { length s.now.threads ≤ 65536 → option_map (λ t. t.0) result ≡ best_sleeper_below s.now k.0 below }
    ensures inside { IfSome result (λ t. t.0 < length s.now.threads) }
{
    thread_at(
        s,
        best_standing(Standing::AsleepBelow(k, below), s.threads.items()),
    )
}

/// The thread whose nap on processor `c` is over first, where one is over.
#[tactic(auto, unfolding(sd_machine::specs::Threads::first_due, crate::specs::Standings::first_over))]
pub fn first_due(s: &State, c: CpuId) -> Option<ThreadId>
    ensures value { length s.now.threads ≤ 65536 → option_map (λ t. t.0) result ≡ first_due s.now c.0 }
    ensures inside { IfSome result (λ t. t.0 < length s.now.threads) }
{
    thread_at(s, first_over(c, cpu_of(s, c).count, s.threads.items()))
}

/// The first of these threads that is a time-sharing thread on the queue of processor `c`.
#[tactic(auto, unfolding(crate::specs::Standings::first_to_age))]
fn first_to_age(c: CpuId, threads: &[ThreadState]) -> Option<usize>
    ensures value { result ≡ first_to_age c.0 threads.now }
    ensures inside { IfSome result (λ t. t < length threads.now) }
{
    threads
        .iter()
        .position(|x| is_queued(c, &x.place) && is_ts(&x.body.class))
}

/// The least of the time-sharing threads with number `u` or more on the queue of processor `c`.
#[tactic(auto, unfolding(sd_machine::specs::Threads::next_to_age, crate::specs::Standings::first_to_age))]
pub fn next_to_age(s: &State, c: CpuId, u: ThreadId) -> Option<ThreadId>
    ensures value { length s.now.threads ≤ 65536 → option_map (λ t. t.0) result ≡ next_to_age s.now c.0 u.0 }
    ensures inside { IfSome result (λ t. t.0 < length s.now.threads) }
{
    let threads = s.threads.items();
    let from = (u.0 as usize).min(threads.len());
    let index = match first_to_age(c, &threads[from..]) {
        None => None,
        Some(index) => Some(from + index),
    };
    thread_at(s, index)
}
