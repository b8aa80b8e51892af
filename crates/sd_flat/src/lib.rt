//! The state as one value: who runs on a processor, the best that is ready, waits for a lock or sleeps, each by one scan
//! over the threads; the changes of which events are composed; and the numbers that processors show to others. No call
//! takes memory.
#![tactic(auto)]

mod bodies;
mod changes;
mod clock;
mod orders;
mod passes;
mod priorities;
mod reads;
mod scans;
mod sets;
mod shown;
mod standings;

pub use bodies::{hold, inherit, nap_ticks, op_over, ran, ticks_at};
pub use changes::{
    clear_marks, count_tick, duty_after, leave, move_to, run_on, set_count, set_duty,
    set_kernel_mark, set_lock, set_mark,
};
pub use clock::may_tick;
pub use priorities::{greater, greatest_waiting, greatest_without, has_waiters, others_waiting};
pub use reads::{cpu_of, is_looped, is_thread, place_of, script_of};
pub use scans::{
    best_queued, best_ready, best_sleeper, best_sleeper_below, best_unbound, best_waiter,
    first_due, index_of_runner, next_to_age, runner,
};
pub use sets::{bind, close, join, unbind, with_cpu_in, without_cpu};
pub use shown::{hint_of, numbers_shown};
pub use standings::{is_running, is_ts};
