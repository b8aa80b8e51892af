//! Laws of every run of the whole machine, whatever program made it: where each thread stands (belonging), how priority
//! passes along chains of locks (inheritance), and what became of those who woke, slept and waited (history). The functions
//! do nothing: the law is what the contract of each says.
#![tactic(auto)]

mod belonging_laws;
mod history_laws;
mod inheritance_laws;

pub use belonging_laws::{
    bound_threads_are_dispatched_at_home, marks_stand, one_place, open_lists_are_exact,
    sets_change_by_joining, threads_belong,
};
pub use history_laws::{
    semaphore_sleepers_wait_at_zero, semaphore_waiters_sleep_until_handed, semaphores_are_bounded,
    semaphores_are_counted, semaphores_balance, sleepers_sleep_until_woken,
    waiters_sleep_until_woken, wakes_are_counted, woken_stay_runnable,
};
pub use inheritance_laws::{
    cycles_stay, cyclic_threads_stay, inheritance_is_local, owners_have_chain_maximum,
    priorities_are_maxima, priorities_are_maxima_without_cycles, walks_end_at_unowned, walks_go_on,
    walks_lead_on,
};
