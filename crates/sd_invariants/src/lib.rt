//! What holds in every state of every run of the whole machine, whatever program made the run: scripts, locks and
//! duties agree, each event has its cause and finds what it needs, and no count goes beyond the limit. The functions do
//! nothing: the law is what the contract of each says.
#![tactic(auto)]

mod laws;
mod range_laws;
mod reader_laws;
mod tick_laws;

pub use laws::{
    counts_within, duties_serve, events_have_causes, fronts_are_runs, inheritance_is_sound,
    keys_differ, keys_within, locks_agree, one_next, one_runs, open_lists_hold,
    readers_wait_for_writers, scripts_are_followed, states_fit, urgent_threads, woken_are_runnable,
};
pub use range_laws::{
    bindings_are_counted, complete_runs_reach_the_limit, events_have_what_they_need,
    locks_are_there, processors_are_there, sets_are_open, threads_are_there, threads_have_cpus,
};
pub use reader_laws::readers_are_some;
pub use tick_laws::{counts_are_ticks, counts_rise_by_ticks, counts_stay_close};
