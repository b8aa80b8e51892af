//! The stretches of a run: from which entry on each thread runs, is runnable, waits, sleeps, naps or has ended, with which
//! priority, where it spins, who hands priority on to whom, and who wakes whom. Definitions over the entries of a run, and a collector that
//! takes in one entry at a time.
#![tactic(auto)]

mod by_thread;
mod changes;
mod doings;
mod glimpses;
mod histories;
mod label_laws;
mod laws;
mod named;
mod names;
mod rows;
mod sights;
mod spin_pieces;

pub use by_thread::ByThread;
pub use changes::{
    HandOver, Happening, Load, Onset, Rank, Wakeup, is_that_thread, wanted_lock, woken_by,
};
pub use doings::{put_counted, put_doing};
pub use glimpses::Glimpse;
pub use histories::History;
pub use label_laws::names_need_no_escaping;
pub use laws::{
    events_alter_one_sight, pieces_fill_stretches, slices_are_exact, stretches_are_exact,
    stretches_stand_in_order,
};
pub use named::{altered, first_named, second_named};
pub use names::{chan_name, lock_name, set_name, short_name, thread_name};
pub use rows::{Level, Stretch, levels, stretches};
pub use sights::{Doing, Sight, does_run, sight_by};
pub use spin_pieces::{Track, pieces};
