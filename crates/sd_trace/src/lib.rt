//! The trace of a run in the Trace Event format, a JSON text that Perfetto and chrome://tracing open: a track for each processor
//! and each thread, tracks of the locks that it holds, flows for wakeups and inherited priority, marks of processor sets and bindings, and a counter of
//! runnable threads.
//!
//! Names stand in it as they are, since none has to be escaped in JSON (`names_need_no_escaping` of `sd_stretches`).
#![tactic(auto)]

mod flows;
mod held;
mod laws;
mod marks;
mod slices;
mod tracks;
mod words;

pub use laws::{traces_are_plain, tracks_stand_apart};
pub use tracks::trace;
