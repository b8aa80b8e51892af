//! A run as a story: of each entry its tick, the line of the journal, and a sentence on what happens; for all entries, for those of
//! some ticks, or for those that name a thread. It is told of a journal while that is judged.
#![tactic(auto)]

mod locks;
mod requests;
mod rows;
mod running;
mod scene;
mod selections;
mod sentences;
mod sleeping;
mod telling;
mod words;

pub use scene::Scene;
pub use selections::{Selection, has_thread};
pub use sentences::put_sentence;
pub use telling::tell;
