//! What `dispfind` answers of a search, over values: the forms of its arguments, and the verdict and the text of its answer.
#![tactic(auto)]

mod answering;
mod forms;
mod journals;
mod lefts;
mod texts;
mod timing_texts;
mod timings;
mod verdicts;
mod waiting;
mod watching;

pub use answering::tell;
pub use forms::{Aim, Request, request_of};
pub use timings::Timing;
pub use verdicts::{Told, Verdict};
pub use watching::{Unwatched, Watch};
