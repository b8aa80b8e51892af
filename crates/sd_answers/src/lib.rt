//! The answers of a call of the program: exit statuses, lines on the error output, the arguments, what was read of the input as
//! a workload or as a workload with the journal of a run, and texts written line by line.
#![tactic(auto)]

mod answers;
mod arguments;
mod cuts;
mod inputs;
mod laws;
mod refusals;
mod writing;

pub use answers::{Answer, JournalFault};
pub use arguments::behind_name;
pub use cuts::{Cut, find_cut};
pub use inputs::{Certificate, Parts, read_certificate, read_input, read_parts, read_text};
pub use laws::{
    accepted_texts_have_no_journal, texts_have_one_cut, texts_without_journal_have_no_cut,
};
pub use writing::{Unwritten, hand_on, print_line, print_text, put_line, put_text};
