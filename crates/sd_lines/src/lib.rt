//! The lines of a workload text, each by itself: what a line outside blocks says, and what a line of a script says.
//! Whether names are declared and numbers are in their ranges is judged by the crates above.
#![tactic(auto)]

mod index;
mod key;
mod names;
mod operations;
mod requests;
mod statements;
mod threads;
mod words;

pub use index::NameIndex;
pub use names::is_word;
pub use operations::{Operation, RequestLine, operation_of};
pub use statements::{Statement, TableClass, statement_of};
pub use threads::{ThreadClass, ThreadLine, ThreadOptions};
pub use words::{QuantumWord, first_word, is_end, is_end_line};
