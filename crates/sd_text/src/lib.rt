//! Bytes in and out: sources and sinks that count their faults, in memory and over the system's readers and
//! writers; reading to the end, writing a line whole; and the lines, words and numbers of a text.
#![tactic(auto)]

mod adapters;
mod laws;
mod lines;
mod memory;
mod numbers;
mod read;
mod streams;
mod words;
mod write;

pub use adapters::{StdSink, StdSource};
pub use laws::{lines_of_texts, numbers_of_words, pieces_are_lines, risen_counts, words_of_lines};
pub use lines::next_line;
pub use memory::{MemorySink, MemorySource};
pub use numbers::{number, put_number, signed};
pub use read::{ReadAllFault, read_all, read_up_to};
pub use streams::{Failed, Sink, Source};
pub use words::next_word;
pub use write::{WriteFault, write_piece};
