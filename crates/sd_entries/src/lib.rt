//! The line of an entry of the journal: its number, its processor, its event and the numbers that it read.
#![tactic(auto)]

mod answers;
mod counting;
mod entries;
mod events;
mod laws;
mod line;
mod names;
mod words;

pub use entries::{EntryLine, write_entry};
pub use laws::{lines_are_words, lines_tell_entries, words_stand_in_lines};
pub use names::{put_chan_name, put_lock_name, put_set_name, put_thread_name};
