//! What a seat of the table knows: its view, which exists in proofs alone. No value of these types is made.

use sd_types::{Entry, List, Which};
use sd_world::{Count, Glance, Miss};

/// A number that a processor showed as a hint when its word was read.
pub struct Note {
    pub cpu: u64,
    pub which: Which,
    pub number: u64,
}

/// A number that a processor wrote into a word in which others read it.
pub struct Written {
    pub word: u64,
    pub number: u64,
}

/// What the seat of a processor knows: the indices of the homes that it holds, the one that it took last first; the entries of all
/// processors so far, as it has seen them; the threads that its entries moved between its homes, and whose words it has not published since; the counts
/// and the hints that it read, the words of threads that it read with the homes that they named, and the locks that it found taken, each the last first;
/// and the numbers of hints and ticks that it wrote since its last entry, the last first.
pub struct Desk {
    pub cpu: u64,
    pub held: List<u64>,
    pub seen: List<Entry>,
    pub stray: List<u64>,
    pub counts: List<Count>,
    pub hints: List<Note>,
    pub glances: List<Glance>,
    pub misses: List<Miss>,
    pub written: List<Written>,
}

/// The seat from which those of the processors are cut, with the number of the next; a processor's; the one that gathers them, with
/// what each had seen; and one that was gathered.
pub enum View {
    Maker(u64),
    Works(Desk),
    Gathers(List<List<Entry>>),
    Spent,
}
