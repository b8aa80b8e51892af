//! What a world has read of others where they make entries too. It exists in proofs alone: no value of these types is made.

/// The count of ticks of a processor, as its word had it when it was read.
pub struct Count {
    pub cpu: u64,
    pub number: u64,
}

/// The lock of a home that was found taken: the index of the home, and the word of its lock, which is the holder's number plus 1.
pub struct Miss {
    pub home: u64,
    pub word: u64,
}

/// The word of a thread that was read, and the index of the home that it named.
pub struct Glance {
    pub thread: u64,
    pub home: u64,
}
