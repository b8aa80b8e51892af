//! What a search can be asked.

/// What is asked of the states in which runs end: states in which no processor can make an entry, whatever it reads.
#[derive(Clone, Copy, Debug, PartialEq, Eq)]
pub enum Question {
    /// Threads block each other in a circle: each waits for a lock that the next one owns, and the last for one that the
    /// first owns.
    Blocked,

    /// A thread that has operations left has not ended.
    Stuck,
}

/// What a search says to a question.
#[derive(Clone, Copy, Debug, PartialEq, Eq)]
pub enum Answer {
    /// State number `index` is as was asked for.
    Found { index: usize },

    /// No run ends so in which each processor reads the numbers of the state, in whatever order the processors act.
    Never,

    /// Not all states were reached, and no state that was is as was asked for.
    More,
}
