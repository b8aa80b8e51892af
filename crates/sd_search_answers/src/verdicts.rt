//! What a search says, and the text that says it.

/// What a search says.
#[derive(Clone, Copy, Debug, PartialEq, Eq)]
pub enum Verdict {
    /// All that was asked for was done: all states were searched, and counted.
    Done,

    /// A run ends as was asked for, or the thread that was asked for ends in some run.
    Found,

    /// No run ends so, or ends the thread, in which each processor reads the numbers of the state, in whatever order the
    /// processors act.
    Never,

    /// Not all states were searched, and none that was is as was asked for.
    More,

    /// The workload has no thread of the name that was given: nothing was searched.
    NoThread,
}

/// What a search says, with its text.
#[derive(Drop)]
pub struct Told {
    pub verdict: Verdict,
    pub text: Vec<u8>,
}
