//! A law of waits, with nothing to run.

ghost use Rattle.sd_longest.specs.Laws.{TicksAreReported};

/// An entry that wakes a thread or makes one run counts no tick. So the time of a wait, by the counts in the states before its two
/// entries, is the delay that a report of the run shows, by those in the states after them.
pub fn ticks_are_reported()
    ensures { TicksAreReported }
{}
