//! What the numbers say of a run: laws, with nothing to run.

ghost use Rattle.sd_statistics.specs.Laws.{DeedsAreCounts, LongestIsLongest, TicksAddUp};

/// The ticks over which a thread of a workload runs, spins, is runnable, waits, sleeps, naps and has ended are together those of
/// the run, and those that lie in two of its states.
pub fn ticks_add_up()
    ensures { TicksAddUp }
{}

/// The longest of spans is one of them, and none is longer.
pub fn the_longest_is_longest()
    ensures { LongestIsLongest }
{}

/// What a processor does is counted over the entries of the run, and the ticks that it takes for threads that run and spin and for
/// none are its ticks in the accounts.
pub fn deeds_are_counts()
    ensures { DeedsAreCounts }
{}
