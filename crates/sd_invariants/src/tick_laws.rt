//! Laws of the counts of ticks, each as the contract of a function without a body.

ghost use Rattle.sd_invariants.specs.Laws.{HoldsWhenReached};
ghost use Rattle.sd_invariants.specs.Ticks.{CountsAreTicks, CountsRiseByTicks, CountsStayClose};

/// The counts of ticks of two processors differ by at most 1, in every state of every run and in whatever order the
/// processors act. Processors count their ticks together, which is this project's own: a processor ticks only while no other
/// has counted fewer.
pub fn counts_stay_close()
    ensures { HoldsWhenReached CountsStayClose }
{}

/// A tick, spin or idle entry raises the count of its own processor by 1. No other entry changes a count, and none changes
/// that of another processor.
pub fn counts_rise_by_ticks()
    ensures { CountsRiseByTicks }
{}

/// The count of a processor is the number of its tick, spin and idle entries so far, which the accounts print as its ticks.
pub fn counts_are_ticks()
    ensures { CountsAreTicks }
{}
