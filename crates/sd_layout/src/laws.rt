//! Laws of what is shown in pictures, with nothing to run.

ghost use Rattle.sd_layout.specs.Folds.{AllFoldsAreQuiet};
ghost use Rattle.sd_layout.specs.Rows.{ActingThreadsComeFirst, AllRowsAreOwn};

/// Each tick that was asked for is in one column of the picture, in order; the columns of more than one tick are those that are folded,
/// and nothing changes in them: neither what a thread does nor its priority, nor anything else by an entry.
pub fn folds_are_quiet()
    ensures { AllFoldsAreQuiet }
{}

/// In every picture each row of a thread is of a thread of its own, and there are as many as there is room for, or threads.
pub fn rows_are_own()
    ensures { AllRowsAreOwn }
{}

/// Where not all threads have a row, none that does nothing in the ticks that are drawn has one while one that acts there has none.
pub fn acting_threads_come_first()
    ensures { ActingThreadsComeFirst }
{}
