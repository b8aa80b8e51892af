//! Laws of the slices of processors, each as the contract of a function without a body.

ghost use Rattle.sd_statistics.specs.Accounted.{RunningTicksAreAccounted};
ghost use Rattle.sd_statistics.specs.Follow.{OthersKeepRunning, SlicesFollowInTime};

/// A step of a processor changes on no other processor which threads run there, in every state of every run.
pub fn others_keep_running()
    ensures { OthersKeepRunning }
{}

/// In every run the slices of a processor follow one another: none ends before it begins, and none begins before the one in
/// front of it has ended, by the entries and by the count of ticks of the processor.
pub fn slices_follow_in_time()
    ensures { SlicesFollowInTime }
{}

/// In every complete run the ticks over which a thread runs and spins, as pictures show and reports count them, are its ticks in
/// the accounts.
pub fn running_ticks_are_accounted()
    ensures { RunningTicksAreAccounted }
{}
