//! Laws of holds, with nothing to run.

ghost use Rattle.sd_holds.specs.Exact.{HoldsAreExact};

/// In each state of every legal run the holds that cover it are exactly those of the threads that hold a lock in it.
pub fn holds_are_exact()
    ensures { HoldsAreExact }
{}
