//! What an event leaves as it was of all homes, as a law; there is nothing to run.

ghost use Rattle.sd_world.specs.Frames.{EventsLeaveOtherHomes};

/// In every state of every run each event that may come leaves every home as it was in which no part lies that it touches:
/// whatever home it is, it stands for its part of the state after the event as it did before.
pub fn an_event_leaves_other_homes()
    ensures { EventsLeaveOtherHomes }
{}
