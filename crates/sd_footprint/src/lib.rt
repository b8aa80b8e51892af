//! The footprint of a processor's turn: in how many homes the parts of a state lie that it looks at, and that its event touches, and
//! that these parts are there. Laws; there is nothing to run.
#![tactic(auto)]

ghost use Rattle.std.specs.Prelude.{Option};
ghost use Rattle.sd_types.specs.declared.events.Hints.{Hints as HintsOf};
ghost use Rattle.sd_types.specs.declared.numbers.CpuId.{CpuId as CpuIdOf};
ghost use Rattle.sd_types.specs.declared.works.Work.{Work as WorkOf};
ghost use Rattle.sd_state.specs.declared.states.State.{State as StateOf};
ghost use Rattle.sd_footprint.specs.Changed.{EventsChangeOnlyTheirs, RunnersRanThereLast};
ghost use Rattle.sd_footprint.specs.Homes.{NeedsFour, TurnsTakeFour};
ghost use Rattle.sd_footprint.specs.There.{PartsOfTurnsAreThere, ThreadsStandThere};

/// Beside its own count and duty a processor looks at no more than four homes to find what it reads and its event, in any
/// state and whatever it has read.
pub fn a_turn_needs_four_homes()
    ensures { (w : WorkOf) (s : StateOf) (c : CpuIdOf) (hints : Option HintsOf) → NeedsFour w s c hints }
{}

/// In every state of every run, and whatever the processor has read, these four hold all that its event touches as well. In other
/// states there may be five: a duty to hand a lock over for which nobody waits looks at the chain of that lock first.
pub fn a_turn_takes_four_homes()
    ensures { TurnsTakeFour }
{}

/// In every state of every run, where a thread runs, it ran last: so a thread that ends stays in the home of its processor.
pub fn what_runs_ran_there_last()
    ensures { RunnersRanThereLast }
{}

/// In every state of every run each event that may come leaves all as it was that is not among the parts that it touches: the
/// threads that stand in none of them, and a thread that moves comes from one of them and goes to one; the marks, the set and the
/// bindings of a processor; the count and the duty of every processor but its own; locks, counts of channels, open processors.
pub fn an_event_changes_only_its_homes()
    ensures { EventsChangeOnlyTheirs }
{}

/// In every state of every run, for each processor of the workload and whatever it has read, each part is there that it looks at, and
/// that the event touches which it may make: the home is one of the state's, the thread one of its threads, and of the counts and
/// duties it is the processor's own.
pub fn parts_of_a_turn_are_there()
    ensures { PartsOfTurnsAreThere }
{}

/// In every state of every run the home in which a thread stands is one of the state's; the lock, the channel, the set or the processor
/// is there after which its list there is named, and so is the processor on which it ran last.
pub fn homes_of_threads_are_there()
    ensures { ThreadsStandThere }
{}
