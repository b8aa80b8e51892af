//! What the cycles of a state are.

ghost use Rattle.sd_machine.specs.Listing.{ListsCycles};
ghost use Rattle.sd_machine.specs.LockGraph.{cycles_of, graph};
ghost use Rattle.sd_state.specs.declared.states.State.{State};

/// They are exactly the blocking cycles of the state's lock graph, each told once from its least thread on, in order of
/// these threads; and the threads that are behind themselves are those that stand in one of them.
pub fn blocking_cycles_are_listed()
    ensures { (s : State) → ListsCycles (graph s) (cycles_of s) }
{}
