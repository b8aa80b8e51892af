//! What the stretches say of the states of a run: laws, with nothing to run.

ghost use Rattle.sd_stretches.specs.Altered.{EventsAlterOneSight};
ghost use Rattle.sd_stretches.specs.Exact.{SlicesAreExact, StretchesAreExact};
ghost use Rattle.sd_stretches.specs.Order.{StretchesStandInOrder};
ghost use Rattle.sd_stretches.specs.SpinPieces.{PiecesFillStretches};

/// The stretches of each thread of a workload, over any entries, are exactly those of its place: they follow one another from
/// the initial state to the last one, the place of the thread in each state of a stretch is that of the stretch, and
/// neighbours differ.
pub fn stretches_are_exact()
    ensures { StretchesAreExact }
{}

/// The slices of each processor are exactly its running threads: in each state of a run a slice of a processor that is a
/// thread's covers it exactly where the thread runs on the processor.
pub fn slices_are_exact()
    ensures { SlicesAreExact }
{}

/// The stretches of all threads are those of each thread, in the order of the entries that began them.
pub fn stretches_stand_in_order()
    ensures { StretchesStandInOrder }
{}

/// The pieces into which a stretch is cut where its thread spins fill it: the first begins at its first tick, each begins at the
/// tick at which the one before it ends, and the last ends with it.
pub fn pieces_fill_stretches()
    ensures { PiecesFillStretches }
{}

/// An event changes what is seen of one thread at most, the one that it names: every other does the same after it, in the same class,
/// with the same effective priority, inherited or not. This is so in every state, whether or not a run reaches it.
pub fn events_alter_one_sight()
    ensures { EventsAlterOneSight }
{}
