//! The laws.

ghost use Rattle.sd_search.specs.Laws.{ClosedSetsHaveEveryRun, EntriesKeepTheOrder, RanksTellTheOrder, TurnsAreTheSame, TurnsSpellARun};

/// Where keys have the same order, a processor reads the same, is shown the same numbers, and may make the same event.
pub fn turns_are_the_same()
    ensures { TurnsAreTheSame }
{}

/// An entry leaves them in the same order, whatever number it has in each state.
pub fn entries_keep_the_order()
    ensures { EntriesKeepTheOrder }
{}

/// States whose keys have the same order are those that are the same with its rank for each key.
pub fn ranks_tell_the_order()
    ensures { RanksTellTheOrder }
{}

/// A set of states that has the initial one, and with each the one after the turn of any processor, has the last state of
/// every run in which each processor reads the numbers of the state.
pub fn closed_sets_have_every_run()
    ensures { ClosedSetsHaveEveryRun }
{}

/// The turns of a list of processors, one after another, make a run: each makes one entry, and it ends as the turns of states
/// with their keys in the same order do.
pub fn turns_spell_a_run()
    ensures { TurnsSpellARun }
{}
