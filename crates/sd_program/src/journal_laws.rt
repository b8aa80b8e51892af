//! Laws of the journals of runs, each as the contract of a function without a body.

ghost use Rattle.sd_program.specs.Certified.{EntriesAreSpelled, JournalsTellEntries, RunJournalsAreJournals, SerialJournalsAreJournals};

/// What a processor makes in a state of a run, with a number below 2^64 and having read numbers of 8 bits, at most 64 of
/// them, is an entry that has a line of its own: all that it names is the workload's, and it has read only what its event
/// reads.
pub fn entries_are_spelled()
    ensures { EntriesAreSpelled }
{}

/// The journal of a complete run is a journal as the audit asks for it, with the run's final state and its number of entries, whatever
/// numbers of 8 bits its processors have read.
pub fn run_journals_are_journals()
    ensures { RunJournalsAreJournals }
{}

/// The journal of a run in rounds is the journal of a complete run, as the audit asks for it, with the run's final state
/// and its number of entries.
pub fn serial_journals_are_journals()
    ensures { SerialJournalsAreJournals }
{}

/// A journal determines its entries: two lists of entries, each of which has a line of its own, have the same journal only where
/// they are the same.
pub fn journals_tell_entries()
    ensures { JournalsTellEntries }
{}
