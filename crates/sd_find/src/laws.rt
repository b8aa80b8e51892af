//! What the promises of two calls come to: a law, with nothing to run.

ghost use Rattle.sd_find.specs.Audited.{EndingsAreAudited, WaitsAreAudited, WitnessesAreAudited};

/// The journal that a search printed, behind the line with the number of states, is found legal by `dispsim audit`, behind its
/// workload and the line `journal`, where all this has no more bytes than an audit takes and the workload's last line has its
/// newline. The workload is the text that was searched, or that to which it expands as a task set.
pub fn witnesses_are_audited()
    ensures { WitnessesAreAudited }
{}

/// So is each of the two journals that a search printed for when a thread ends, each behind the line with its tick.
pub fn endings_are_audited()
    ensures { EndingsAreAudited }
{}

/// So is the journal that a search printed for how long a thread waits, behind the line with the number of states.
pub fn waits_are_audited()
    ensures { WaitsAreAudited }
{}
