//! Laws of whole traces, with nothing to run.

ghost use Rattle.sd_trace.specs.Apart.{TracksStandApart};
ghost use Rattle.sd_trace.specs.Plain.{TracesArePlain};

/// Every trace is of newlines and printable ASCII, without a backslash: it is UTF-8, and no string in it has an escape.
pub fn traces_are_plain()
    ensures { TracesArePlain }
{}

/// The tracks of the processors and threads of a workload have numbers of their own, which no process has.
pub fn tracks_stand_apart()
    ensures { TracksStandApart }
{}
