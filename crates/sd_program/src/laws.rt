//! What the promises of several calls come to: a law, with nothing to run.

ghost use Rattle.sd_program.specs.Audited.{RunsAreAudited};

/// What `run` printed is found legal by `audit`, behind its workload and the line `journal`, where all this has no more bytes
/// than an audit takes and the workload's last line has its newline.
pub fn runs_are_audited()
    ensures { RunsAreAudited }
{}
