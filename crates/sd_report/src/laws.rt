//! A law of whole reports, with nothing to run.

ghost use Rattle.sd_report.specs.Plain.{JobsArePlain, ReportsArePlain, SetReportsArePlain};

/// Every report is of newlines and printable ASCII, without a backslash: of a workload, of a set, and of jobs.
pub fn reports_are_plain()
    ensures workloads { ReportsArePlain }
    ensures sets { SetReportsArePlain }
    ensures jobs { JobsArePlain }
{}
