//! The reports of a run with a task set.

ghost use Rattle.std.specs.Prelude.{◌≡◌, IfOk};
ghost use Rattle.sd_report.specs.SetReports.{set_report_text, set_sheet_text};

use crate::histograms::put_histograms;
use crate::set_responses::put_responses;
use crate::set_sheets::put_set_rows;
use crate::set_tables::{put_set_section, task_lines};
use crate::sheets::sheet;
use crate::tables::report;
use sd_deadlines::Task;
use sd_state::State;
use sd_stretches::ByThread;
use sd_types::Work;
use std::alloc::{AllocError, Global};

/// The report of a run of the workload to which a set with these tasks expands: the report of the workload, the table of the tasks, and
/// the histogram of each.
#[tactic(auto, unfolding(crate::specs::SetReports::set_report_text))]
pub fn set_report(
    alloc: Global,
    work: &Work,
    history: &ByThread,
    end: &State,
    tasks: &[Task],
) -> Result<Vec<u8>, AllocError>
    ensures { IfOk result (λ text. text.items ≡ set_report_text work.now history.now end.now tasks.now) }
{
    let mut text = report(alloc, work, history, end)?;
    let lines = task_lines(alloc, work, history, end, tasks)?;
    put_set_section(alloc, work, &lines, &mut text)?;
    put_histograms(alloc, work, history, end, tasks, &mut text)?;
    Ok(text)
}

/// The same as comma-separated rows, in the columns of all rows.
#[tactic(auto, unfolding(crate::specs::SetReports::set_sheet_text))]
pub fn set_sheet(
    alloc: Global,
    work: &Work,
    history: &ByThread,
    end: &State,
    tasks: &[Task],
) -> Result<Vec<u8>, AllocError>
    ensures { IfOk result (λ text. text.items ≡ set_sheet_text work.now history.now end.now tasks.now) }
{
    let mut text = sheet(alloc, work, history, end)?;
    let lines = task_lines(alloc, work, history, end, tasks)?;
    put_set_rows(alloc, work, &lines, &mut text)?;
    put_responses(alloc, work, history, end, tasks, &mut text)?;
    Ok(text)
}
