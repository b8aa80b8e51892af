//! The reports of a run, with the tasks of the set from which its workload comes, where it comes from one.

ghost use Rattle.std.specs.Prelude.{◌≡◌, IfOk};
ghost use Rattle.sd_set_inputs.specs.ToldTasks.{tasks_said};
ghost use Rattle.sd_viewer.specs.Reports.{jobs_by, report_by, sheet_by};

use sd_deadlines::{found_tasks, numbered_tasks};
use sd_report::{jobs_report, report, set_report, set_sheet, sheet};
use sd_state::State;
use sd_stretches::ByThread;
use sd_tasks::SetTask;
use sd_types::Work;
use std::alloc::{AllocError, Global};

/// The report: of a set with the table of its tasks, and their histograms.
pub(crate) fn report_of(
    alloc: Global,
    work: &Work,
    tasks: &Option<Vec<SetTask>>,
    history: &ByThread,
    end: &State,
) -> Result<Vec<u8>, AllocError>
    ensures { IfOk result (λ text. text.items ≡ report_by (tasks_said tasks.now) work.now history.now end.now) }
{
    match tasks {
        Some(tasks) => {
            let tasks = numbered_tasks(alloc, work, tasks)?;
            set_report(alloc, work, history, end, &tasks)
        }
        None => report(alloc, work, history, end),
    }
}

/// The same as comma-separated rows.
pub(crate) fn sheet_of(
    alloc: Global,
    work: &Work,
    tasks: &Option<Vec<SetTask>>,
    history: &ByThread,
    end: &State,
) -> Result<Vec<u8>, AllocError>
    ensures { IfOk result (λ text. text.items ≡ sheet_by (tasks_said tasks.now) work.now history.now end.now) }
{
    match tasks {
        Some(tasks) => {
            let tasks = numbered_tasks(alloc, work, tasks)?;
            set_sheet(alloc, work, history, end, &tasks)
        }
        None => sheet(alloc, work, history, end),
    }
}

/// The jobs of the tasks of the set, or of those that the workload has.
pub(crate) fn jobs_of(
    alloc: Global,
    work: &Work,
    tasks: &Option<Vec<SetTask>>,
    history: &ByThread,
    end: &State,
) -> Result<Vec<u8>, AllocError>
    ensures { IfOk result (λ text. text.items ≡ jobs_by (tasks_said tasks.now) work.now history.now end.now) }
{
    match tasks {
        Some(tasks) => {
            let tasks = numbered_tasks(alloc, work, tasks)?;
            jobs_report(alloc, work, history, end, &tasks)
        }
        None => {
            let tasks = found_tasks(alloc, work)?;
            jobs_report(alloc, work, history, end, &tasks)
        }
    }
}
