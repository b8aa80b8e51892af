//! Inputs read to their end: a workload or a task set, alone or with the journal of a run.

ghost use Rattle.sd_answers.specs.Inputs.{IsReading};
ghost use Rattle.sd_answers.specs.StreamChanges.{change_of};
ghost use Rattle.sd_set_inputs.specs.Sets.{sets};
ghost use Rattle.sd_set_inputs.specs.ToldTasks.{IsReadingSet};

use crate::spelling::{Spelled, read_spelled};
use sd_answers::{Answer, Parts, read_parts, read_text};
use sd_tasks::SetTask;
use sd_text::Source;
use sd_types::Work;
use std::alloc::Global;

/// A workload; the tasks of the set that expands to it, where it comes from a set; and a text that may be the journal of a run of it.
#[derive(Drop)]
pub struct SetCertificate {
    pub work: Work,
    pub tasks: Option<Vec<SetTask>>,
    pub journal: Vec<u8>,
}

/// The workload that the input spells, or why there is none.
pub fn read_input<S: Source>(alloc: Global, input: &mut S) -> Result<Work, Answer>
    ensures { IsReading sets (change_of (S.remaining input.old) (S.remaining input.new) (S.fault_count input.old) (S.fault_count input.new)) result }
{
    let bytes = read_text(alloc, input)?;
    let Spelled { work, tasks: _ } = read_spelled(alloc, &bytes)?;
    Ok(work)
}

/// The workload that is spelled before the line `journal`, with the tasks that are told there, and the text behind this line; or why there
/// is none.
pub fn read_certificate<S: Source>(alloc: Global, input: &mut S) -> Result<SetCertificate, Answer>
    ensures { IsReadingSet (change_of (S.remaining input.old) (S.remaining input.new) (S.fault_count input.old) (S.fault_count input.new)) result }
{
    let Parts { bytes, cut } = read_parts(alloc, input)?;
    let Spelled { work, tasks } = read_spelled(alloc, &bytes[..cut.workload_end])?;
    let journal = Vec::from_slice(alloc, &bytes[cut.journal_start..])?;
    Ok(SetCertificate {
        work,
        tasks,
        journal,
    })
}
