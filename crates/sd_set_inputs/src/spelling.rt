//! The workload that a text spells: the one that it is, or else the one to which it expands as a task set.

ghost use Rattle.std.specs.Prelude.{◌≡◌, ◌<◌, ◌^◌, IfOk, Some, length};
ghost use Rattle.sd_tasks.specs.SetTasks.{declared_tasks};
ghost use Rattle.sd_releases.specs.Verdicts.{set_verdict};
ghost use Rattle.sd_set_inputs.specs.Readings.{IsExpanded, IsSpelled, fault_answer};
ghost use Rattle.sd_set_inputs.specs.ToldTasks.{tasks_said, told_tasks};

use sd_answers::Answer;
use sd_releases::{Expansion, SetFault, expand};
use sd_tasks::SetTask;
use sd_types::Work;
use sd_workload::{WorkFault, read_work};
use std::alloc::Global;

/// The workload that a text spells, and the tasks of the set, where it is a set.
#[derive(Drop)]
pub(crate) struct Spelled {
    pub(crate) work: Work,
    pub(crate) tasks: Option<Vec<SetTask>>,
}

/// The answer where a set is refused.
pub fn fault_answer(fault: SetFault) -> Answer
    ensures { result ≡ fault_answer fault }
{
    match fault {
        SetFault::At { line, cause } => Answer::Refused { line, cause },
        SetFault::Memory => Answer::OutOfMemory,
    }
}

/// The workload to which a task set expands, with the tasks of the set, or its first line at fault.
fn read_expanded(alloc: Global, bytes: &[u8]) -> Result<Spelled, Answer>
    requires { length bytes.now < 2 ^ 31 }
    ensures spelled { IsExpanded (set_verdict bytes.now) result }
    ensures tasks { IfOk result (λ found. tasks_said found.tasks ≡ Some (declared_tasks bytes.now)) }
{
    match expand(alloc, bytes) {
        // what a set expands to is an accepted workload: only memory may be lacking
        Ok(expansion) => {
            let Expansion {
                lines: _,
                text,
                tasks,
            } = expansion;
            match read_work(alloc, &text) {
                Ok(work) => Ok(Spelled {
                    work,
                    tasks: Some(tasks),
                }),
                Err(_) => Err(Answer::OutOfMemory),
            }
        }
        Err(fault) => Err(fault_answer(fault)),
    }
}

/// The workload that a text spells, with the tasks of the set that it is, if it is one, or the first line at fault of the set.
pub(crate) fn read_spelled(alloc: Global, bytes: &[u8]) -> Result<Spelled, Answer>
    requires { length bytes.now < 2 ^ 31 }
    ensures spelled { IsSpelled bytes.now result }
    ensures tasks { IfOk result (λ found. tasks_said found.tasks ≡ told_tasks bytes.now) }
{
    match read_work(alloc, bytes) {
        Ok(work) => Ok(Spelled { work, tasks: None }),
        Err(WorkFault::At { line: _, cause: _ }) => read_expanded(alloc, bytes),
        Err(WorkFault::Memory { line: _ }) => Err(Answer::OutOfMemory),
    }
}
