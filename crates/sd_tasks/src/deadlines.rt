//! The tasks that a set declares, with their deadlines.
//!
//! Source: response-time analysis (deadlines); the rest is this project's own.

ghost use Rattle.std.specs.Prelude.{◌≡◌, ◌++◌, IfOk, OnOk, flat_map, map};
ghost use Rattle.sd_lines.specs.Said.{word_of};
ghost use Rattle.sd_tasks.specs.Kept.{above_kept, member_kept};
ghost use Rattle.sd_tasks.specs.SetTasks.{set_tasks, task_in, task_of};
ghost use Rattle.sd_tasks.specs.SetTasksKept.{tasks_kept};

use crate::facts::{Facts, SetThread};
use crate::timed::copy_name;
use sd_types::Name;
use std::alloc::{AllocError, Global};

/// A task of a set, and within how many ticks of its release a job of it is to be complete (1 to 100,000 in an accepted set).
#[derive(Drop)]
pub struct SetTask {
    pub name: Name,
    pub deadline: u64,
}

fn push_named(
    name: &Name,
    deadline: Option<u64>,
    tasks: &mut Vec<SetTask>,
) -> Result<(), AllocError>
    ensures { OnOk result (tasks_kept tasks.new.items ≡ tasks_kept tasks.old.items ++ task_of (word_of name.now) deadline) }
{
    let Some(deadline) = deadline else {
        return Ok(());
    };
    tasks.push(SetTask {
        name: copy_name(name),
        deadline,
    })?;
    Ok(())
}

fn push_task(member: &SetThread, tasks: &mut Vec<SetTask>) -> Result<(), AllocError>
    ensures { OnOk result (tasks_kept tasks.new.items ≡ tasks_kept tasks.old.items ++ task_in (member_kept member.now)) }
{
    push_named(&member.name, member.deadline, tasks)
}

fn put_tasks(members: &[SetThread], tasks: &mut Vec<SetTask>) -> Result<(), AllocError>
    ensures { OnOk result (tasks_kept tasks.new.items ≡ tasks_kept tasks.old.items ++ flat_map task_in (map member_kept members.now)) }
{
    for member in members {
        push_task(member, tasks)?;
    }
    Ok(())
}

/// The tasks that a set declares, in the order of declaration.
#[tactic(auto, unfolding(crate::specs::SetTasks::set_tasks))]
pub fn set_tasks(alloc: Global, facts: &Facts) -> Result<Vec<SetTask>, AllocError>
    ensures { IfOk result (λ tasks. tasks_kept tasks.items ≡ set_tasks (above_kept facts.now)) }
{
    let mut tasks = Vec::new(alloc);
    put_tasks(&facts.threads, &mut tasks)?;
    Ok(tasks)
}
