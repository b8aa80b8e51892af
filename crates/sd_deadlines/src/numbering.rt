//! The tasks of a report by number: those that a set declares, and those of a workload without a set.
//!
//! Source: response-time analysis (tasks, deadlines); that a task of a workload is a thread that takes units of a semaphore is this
//! project's own.

ghost use Rattle.std.specs.Prelude.{◌≡◌, ◌++◌, ◌<◌, ◌≤◌, IfOk, IfSome, OnOk, length, position};
ghost use Rattle.sd_types.specs.Works.{same_bytes};
ghost use Rattle.sd_tasks.specs.SetTasksKept.{task_kept, tasks_kept};
ghost use Rattle.sd_deadlines.specs.Numbering.{chan_number, chan_tasks, found_task, found_tasks, numbered, numbered_tasks, sema_tasks, tasks_by, thread_number};

use crate::task_table::Task;
use sd_statistics::{kind_of, script_of, takes};
use sd_tasks::SetTask;
use sd_types::{ChanId, ChanKind, Name, ThreadDecl, Work};
use std::alloc::{AllocError, Global};

fn is_named(name: &Name, word: &Name) -> bool
    ensures { result ≡ same_bytes name.now.text.items word.now.text.items }
{
    name.bytes() == word.bytes()
}

// The place of the first thread with the name.
fn thread_at(threads: &[ThreadDecl], name: &Name) -> Option<usize>
    ensures { result ≡ position (λ d. same_bytes d.name.text.items name.now.text.items) threads.now }
{
    threads.iter().position(|decl| is_named(&decl.name, name))
}

// The number of the thread with the name, or of the threads where none has it.
fn thread_number(work: &Work, name: &Name) -> usize
    ensures { result ≡ thread_number work.now name.now.text.items }
{
    let threads = work.threads.items();
    thread_at(threads, name).unwrap_or(threads.len())
}

// The place of the first channel or semaphore with the name.
fn chan_at(chans: &[(Name, ChanKind)], name: &Name) -> Option<usize>
    ensures value { result ≡ position (λ k. same_bytes k.0.text.items name.now.text.items) chans.now }
    ensures within { IfSome result (λ i. i < length chans.now) }
{
    chans.iter().position(|chan| is_named(&chan.0, name))
}

// The number of the channel or semaphore with the name, or of these where none has it.
fn chan_number(work: &Work, name: &Name) -> usize
    ensures value { result ≡ chan_number work.now name.now.text.items }
    ensures bound { result ≤ length work.now.chans }
{
    let chans = work.chans.items();
    chan_at(chans, name).unwrap_or(chans.len())
}

fn numbered(work: &Work, x: &SetTask) -> Task
    ensures { result ≡ numbered work.now (task_kept x.now) }
{
    Task {
        thread: thread_number(work, &x.name),
        sema: ChanId(chan_number(work, &x.name) as u16),
        deadline: Some(x.deadline),
    }
}

/// The tasks of a set by number, in the workload to which the set expands.
#[tactic(auto, unfolding(crate::specs::Numbering::numbered_tasks))]
pub fn numbered_tasks(
    alloc: Global,
    work: &Work,
    tasks: &[SetTask],
) -> Result<Vec<Task>, AllocError>
    ensures { IfOk result (λ v. v.items ≡ numbered_tasks work.now (tasks_kept tasks.now)) }
{
    let mut found = Vec::new(alloc);
    for x in tasks {
        found.push(numbered(work, x))?;
    }
    Ok(found)
}

fn push_found(work: &Work, k: u16, t: usize, tasks: &mut Vec<Task>) -> Result<(), AllocError>
    ensures { OnOk result (tasks.new.items ≡ tasks.old.items ++ found_task work.now k t) }
{
    if takes(k, script_of(work, t)) {
        tasks.push(Task {
            thread: t,
            sema: ChanId(k),
            deadline: None,
        })?;
    }
    Ok(())
}

// The tasks by one semaphore.
#[tactic(auto, unfolding(crate::specs::Numbering::sema_tasks))]
fn push_sema(work: &Work, k: u16, tasks: &mut Vec<Task>) -> Result<(), AllocError>
    ensures { OnOk result (tasks.new.items ≡ tasks.old.items ++ sema_tasks work.now k) }
{
    for t in 0..work.threads.items().len() {
        push_found(work, k, t, tasks)?;
    }
    Ok(())
}

fn push_chan(work: &Work, k: u16, tasks: &mut Vec<Task>) -> Result<(), AllocError>
    ensures { OnOk result (tasks.new.items ≡ tasks.old.items ++ chan_tasks work.now k) }
{
    match kind_of(work, k) {
        Some(ChanKind::Sema { .. }) => push_sema(work, k, tasks),
        _ => Ok(()),
    }
}

/// The tasks of a workload without a set: the threads that take units of semaphores, by semaphore. They have no deadlines.
#[tactic(auto, unfolding(crate::specs::Numbering::found_tasks))]
pub fn found_tasks(alloc: Global, work: &Work) -> Result<Vec<Task>, AllocError>
    ensures { IfOk result (λ v. v.items ≡ found_tasks work.now) }
{
    let mut tasks = Vec::new(alloc);
    for k in 0..work.chans.items().len() {
        push_chan(work, k as u16, &mut tasks)?;
    }
    Ok(tasks)
}
