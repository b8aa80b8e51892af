//! Lines of a workload outside blocks, as far as the rules of task sets ask for them.

ghost use Rattle.std.specs.Prelude.{◌≡◌, OnOk, None, Some, cond};
ghost use Rattle.sd_lines.specs.Statements.{Cpus, Limit};
ghost use Rattle.sd_lines.specs.Said.{statement_said, thread_said, word_of};
ghost use Rattle.sd_tasks.specs.Kept.{above_kept};
ghost use Rattle.sd_tasks.specs.Steps.{above_after, name_cause, stated_cause, thread_cause, with_chan, with_thread};

use crate::facts::{Facts, SetThread, is_kept_name};
use crate::openings::script_cause;
use crate::timed::is_high_class;
use sd_declare::WorkCause;
use sd_lines::{Statement, ThreadLine};
use sd_types::{GREATEST_LIMIT, MOST_PROCESSORS, MOST_THREADS, Name};
use std::alloc::AllocError;

fn name_cause(facts: &Facts, name: &Name) -> Option<WorkCause>
    ensures { result ≡ name_cause (above_kept facts.now) (word_of name.now) }
{
    if facts.is_timed && is_kept_name(name.bytes()) {
        Some(WorkCause::Twice)
    } else {
        None
    }
}

fn thread_cause(facts: &Facts, thread: &ThreadLine) -> Option<WorkCause>
    ensures { result ≡ thread_cause (above_kept facts.now) (thread_said thread.now) }
{
    if facts.is_timed && is_kept_name(thread.name.bytes()) {
        return Some(WorkCause::Twice);
    }
    if facts.is_timed && is_high_class(thread.class) {
        return Some(WorkCause::Range);
    }
    if MOST_THREADS <= facts.threads.len() {
        return Some(WorkCause::Limits);
    }
    None
}

fn cpus_cause(facts: &Facts, n: u64) -> Option<WorkCause>
    ensures { result ≡ stated_cause (above_kept facts.now) (Some (Cpus n)) }
{
    if facts.is_timed {
        return Some(WorkCause::Syntax);
    }
    if 1 <= n && n <= MOST_PROCESSORS as u64 {
        None
    } else {
        Some(WorkCause::Range)
    }
}

fn limit_cause(facts: &Facts, n: u64) -> Option<WorkCause>
    ensures { result ≡ stated_cause (above_kept facts.now) (Some (Limit n)) }
{
    if 1 <= n && n <= u64::from(GREATEST_LIMIT) {
        None
    } else {
        Some(WorkCause::Range)
    }
}

fn set_cause(facts: &Facts) -> Option<WorkCause>
    ensures { result ≡ cond facts.now.is_timed (Some WorkCause.Syntax) None }
{
    if facts.is_timed {
        Some(WorkCause::Syntax)
    } else {
        None
    }
}

/// Why a line of a workload outside blocks is at fault by the rules of task sets.
pub(crate) fn stated_cause(facts: &Facts, statement: &Statement) -> Option<WorkCause>
    ensures { result ≡ stated_cause (above_kept facts.now) (Some (statement_said statement.now)) }
{
    match statement {
        Statement::Cpus(n) => cpus_cause(facts, *n),
        Statement::Limit(n) => limit_cause(facts, *n),
        Statement::Set(_, _) => set_cause(facts),
        Statement::Chan(name) => name_cause(facts, name),
        Statement::Sema(name, _) => name_cause(facts, name),
        Statement::Declare(thread) => thread_cause(facts, thread),
        Statement::Script(name) => script_cause(facts, false, name),
        Statement::Hz(_) => None,
        Statement::Table(_) => None,
        Statement::Lock(_, _) => None,
    }
}

fn declare_chan(facts: &mut Facts, name: Name) -> Result<(), AllocError>
    ensures { OnOk result (above_kept facts.new ≡ with_chan (above_kept facts.old) (word_of name)) }
{
    let is_kept = is_kept_name(name.bytes());
    facts.chans.push(name)?;
    facts.has_kept = facts.has_kept || is_kept;
    Ok(())
}

fn declare_thread(facts: &mut Facts, number: u32, thread: ThreadLine) -> Result<(), AllocError>
    ensures { OnOk result (above_kept facts.new ≡ with_thread (above_kept facts.old) number (thread_said thread)) }
{
    let is_kept = is_kept_name(thread.name.bytes());
    let is_high = is_high_class(thread.class);
    facts.threads.push(SetThread {
        name: thread.name,
        line: number,
        set: 0,
        home: 0,
        release: None,
        rounds: 1,
        cpu: None,
        deadline: None,
        is_task: false,
        is_given: false,
    })?;
    facts.has_high = facts.has_high || is_high;
    facts.has_kept = facts.has_kept || is_kept;
    Ok(())
}

/// Declares what a line of a workload outside blocks says.
pub(crate) fn declare(
    facts: &mut Facts,
    number: u32,
    statement: Statement,
) -> Result<(), AllocError>
    ensures { OnOk result (above_kept facts.new ≡ above_after (above_kept facts.old) number (statement_said statement)) }
{
    match statement {
        Statement::Cpus(n) => facts.cpus = n,
        Statement::Limit(n) => facts.limit = Some(n),
        Statement::Set(name, cpus) => facts.sets.push((name, cpus))?,
        Statement::Chan(name) => declare_chan(facts, name)?,
        Statement::Sema(name, _) => declare_chan(facts, name)?,
        Statement::Declare(thread) => declare_thread(facts, number, thread)?,
        Statement::Hz(_) => {}
        Statement::Table(_) => {}
        Statement::Lock(_, _) => {}
        Statement::Script(_) => {}
    }
    Ok(())
}
