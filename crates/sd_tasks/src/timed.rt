//! The timed lines: those of `task`, and those of `thread` with `start` or `on`.

ghost use Rattle.std.specs.Prelude.{◌≡◌, ◌++◌, ◌∷◌, [], OnOk, Some, cond, true, unwrap_or};
ghost use Rattle.sd_lines.specs.Said.{word_of};
ghost use Rattle.sd_tasks.specs.Above.{least_cpu};
ghost use Rattle.sd_tasks.specs.FormsKept.{timed_said};
ghost use Rattle.sd_tasks.specs.Kept.{above_kept, member_kept};
ghost use Rattle.sd_tasks.specs.Timed.{deadline_of, is_high_class, is_gated_line, release_of, rounds, rounds_of, member_of, fits_from, are_options_within, is_chan_taken, has_no_room, is_twice, is_no_cpu, is_out, is_elsewhere, is_full, timed_cause, sema_line, sema_lines, timed_lines, with_timed};
ghost use Rattle.sd_tasks.specs.WrittenKept.{lines_kept};

use crate::facts::{
    Facts, SetThread, is_chan_name, is_kept_name, least_cpu, partition, set_number,
};
use crate::forms::{TimedLine, TimedOptions};
use crate::releases::{Release, release_count};
use crate::written::{WrittenLine, push_line, push_parts};
use sd_declare::WorkCause;
use sd_lines::ThreadClass;
use sd_script::ScriptFault;
use sd_types::{GREATEST_LIMIT, GREATEST_SPAN, MOST_OBJECTS, MOST_OPERATIONS, MOST_THREADS, Name};
use std::alloc::{AllocError, Global};

/// Whether the class is real time at level 59, which is kept for the clocks.
pub(crate) fn is_high_class(class: ThreadClass) -> bool
    ensures { result ≡ is_high_class class }
{
    match class {
        ThreadClass::Rt { pri, .. } => pri == 59,
        _ => false,
    }
}

// ---- what is declared

fn is_gated(is_task: bool, line: &TimedLine) -> bool
    ensures { result ≡ is_gated_line is_task (timed_said line.now) }
{
    is_task || line.options.start.is_some()
}

/// The releases of a task, or that of a thread with `start`.
fn release_of(is_task: bool, options: TimedOptions) -> Option<Release>
    ensures { result ≡ release_of is_task options }
{
    if is_task {
        return Some(Release {
            first: options.offset.unwrap_or(0),
            period: options.period.unwrap_or(0),
            most: options.jobs.unwrap_or(u64::from(GREATEST_LIMIT)),
        });
    }
    match options.start {
        Some(first) => Some(Release {
            first,
            period: 1,
            most: 1,
        }),
        None => None,
    }
}

/// Within how many ticks of its release a job of a task is to be complete.
fn deadline_of(is_task: bool, options: TimedOptions) -> Option<u64>
    ensures { result ≡ deadline_of is_task options }
{
    if is_task {
        Some(options.deadline.unwrap_or(options.period.unwrap_or(0)))
    } else {
        None
    }
}

/// How many times a script is written.
fn rounds_of(facts: &Facts, is_task: bool, release: Option<Release>) -> u64
    ensures { result ≡ rounds_of (above_kept facts.now) is_task release }
{
    match release {
        Some(release) if is_task => release_count(release, facts.limit.unwrap_or(0)),
        _ => 1,
    }
}

/// The number of the processor whose clock releases a thread of this set.
fn home_of(facts: &Facts, cpu: Option<u64>, set: usize) -> u64
    ensures { result ≡ unwrap_or cpu (least_cpu (above_kept facts.now) set) }
{
    match cpu {
        Some(cpu) => cpu,
        None => least_cpu(facts, set),
    }
}

/// The thread that a timed line declares.
#[tactic(auto, unfolding(crate::specs::Timed::member_of))]
fn member_of(facts: &Facts, number: u32, is_task: bool, line: TimedLine) -> SetThread
    ensures { member_kept result ≡ member_of (above_kept facts.now) number is_task (timed_said line) }
{
    let TimedLine {
        thread,
        head: _,
        options,
    } = line;
    let set = set_number(facts, &thread.options.set);
    let release = release_of(is_task, options);
    SetThread {
        name: thread.name,
        line: number,
        set,
        home: home_of(facts, options.cpu, set),
        release,
        rounds: rounds_of(facts, is_task, release),
        cpu: options.cpu,
        deadline: deadline_of(is_task, options),
        is_task,
        is_given: false,
    }
}

// ---- causes

fn fits_from(least: u64, option: Option<u64>) -> bool
    ensures { result ≡ fits_from least option }
{
    match option {
        Some(n) => least <= n && n <= u64::from(GREATEST_SPAN),
        None => true,
    }
}

fn are_options_within(options: TimedOptions) -> bool
    ensures { result ≡ are_options_within options }
{
    fits_from(1, options.period)
        && fits_from(0, options.offset)
        && fits_from(1, options.deadline)
        && fits_from(1, options.jobs)
        && fits_from(0, options.start)
}

fn is_chan_taken(facts: &Facts, is_task: bool, line: &TimedLine) -> bool
    ensures { result ≡ is_chan_taken (above_kept facts.now) is_task (timed_said line.now) }
{
    is_gated(is_task, line) && is_chan_name(facts, &line.thread.name)
}

fn has_no_room(facts: &Facts, is_task: bool, line: &TimedLine) -> bool
    ensures { result ≡ has_no_room (above_kept facts.now) is_task (timed_said line.now) }
{
    is_gated(is_task, line) && MOST_OBJECTS <= facts.chans.len()
}

fn is_twice(facts: &Facts, is_task: bool, line: &TimedLine) -> bool
    ensures { result ≡ is_twice (above_kept facts.now) is_task (timed_said line.now) }
{
    facts.has_kept || is_kept_name(line.thread.name.bytes()) || is_chan_taken(facts, is_task, line)
}

fn is_no_cpu(facts: &Facts, cpu: Option<u64>) -> bool
    ensures { result ≡ is_no_cpu (above_kept facts.now) cpu }
{
    match cpu {
        Some(cpu) => facts.cpus <= cpu,
        None => false,
    }
}

#[tactic(auto, unfolding(crate::specs::Timed::is_out))]
fn is_out(facts: &Facts, line: &TimedLine) -> bool
    ensures { result ≡ is_out (above_kept facts.now) (timed_said line.now) }
{
    facts.has_high
        || is_high_class(line.thread.class)
        || is_no_cpu(facts, line.options.cpu)
        || !are_options_within(line.options)
}

fn is_elsewhere(facts: &Facts, line: &TimedLine) -> bool
    ensures { result ≡ is_elsewhere (above_kept facts.now) (timed_said line.now) }
{
    match line.options.cpu {
        Some(cpu) => partition(facts, cpu) != set_number(facts, &line.thread.options.set),
        None => false,
    }
}

fn is_full(facts: &Facts, is_task: bool, line: &TimedLine) -> bool
    ensures { result ≡ is_full (above_kept facts.now) is_task (timed_said line.now) }
{
    has_no_room(facts, is_task, line) || MOST_THREADS <= facts.threads.len()
}

fn rounds(facts: &Facts, is_task: bool, line: &TimedLine) -> u64
    ensures { result ≡ rounds (above_kept facts.now) is_task (timed_said line.now) }
{
    rounds_of(facts, is_task, release_of(is_task, line.options))
}

/// Why a timed line that has its form is at fault.
#[tactic(auto, unfolding(crate::specs::Timed::timed_cause))]
pub(crate) fn timed_cause(facts: &Facts, is_task: bool, line: &TimedLine) -> Option<WorkCause>
    ensures { result ≡ timed_cause (above_kept facts.now) is_task (Some (timed_said line.now)) }
{
    if facts.limit.is_none() {
        return Some(WorkCause::Syntax);
    }
    if is_twice(facts, is_task, line) {
        return Some(WorkCause::Twice);
    }
    if is_out(facts, line) {
        return Some(WorkCause::Range);
    }
    if (MOST_OPERATIONS as u64) < rounds(facts, is_task, line) {
        return Some(WorkCause::Script(ScriptFault::TooLong));
    }
    if is_elsewhere(facts, line) {
        return Some(WorkCause::Sets);
    }
    if is_full(facts, is_task, line) {
        return Some(WorkCause::Limits);
    }
    None
}

// ---- the lines of the workload

/// `sema NAME 0`
fn push_sema(
    alloc: Global,
    lines: &mut Vec<WrittenLine>,
    name: &Name,
    number: u32,
) -> Result<(), AllocError>
    ensures { OnOk result (lines_kept lines.new.items ≡ lines_kept lines.old.items ++ sema_line (word_of name.now) number ∷ []) }
{
    let mut text = Vec::from_slice(alloc, b"sema ")?;
    text.extend_from_slice(name.bytes())?;
    text.extend_from_slice(b" 0")?;
    push_line(lines, text, number)
}

/// The line of the semaphore of a task or of a thread with `start`, if it can be declared.
fn put_sema(
    alloc: Global,
    facts: &Facts,
    lines: &mut Vec<WrittenLine>,
    is_task: bool,
    line: &TimedLine,
    number: u32,
) -> Result<(), AllocError>
    ensures { OnOk result (lines_kept lines.new.items ≡ lines_kept lines.old.items ++ sema_lines (above_kept facts.now) number is_task (timed_said line.now)) }
{
    let name = &line.thread.name;
    if is_gated(is_task, line) && !is_chan_name(facts, name) && facts.chans.len() < MOST_OBJECTS {
        push_sema(alloc, lines, name, number)?;
    }
    Ok(())
}

/// Appends the lines of the workload that stand for a timed line.
#[tactic(auto, unfolding(crate::specs::Timed::timed_lines))]
pub(crate) fn put_timed(
    alloc: Global,
    facts: &Facts,
    lines: &mut Vec<WrittenLine>,
    is_task: bool,
    line: &TimedLine,
    number: u32,
) -> Result<(), AllocError>
    ensures { OnOk result (lines_kept lines.new.items ≡ lines_kept lines.old.items ++ timed_lines (above_kept facts.now) number is_task (timed_said line.now)) }
{
    put_sema(alloc, facts, lines, is_task, line, number)?;
    push_parts(alloc, lines, b"thread", &line.head, number)
}

/// A copy of a name.
pub(crate) fn copy_name(name: &Name) -> Name
    ensures { word_of result ≡ word_of name.now }
{
    Name::from_word(name.bytes())
}

/// Declares the semaphore of a task or of a thread with `start`.
fn declare_gate(facts: &mut Facts, is_gated: bool, name: Name) -> Result<(), AllocError>
    ensures { OnOk result (above_kept facts.new ≡ record (above_kept facts.old) { chans = (above_kept facts.old).chans ++ cond is_gated (word_of name ∷ []) [] }) }
{
    if is_gated {
        facts.chans.push(name)?;
    }
    Ok(())
}

/// Declares a thread of a timed line.
fn declare_member(facts: &mut Facts, member: SetThread) -> Result<(), AllocError>
    ensures { OnOk result (above_kept facts.new ≡ record (above_kept facts.old) { threads = (above_kept facts.old).threads ++ member_kept member ∷ []; is_timed = true }) }
{
    facts.threads.push(member)?;
    facts.is_timed = true;
    Ok(())
}

/// Declares what a timed line says.
pub(crate) fn declare_timed(
    facts: &mut Facts,
    number: u32,
    is_task: bool,
    line: TimedLine,
) -> Result<(), AllocError>
    ensures { OnOk result (above_kept facts.new ≡ with_timed (above_kept facts.old) number is_task (timed_said line)) }
{
    let is_gated = is_gated(is_task, &line);
    let name = copy_name(&line.thread.name);
    let member = member_of(facts, number, is_task, line);
    declare_gate(facts, is_gated, name)?;
    declare_member(facts, member)
}
