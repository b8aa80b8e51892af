//! The report as a table.

ghost use Rattle.std.specs.Prelude.{◌≡◌, ◌++◌, IfOk, OnOk, codes, decimal};
ghost use Rattle.std.specs.List.{flat_map};
ghost use Rattle.sd_report.specs.Cells.{left};
ghost use Rattle.sd_report.specs.Tables.{by_text, cpu_section, head_line, lock_section, longest_cells, longest_first, longest_last, longest_ticks, report_text, row_cells, row_words, section, skew_line, table_line, task_section, tasks_part, thread_section, ticks_line};
ghost use Rattle.sd_report.specs.Words.{subject_name};

use crate::cells::{put_cell, put_left, put_left_number, put_right};
use crate::words::{holder, measure_word, row_object};
use sd_state::State;
use sd_statistics::{Row, Span, Subject, cpu_rows, lock_rows, task_rows, thread_rows, ticks_of};
use sd_stretches::{ByThread, lock_name, put_counted, thread_name};
use sd_types::Work;
use std::alloc::{AllocError, Global};

// The name of whom a row speaks, and of a processor its number.
fn put_subject(work: &Work, subject: Subject, out: &mut Vec<u8>) -> Result<(), AllocError>
    ensures { OnOk result (out.new.items ≡ out.old.items ++ left 17 (subject_name work.now subject)) }
{
    match subject {
        Subject::Thread(t) => put_left(17, thread_name(work, t), out),
        Subject::Cpu(c) => put_left_number(17, u64::from(c), out),
        Subject::Lock(l) => put_left(17, lock_name(work, l), out),
        Subject::Task(t, _) => put_left(17, thread_name(work, t), out),
    }
}

// Of whom a row speaks, what it measures, and the lock.
#[tactic(auto, unfolding(crate::specs::Tables::row_words))]
fn put_words(work: &Work, x: &Row, out: &mut Vec<u8>) -> Result<(), AllocError>
    ensures { OnOk result (out.new.items ≡ out.old.items ++ row_words work.now x.now) }
{
    put_subject(work, x.subject, out)?;
    put_left(15, measure_word(x.measure), out)?;
    put_left(17, row_object(work, x), out)
}

pub(crate) fn longest_ticks(longest: Option<Span>) -> Option<u64>
    ensures { result ≡ longest_ticks longest }
{
    match longest {
        Some(x) => Some(u64::from(ticks_of(x))),
        None => None,
    }
}

pub(crate) fn longest_first(longest: Option<Span>) -> Option<u64>
    ensures { result ≡ longest_first longest }
{
    match longest {
        Some(x) => Some(x.first),
        None => None,
    }
}

pub(crate) fn longest_last(longest: Option<Span>) -> Option<u64>
    ensures { result ≡ longest_last longest }
{
    match longest {
        Some(x) => Some(x.last),
        None => None,
    }
}

// How long the longest is, the first entry that was made in it, and the one that ended it.
#[tactic(auto, unfolding(crate::specs::Tables::longest_cells))]
fn put_longest(longest: Option<Span>, out: &mut Vec<u8>) -> Result<(), AllocError>
    ensures { OnOk result (out.new.items ≡ out.old.items ++ longest_cells longest) }
{
    put_cell(9, longest_ticks(longest), out)?;
    put_cell(12, longest_first(longest), out)?;
    put_cell(10, longest_last(longest), out)
}

#[tactic(auto, unfolding(crate::specs::Tables::row_cells))]
fn put_cells(x: &Row, out: &mut Vec<u8>) -> Result<(), AllocError>
    ensures { OnOk result (out.new.items ≡ out.old.items ++ row_cells x.now) }
{
    put_cell(8, x.figures.number, out)?;
    put_cell(9, x.figures.ticks, out)?;
    put_cell(10, x.figures.priority, out)?;
    put_longest(x.figures.longest, out)
}

// Whose the longest is, where that is said.
fn put_by(name: &[u8], out: &mut Vec<u8>) -> Result<(), AllocError>
    ensures { OnOk result (out.new.items ≡ out.old.items ++ by_text name.now) }
{
    if name.is_empty() {
        return Ok(());
    }
    out.extend_from_slice(b"  by ")?;
    out.extend_from_slice(name)
}

#[tactic(auto, unfolding(crate::specs::Tables::table_line))]
fn put_line(work: &Work, x: &Row, out: &mut Vec<u8>) -> Result<(), AllocError>
    ensures { OnOk result (out.new.items ≡ out.old.items ++ table_line work.now x.now) }
{
    put_words(work, x, out)?;
    put_cells(x, out)?;
    put_by(holder(work, x), out)?;
    out.extend_from_slice(b"\n")
}

#[tactic(auto, unfolding(crate::specs::Tables::head_line))]
fn put_head(out: &mut Vec<u8>) -> Result<(), AllocError>
    ensures { OnOk result (out.new.items ≡ out.old.items ++ head_line) }
{
    put_left(17, b"who", out)?;
    put_left(15, b"what", out)?;
    put_left(17, b"of", out)?;
    put_right(8, b"number", out)?;
    put_right(9, b"ticks", out)?;
    put_right(10, b"priority", out)?;
    put_right(9, b"longest", out)?;
    put_right(12, b"from entry", out)?;
    put_right(10, b"to entry", out)?;
    out.extend_from_slice(b"\n")
}

fn put_lines(work: &Work, rows: &[Row], out: &mut Vec<u8>) -> Result<(), AllocError>
    ensures { OnOk result (out.new.items ≡ out.old.items ++ flat_map (table_line work.now) rows.now) }
{
    for x in rows {
        put_line(work, x, out)?;
    }
    Ok(())
}

// The rows of one kind under their title, where there are any.
#[tactic(auto, unfolding(crate::specs::Tables::section))]
fn put_section(work: &Work, title: &[u8], rows: &[Row], out: &mut Vec<u8>) -> Result<(), AllocError>
    ensures { OnOk result (out.new.items ≡ out.old.items ++ section work.now title.now rows.now) }
{
    if rows.is_empty() {
        return Ok(());
    }
    out.extend_from_slice(title)?;
    put_lines(work, rows, out)
}

#[tactic(auto, unfolding(crate::specs::Tables::ticks_line))]
fn put_ticks_line(work: &Work, history: &ByThread, out: &mut Vec<u8>) -> Result<(), AllocError>
    ensures { OnOk result (out.new.items ≡ out.old.items ++ ticks_line work.now history.now) }
{
    put_counted(b"ticks ", u64::from(work.limit), out)?;
    put_counted(b", entries ", history.history.entries, out)?;
    out.extend_from_slice(b"\n\n")
}

#[tactic(auto, unfolding(crate::specs::Tables::thread_section))]
fn put_threads(
    alloc: Global,
    work: &Work,
    history: &ByThread,
    out: &mut Vec<u8>,
) -> Result<(), AllocError>
    ensures { OnOk result (out.new.items ≡ out.old.items ++ thread_section work.now history.now) }
{
    let rows = thread_rows(alloc, work, history)?;
    put_section(work, b"\nthreads\n", &rows, out)
}

// On several processors, what their counts mean for tasks.
#[tactic(auto, unfolding(crate::specs::Tables::skew_line))]
fn put_skew(work: &Work, rows: &[Row], out: &mut Vec<u8>) -> Result<(), AllocError>
    ensures { OnOk result (out.new.items ≡ out.old.items ++ skew_line work.now rows.now) }
{
    if work.cpus <= 1 || rows.is_empty() {
        return Ok(());
    }
    out.extend_from_slice(
        b"a task that is not bound: each time a job comes to another processor, its response may become a tick more or less\n",
    )
}

#[tactic(auto, unfolding(crate::specs::Tables::tasks_part))]
fn put_task_rows(work: &Work, rows: &[Row], out: &mut Vec<u8>) -> Result<(), AllocError>
    ensures { OnOk result (out.new.items ≡ out.old.items ++ tasks_part work.now rows.now) }
{
    put_section(work, b"\ntasks\n", rows, out)?;
    put_skew(work, rows, out)
}

#[tactic(auto, unfolding(crate::specs::Tables::task_section))]
fn put_tasks(
    alloc: Global,
    work: &Work,
    history: &ByThread,
    end: &State,
    out: &mut Vec<u8>,
) -> Result<(), AllocError>
    ensures { OnOk result (out.new.items ≡ out.old.items ++ task_section work.now history.now end.now) }
{
    let rows = task_rows(alloc, work, &history.history, end)?;
    put_task_rows(work, &rows, out)
}

#[tactic(auto, unfolding(crate::specs::Tables::lock_section))]
fn put_locks(
    alloc: Global,
    work: &Work,
    history: &ByThread,
    out: &mut Vec<u8>,
) -> Result<(), AllocError>
    ensures { OnOk result (out.new.items ≡ out.old.items ++ lock_section work.now history.now) }
{
    let rows = lock_rows(alloc, work, history)?;
    put_section(work, b"\nlocks\n", &rows, out)
}

#[tactic(auto, unfolding(crate::specs::Tables::cpu_section))]
fn put_cpus(
    alloc: Global,
    work: &Work,
    history: &ByThread,
    out: &mut Vec<u8>,
) -> Result<(), AllocError>
    ensures { OnOk result (out.new.items ≡ out.old.items ++ cpu_section work.now history.now) }
{
    let rows = cpu_rows(alloc, work, &history.history)?;
    put_section(work, b"\nprocessors\n", &rows, out)
}

/// The report of a run of the workload, of which this is the history, and which ends in this state, as a table: a line for each row of
/// the statistics.
#[tactic(auto, unfolding(crate::specs::Tables::report_text))]
pub fn report(
    alloc: Global,
    work: &Work,
    history: &ByThread,
    end: &State,
) -> Result<Vec<u8>, AllocError>
    ensures { IfOk result (λ text. text.items ≡ report_text work.now history.now end.now) }
{
    let mut text = Vec::new(alloc);
    put_ticks_line(work, history, &mut text)?;
    put_head(&mut text)?;
    put_threads(alloc, work, history, &mut text)?;
    put_tasks(alloc, work, history, end, &mut text)?;
    put_locks(alloc, work, history, &mut text)?;
    put_cpus(alloc, work, history, &mut text)?;
    Ok(text)
}
