//! The report as comma-separated rows.
//!
//! Source: RFC 4180 (comma-separated values).

ghost use Rattle.std.specs.Prelude.{◌≡◌, ◌∷◌, [], ◌++◌, ℕ, IfOk, OnOk, List as Items};
ghost use Rattle.csv.specs.Records.{fields_of};
ghost use Rattle.csv.specs.Writing.{default_writer, row_text};
ghost use Rattle.sd_text.specs.Numbers.{digits_if};
ghost use Rattle.sd_report.specs.Sheets.{HasFields, cpu_sheet, head_row, lock_sheet, longest_fields, number_fields, rows_text, sheet_row, sheet_text, task_sheet, thread_sheet, word_fields};

use crate::cells::digits_if;
use crate::tables::{longest_first, longest_last, longest_ticks};
use crate::words::{holder, measure_word, put_subject_name, row_object, subject_word};
use csv::{ByteRecord, Error, WriterBuilder};
use sd_state::State;
use sd_statistics::{Row, cpu_rows, lock_rows, task_rows, thread_rows};
use sd_stretches::ByThread;
use sd_types::Work;
use std::alloc::{AllocError, Global};

// The text of a record.
fn record_text(alloc: Global, fields: &ByteRecord) -> Result<Vec<u8>, Error>
    ensures { IfOk result (λ v. v.items ≡ row_text default_writer (fields_of fields.now)) }
{
    let mut writer = WriterBuilder::new().from_writer(Vec::new(alloc));
    writer.write_byte_record(fields)?;
    match writer.into_inner() {
        Ok(text) => Ok(text),
        Err(e) => Err(e.into_error()),
    }
}

/// A record; writing to memory fails only where there is none.
pub(crate) fn put_record(
    alloc: Global,
    fields: &ByteRecord,
    out: &mut Vec<u8>,
) -> Result<(), AllocError>
    ensures { OnOk result (out.new.items ≡ out.old.items ++ row_text default_writer (fields_of fields.now)) }
{
    match record_text(alloc, fields) {
        Ok(text) => out.extend_from_slice(&text),
        Err(_) => Err(AllocError),
    }
}

pub(crate) fn push_field(field: &[u8], fields: &mut ByteRecord) -> Result<(), AllocError>
    ensures { OnOk result ((xs : Items (Items ℕ)) → HasFields fields.old xs → HasFields fields.new (xs ++ field.now ∷ [])) }
{
    fields.push_field(field)
}

// Of whom a row speaks, what it measures, and of which lock or semaphore.
fn push_words(
    alloc: Global,
    work: &Work,
    x: &Row,
    fields: &mut ByteRecord,
) -> Result<(), AllocError>
    ensures { OnOk result ((xs : Items (Items ℕ)) → HasFields fields.old xs → HasFields fields.new (xs ++ word_fields work.now x.now)) }
{
    let mut name = Vec::new(alloc);
    put_subject_name(work, x.subject, &mut name)?;
    push_field(subject_word(x.subject), fields)?;
    push_field(&name, fields)?;
    push_field(measure_word(x.measure), fields)?;
    push_field(row_object(work, x), fields)
}

pub(crate) fn push_figure(
    alloc: Global,
    n: Option<u64>,
    fields: &mut ByteRecord,
) -> Result<(), AllocError>
    ensures { OnOk result ((xs : Items (Items ℕ)) → HasFields fields.old xs → HasFields fields.new (xs ++ digits_if n ∷ [])) }
{
    let text = digits_if(alloc, n)?;
    push_field(&text, fields)
}

fn push_numbers(alloc: Global, x: &Row, fields: &mut ByteRecord) -> Result<(), AllocError>
    ensures { OnOk result ((xs : Items (Items ℕ)) → HasFields fields.old xs → HasFields fields.new (xs ++ number_fields x.now)) }
{
    push_figure(alloc, x.figures.number, fields)?;
    push_figure(alloc, x.figures.ticks, fields)?;
    push_figure(alloc, x.figures.priority, fields)
}

// How long the longest is, the first entry that was made in it and the one that ended it, and whose it is.
fn push_longest(
    alloc: Global,
    work: &Work,
    x: &Row,
    fields: &mut ByteRecord,
) -> Result<(), AllocError>
    ensures { OnOk result ((xs : Items (Items ℕ)) → HasFields fields.old xs → HasFields fields.new (xs ++ longest_fields work.now x.now)) }
{
    push_figure(alloc, longest_ticks(x.figures.longest), fields)?;
    push_figure(alloc, longest_first(x.figures.longest), fields)?;
    push_figure(alloc, longest_last(x.figures.longest), fields)?;
    push_field(holder(work, x), fields)
}

// The record of a row.
#[tactic(auto, unfolding(crate::specs::Sheets::sheet_row))]
fn put_row(alloc: Global, work: &Work, x: &Row, out: &mut Vec<u8>) -> Result<(), AllocError>
    ensures { OnOk result (out.new.items ≡ out.old.items ++ sheet_row work.now x.now) }
{
    let mut fields = ByteRecord::new(alloc);
    push_words(alloc, work, x, &mut fields)?;
    push_numbers(alloc, x, &mut fields)?;
    push_longest(alloc, work, x, &mut fields)?;
    put_record(alloc, &fields, out)
}

#[tactic(auto, unfolding(crate::specs::Sheets::rows_text))]
fn put_rows(alloc: Global, work: &Work, rows: &[Row], out: &mut Vec<u8>) -> Result<(), AllocError>
    ensures { OnOk result (out.new.items ≡ out.old.items ++ rows_text work.now rows.now) }
{
    for x in rows {
        put_row(alloc, work, x, out)?;
    }
    Ok(())
}

#[tactic(auto, unfolding(crate::specs::Sheets::head_row))]
fn put_head(out: &mut Vec<u8>) -> Result<(), AllocError>
    ensures { OnOk result (out.new.items ≡ out.old.items ++ head_row) }
{
    out.extend_from_slice(
        b"kind,name,measure,of,number,ticks,priority,longest,from entry,to entry,by\n",
    )
}

#[tactic(auto, unfolding(crate::specs::Sheets::thread_sheet))]
fn put_threads(
    alloc: Global,
    work: &Work,
    history: &ByThread,
    out: &mut Vec<u8>,
) -> Result<(), AllocError>
    ensures { OnOk result (out.new.items ≡ out.old.items ++ thread_sheet work.now history.now) }
{
    let rows = thread_rows(alloc, work, history)?;
    put_rows(alloc, work, &rows, out)
}

#[tactic(auto, unfolding(crate::specs::Sheets::task_sheet))]
fn put_tasks(
    alloc: Global,
    work: &Work,
    history: &ByThread,
    end: &State,
    out: &mut Vec<u8>,
) -> Result<(), AllocError>
    ensures { OnOk result (out.new.items ≡ out.old.items ++ task_sheet work.now history.now end.now) }
{
    let rows = task_rows(alloc, work, &history.history, end)?;
    put_rows(alloc, work, &rows, out)
}

#[tactic(auto, unfolding(crate::specs::Sheets::lock_sheet))]
fn put_locks(
    alloc: Global,
    work: &Work,
    history: &ByThread,
    out: &mut Vec<u8>,
) -> Result<(), AllocError>
    ensures { OnOk result (out.new.items ≡ out.old.items ++ lock_sheet work.now history.now) }
{
    let rows = lock_rows(alloc, work, history)?;
    put_rows(alloc, work, &rows, out)
}

#[tactic(auto, unfolding(crate::specs::Sheets::cpu_sheet))]
fn put_cpus(
    alloc: Global,
    work: &Work,
    history: &ByThread,
    out: &mut Vec<u8>,
) -> Result<(), AllocError>
    ensures { OnOk result (out.new.items ≡ out.old.items ++ cpu_sheet work.now history.now) }
{
    let rows = cpu_rows(alloc, work, &history.history)?;
    put_rows(alloc, work, &rows, out)
}

/// The report of a run of the workload, of which this is the history, and which ends in this state, as comma-separated rows: the
/// names of the fields, and a record for each row of the statistics. A field that has nothing to say is empty.
#[tactic(auto, unfolding(crate::specs::Sheets::sheet_text))]
pub fn sheet(
    alloc: Global,
    work: &Work,
    history: &ByThread,
    end: &State,
) -> Result<Vec<u8>, AllocError>
    ensures { IfOk result (λ text. text.items ≡ sheet_text work.now history.now end.now) }
{
    let mut text = Vec::new(alloc);
    put_head(&mut text)?;
    put_threads(alloc, work, history, &mut text)?;
    put_tasks(alloc, work, history, end, &mut text)?;
    put_locks(alloc, work, history, &mut text)?;
    put_cpus(alloc, work, history, &mut text)?;
    Ok(text)
}
