//! The row of an entry. Each function appends a text. Where memory runs out it may have appended a part of it.

ghost use Rattle.std.specs.Prelude.{◌≡◌, ◌≤◌, ◌++◌, OnOk, codes, decimal, length};
ghost use Rattle.sd_audit.specs.Audits.{entry_line};
ghost use Rattle.sd_story.specs.Sentences.{sentence};
ghost use Rattle.sd_story.specs.Selections.{tick_of};
ghost use Rattle.sd_story.specs.Story.{cell, line_blanks, row, row_if, tick_blanks};

use crate::put_sentence;
use crate::scene::Scene;
use crate::selections::{Selection, is_told, tick_of};
use sd_entries::write_entry;
use sd_text::put_number;
use sd_types::{Entry, Work};
use std::alloc::{AllocError, Global};

// A text with blanks behind it, as many as are given where it is empty, and two at least.
fn put_cell(text: &[u8], blanks: &[u8], out: &mut Vec<u8>) -> Result<(), AllocError>
    requires { 2 ≤ length blanks.now }
    ensures { OnOk result (out.new.items ≡ out.old.items ++ cell blanks.now text.now) }
{
    let written = text.len().min(blanks.len() - 2);
    out.extend_from_slice(text)?;
    out.extend_from_slice(&blanks[written..])
}

fn put_tick(alloc: Global, tick: u32, out: &mut Vec<u8>) -> Result<(), AllocError>
    ensures { OnOk result (out.new.items ≡ out.old.items ++ cell tick_blanks (decimal tick)) }
{
    let mut text = Vec::new(alloc);
    put_number(&mut text, u64::from(tick))?;
    put_cell(&text, b"        ", out)
}

// The count of its processor before an entry.
fn put_tick_of<S: Scene>(
    alloc: Global,
    s: &S,
    entry: &Entry,
    out: &mut Vec<u8>,
) -> Result<(), AllocError>
    requires good { S.good s.now }
    ensures { OnOk result (out.new.items ≡ out.old.items ++ cell tick_blanks (decimal (tick_of (S.state s.now) entry.now))) }
{
    put_tick(alloc, tick_of(s, entry), out)
}

fn put_line(alloc: Global, work: &Work, entry: &Entry, out: &mut Vec<u8>) -> Result<(), AllocError>
    ensures { OnOk result (out.new.items ≡ out.old.items ++ cell line_blanks (entry_line work.now entry.now)) }
{
    let mut line = Vec::new(alloc);
    write_entry(work, entry, &mut line)?;
    let _newline = line.pop();
    put_cell(&line, b"                              ", out)
}

// The sentence on an entry.
fn put_words<S: Scene>(
    work: &Work,
    s: &S,
    entry: &Entry,
    out: &mut Vec<u8>,
) -> Result<(), AllocError>
    requires good { S.good s.now }
    ensures { OnOk result (out.new.items ≡ out.old.items ++ sentence work.now (S.state s.now) entry.now.cpu entry.now.event) }
{
    put_sentence(work, s, entry.cpu, &entry.event, out)
}

fn put_newline(out: &mut Vec<u8>) -> Result<(), AllocError>
    ensures { OnOk result (out.new.items ≡ out.old.items ++ codes "\n") }
{
    out.extend_from_slice(b"\n")
}

fn put_row<S: Scene>(
    alloc: Global,
    work: &Work,
    s: &S,
    entry: &Entry,
    out: &mut Vec<u8>,
) -> Result<(), AllocError>
    requires good { S.good s.now }
    ensures { OnOk result (out.new.items ≡ out.old.items ++ row work.now (S.state s.now) entry.now) }
{
    put_tick_of(alloc, s, entry, out)?;
    put_line(alloc, work, entry, out)?;
    put_words(work, s, entry, out)?;
    put_newline(out)
}

/// The row of an entry that is made in the state, where it is told.
#[tactic(auto, unfolding(crate::specs::Story::row_if))]
pub(crate) fn put_row_if<S: Scene>(
    alloc: Global,
    work: &Work,
    selection: &Selection,
    s: &S,
    entry: &Entry,
    out: &mut Vec<u8>,
) -> Result<(), AllocError>
    requires good { S.good s.now }
    ensures { OnOk result (out.new.items ≡ out.old.items ++ row_if work.now selection.now (S.state s.now) entry.now) }
{
    if is_told(work, selection, s, entry) {
        put_row(alloc, work, s, entry, out)
    } else {
        Ok(())
    }
}
