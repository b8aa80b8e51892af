//! What is said of a drawing that leaves something out, or of what the run does not have.

ghost use Rattle.std.specs.Prelude.{◌≡◌, ◌++◌, [], OnOk, IfOk, codes, decimal, nat_lt, if◌then◌else◌};
ghost use Rattle.sd_story.specs.Selections.{has_thread};
ghost use Rattle.sd_viewer.specs.Drawings.{asks_past, left_line, counted, end_line, from_to, parts_line, past_line, story_line, threads_line, threads_words, ticks_line, ticks_words, timeline_line};

use crate::drawings::Drawing;
use crate::frames::{MOST_THREADS_SHOWN, last_tick};
use sd_story::{Selection, has_thread};
use sd_text::put_number;
use sd_types::{GREATEST_LIMIT, Work};
use std::alloc::{AllocError, Global};

fn put_words(words: &[u8], out: &mut Vec<u8>) -> Result<(), AllocError>
    ensures { OnOk result (out.new.items ≡ out.old.items ++ words.now) }
{
    out.extend_from_slice(words)
}

// A word and a number behind it.
fn put_counted(word: &[u8], n: u64, out: &mut Vec<u8>) -> Result<(), AllocError>
    ensures { OnOk result (out.new.items ≡ out.old.items ++ (word.now ++ decimal n)) }
{
    put_words(word, out)?;
    put_number(out, n)
}

fn put_limit(work: &Work, out: &mut Vec<u8>) -> Result<(), AllocError>
    ensures { OnOk result (out.new.items ≡ out.old.items ++ counted (codes ": the run ends at tick ") work.now.limit) }
{
    put_counted(b": the run ends at tick ", u64::from(work.limit), out)
}

fn put_past(form: &[u8], work: &Work, out: &mut Vec<u8>) -> Result<(), AllocError>
    ensures { OnOk result (out.new.items ≡ out.old.items ++ past_line form.now work.now) }
{
    put_words(form, out)?;
    put_limit(work, out)?;
    put_words(b"\n", out)
}

// The run ends before the last of the ticks that were asked for; the greatest number, beyond which no run goes, asks for all.
fn asks_past(work: &Work, to: u32) -> bool
    ensures { result ≡ asks_past work.now to }
{
    work.limit < to && to < GREATEST_LIMIT
}

// The run does not have all ticks that were asked for.
#[tactic(auto, unfolding(crate::specs::Drawings::end_line))]
fn put_end_line(form: &[u8], work: &Work, to: u32, out: &mut Vec<u8>) -> Result<(), AllocError>
    ensures { OnOk result (out.new.items ≡ out.old.items ++ end_line form.now work.now to) }
{
    if asks_past(work, to) {
        put_past(form, work, out)
    } else {
        Ok(())
    }
}

fn put_from_to(
    word: &[u8],
    from: u64,
    then_word: &[u8],
    to: u64,
    out: &mut Vec<u8>,
) -> Result<(), AllocError>
    ensures { OnOk result (out.new.items ≡ out.old.items ++ from_to word.now from then_word.now to) }
{
    put_counted(word, from, out)?;
    put_counted(then_word, to, out)
}

fn put_ticks_words(from: u64, to: u64, out: &mut Vec<u8>) -> Result<(), AllocError>
    ensures { OnOk result (out.new.items ≡ out.old.items ++ ticks_words from to) }
{
    put_from_to(b"timeline: ticks ", from, b" to ", to, out)?;
    put_from_to(b" are not drawn; type: timeline ", from, b" ", to, out)?;
    put_words(b"\n", out)
}

// Ticks that were asked for are left out.
#[tactic(auto, unfolding(crate::specs::Drawings::ticks_line))]
fn put_ticks_line(work: &Work, from: u32, to: u32, out: &mut Vec<u8>) -> Result<(), AllocError>
    ensures { OnOk result (out.new.items ≡ out.old.items ++ ticks_line work.now from to) }
{
    let last = last_tick(work, from, to);
    let end = to.min(work.limit);
    if last < end {
        put_ticks_words(u64::from(last), u64::from(end), out)
    } else {
        Ok(())
    }
}

fn put_threads_words(n: u64, out: &mut Vec<u8>) -> Result<(), AllocError>
    ensures { OnOk result (out.new.items ≡ out.old.items ++ threads_words n) }
{
    put_counted(b"timeline: ", n, out)?;
    put_words(b" threads are not drawn; type for one: list NAME\n", out)
}

// Threads are left out.
#[tactic(auto, unfolding(crate::specs::Drawings::threads_line))]
fn put_threads_line(work: &Work, out: &mut Vec<u8>) -> Result<(), AllocError>
    ensures { OnOk result (out.new.items ≡ out.old.items ++ threads_line work.now) }
{
    let threads = work.threads.items().len();
    if MOST_THREADS_SHOWN < threads {
        put_threads_words((threads - MOST_THREADS_SHOWN) as u64, out)
    } else {
        Ok(())
    }
}

fn put_parts_line(work: &Work, from: u32, to: u32, out: &mut Vec<u8>) -> Result<(), AllocError>
    ensures { OnOk result (out.new.items ≡ out.old.items ++ parts_line work.now from to) }
{
    put_end_line(b"timeline", work, to, out)?;
    put_ticks_line(work, from, to, out)?;
    put_threads_line(work, out)
}

#[tactic(auto, unfolding(crate::specs::Drawings::timeline_line))]
fn put_timeline_line(work: &Work, from: u32, to: u32, out: &mut Vec<u8>) -> Result<(), AllocError>
    ensures { OnOk result (out.new.items ≡ out.old.items ++ timeline_line work.now from to) }
{
    if from < work.limit {
        put_parts_line(work, from, to, out)
    } else {
        put_past(b"timeline: no picture is drawn", work, out)
    }
}

// The run has none of the ticks from this one on, or not all up to the other.
fn put_ticks_past(work: &Work, from: u32, to: u32, out: &mut Vec<u8>) -> Result<(), AllocError>
    ensures { OnOk result (out.new.items ≡ out.old.items
        ++ (if nat_lt work.now.limit from then past_line (codes "list") work.now else end_line (codes "list") work.now to)) }
{
    if work.limit < from {
        put_past(b"list", work, out)
    } else {
        put_end_line(b"list", work, to, out)
    }
}

// No thread has the name.
fn put_unknown(work: &Work, name: &[u8], out: &mut Vec<u8>) -> Result<(), AllocError>
    ensures { OnOk result (out.new.items ≡ out.old.items ++ (if has_thread work.now name.now then [] else codes "list: no thread has this name\n")) }
{
    if has_thread(work, name) {
        Ok(())
    } else {
        put_words(b"list: no thread has this name\n", out)
    }
}

#[tactic(auto, unfolding(crate::specs::Drawings::story_line))]
fn put_story_line(work: &Work, selection: &Selection, out: &mut Vec<u8>) -> Result<(), AllocError>
    ensures { OnOk result (out.new.items ≡ out.old.items ++ story_line work.now selection.now) }
{
    match selection {
        Selection::Ticks { from, to } => put_ticks_past(work, *from, *to, out),
        Selection::Thread { name } => put_unknown(work, name.as_slice(), out),
    }
}

fn put_left_line(work: &Work, drawing: &Drawing, out: &mut Vec<u8>) -> Result<(), AllocError>
    ensures { OnOk result (out.new.items ≡ out.old.items ++ left_line drawing.now work.now) }
{
    match drawing {
        Drawing::Timeline { from, to } => put_timeline_line(work, *from, *to, out),
        Drawing::Trace => Ok(()),
        Drawing::Story(selection) => put_story_line(work, selection, out),
        Drawing::Report | Drawing::Sheet | Drawing::Jobs => Ok(()),
    }
}

/// What is said of a drawing of a run of the workload that leaves out ticks that were asked for, or threads, or where the run has
/// no such ticks or the workload no such thread; empty where there is nothing to say.
pub(crate) fn left_line(
    alloc: Global,
    work: &Work,
    drawing: &Drawing,
) -> Result<Vec<u8>, AllocError>
    ensures { IfOk result (λ line. line.items ≡ left_line drawing.now work.now) }
{
    let mut line = Vec::new(alloc);
    put_left_line(work, drawing, &mut line)?;
    Ok(line)
}
