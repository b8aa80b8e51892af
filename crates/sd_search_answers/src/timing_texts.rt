//! The text of when a thread ends.

ghost use Rattle.std.specs.Prelude.{◌≡◌, ◌++◌, ◌≤◌, length, OnOk, IfOk};
ghost use Rattle.sd_search_answers.specs.Texts.{between_text, earliest_head, every_words, thread_line, tick_line, timing_text};
ghost use Rattle.sd_search_answers.specs.Timings.{AreShort};
ghost use Rattle.sd_types.specs.Limits.{most_entries};

use crate::journals::write_journal;
use crate::texts::{write_more, write_never, write_states};
use crate::timings::Timing;
use sd_entries::put_thread_name;
use sd_extremes::Ending;
use sd_text::put_number;
use sd_types::{ThreadId, Work};
use std::alloc::{AllocError, Global};

/// Whether the thread ends in every run.
fn every_words(in_every: bool) -> &'static [u8]
    ensures { result.now ≡ every_words in_every }
{
    if in_every {
        b" ends in every run\n"
    } else {
        b" is left in some run\n"
    }
}

fn write_thread(
    work: &Work,
    thread: ThreadId,
    in_every: bool,
    out: &mut Vec<u8>,
) -> Result<(), AllocError>
    ensures { OnOk result (out.new.items ≡ out.old.items ++ thread_line work.now thread in_every) }
{
    out.extend_from_slice(b"thread ")?;
    put_thread_name(work, thread.0 as usize, out)?;
    out.extend_from_slice(every_words(in_every))
}

/// Appends a number of ticks behind a word.
pub(crate) fn write_tick(word: &[u8], tick: u32, out: &mut Vec<u8>) -> Result<(), AllocError>
    ensures { OnOk result (out.new.items ≡ out.old.items ++ tick_line word.now tick) }
{
    out.extend_from_slice(word)?;
    put_number(out, u64::from(tick))?;
    out.push(b'\n')?;
    Ok(())
}

/// Appends what stands in front of the first journal.
fn write_earliest_head(
    work: &Work,
    thread: ThreadId,
    in_every: bool,
    earliest: &Ending,
    n: u64,
    out: &mut Vec<u8>,
) -> Result<(), AllocError>
    ensures { OnOk result (out.new.items ≡ out.old.items ++ earliest_head work.now thread in_every earliest.now n) }
{
    out.extend_from_slice(b"found\n")?;
    write_thread(work, thread, in_every, out)?;
    write_states(n, out)?;
    write_tick(b"earliest ", earliest.tick, out)?;
    Ok(())
}

/// Appends the two runs between which all others lie.
fn write_between(
    alloc: Global,
    work: &Work,
    thread: ThreadId,
    in_every: bool,
    earliest: &Ending,
    latest: &Ending,
    n: u64,
    out: &mut Vec<u8>,
) -> Result<(), AllocError>
    ensures text { OnOk result (out.new.items ≡ out.old.items ++ between_text work.now thread in_every earliest.now latest.now n) }
    ensures short_first { OnOk result (length earliest.now.entries.items ≤ most_entries) }
    ensures short_last { OnOk result (length latest.now.entries.items ≤ most_entries) }
{
    write_earliest_head(work, thread, in_every, earliest, n, out)?;
    write_journal(alloc, work, &earliest.entries, out)?;
    write_tick(b"latest ", latest.tick, out)?;
    write_journal(alloc, work, &latest.entries, out)?;
    Ok(())
}

/// Appends when the thread ends, after a search of so many states.
fn write_timing(
    alloc: Global,
    work: &Work,
    thread: ThreadId,
    timing: &Timing,
    n: u64,
    out: &mut Vec<u8>,
) -> Result<(), AllocError>
    ensures text { OnOk result (out.new.items ≡ out.old.items ++ timing_text work.now thread timing.now n) }
    ensures short { OnOk result (AreShort timing.now) }
{
    match timing {
        Timing::Between {
            earliest,
            latest,
            in_every,
        } => write_between(alloc, work, thread, *in_every, earliest, latest, n, out),
        Timing::Never => write_never(n, out),
        Timing::More => write_more(n, out),
    }
}

/// The text of when the thread ends, after a search of so many states.
pub(crate) fn text_of_timing(
    alloc: Global,
    work: &Work,
    thread: ThreadId,
    timing: &Timing,
    n: u64,
) -> Result<Vec<u8>, AllocError>
    ensures text { IfOk result (λ text. text.items ≡ timing_text work.now thread timing.now n) }
    ensures short { IfOk result (λ text. AreShort timing.now) }
{
    let mut text = Vec::new(alloc);
    write_timing(alloc, work, thread, timing, n, &mut text)?;
    Ok(text)
}
