//! How long a thread waits at most from a wakeup to its running, and the text that says it.

ghost use Rattle.std.specs.Prelude.{◌≡◌, ◌++◌, ◌≤◌, length, OnOk, IfOk};
ghost use Rattle.sd_search_answers.specs.Answered.{IsShortWait, longest_verdict};
ghost use Rattle.sd_search_answers.specs.Texts.{longest_text, wait_head, wait_text};
ghost use Rattle.sd_types.specs.Limits.{most_entries};

use crate::journals::write_journal;
use crate::texts::{write_more, write_never, write_states};
use crate::timing_texts::write_tick;
use crate::verdicts::Verdict;
use sd_longest::Longest;
use sd_types::{Entry, Work};
use std::alloc::{AllocError, Global};

/// Appends what stands in front of the journal.
fn write_wait_head(ticks: u32, n: u64, out: &mut Vec<u8>) -> Result<(), AllocError>
    ensures { OnOk result (out.new.items ≡ out.old.items ++ wait_head ticks n) }
{
    out.extend_from_slice(b"found\n")?;
    write_tick(b"longest ", ticks, out)?;
    write_states(n, out)
}

/// Appends the longest wait, with the journal of a run in which it comes.
fn write_wait(
    alloc: Global,
    work: &Work,
    ticks: u32,
    entries: &[Entry],
    n: u64,
    out: &mut Vec<u8>,
) -> Result<(), AllocError>
    ensures text { OnOk result (out.new.items ≡ out.old.items ++ wait_text work.now ticks entries.now n) }
    ensures short { OnOk result (length entries.now ≤ most_entries) }
{
    write_wait_head(ticks, n, out)?;
    write_journal(alloc, work, entries, out)
}

fn write_longest(
    alloc: Global,
    work: &Work,
    longest: &Longest,
    n: u64,
    out: &mut Vec<u8>,
) -> Result<(), AllocError>
    ensures text { OnOk result (out.new.items ≡ out.old.items ++ longest_text work.now longest.now n) }
    ensures short { OnOk result (IsShortWait longest.now) }
{
    match longest {
        Longest::Wait { ticks, entries } => write_wait(alloc, work, *ticks, entries, n, out),
        Longest::Never => write_never(n, out),
        Longest::More => write_more(n, out),
    }
}

/// The text of how long the thread waits at most, after a search of so many states.
pub(crate) fn text_of_longest(
    alloc: Global,
    work: &Work,
    longest: &Longest,
    n: u64,
) -> Result<Vec<u8>, AllocError>
    ensures text { IfOk result (λ text. text.items ≡ longest_text work.now longest.now n) }
    ensures short { IfOk result (λ text. IsShortWait longest.now) }
{
    let mut text = Vec::new(alloc);
    write_longest(alloc, work, longest, n, &mut text)?;
    Ok(text)
}

pub(crate) fn longest_verdict(longest: &Longest) -> Verdict
    ensures { result ≡ longest_verdict longest.now }
{
    match longest {
        Longest::Wait { .. } => Verdict::Found,
        Longest::Never => Verdict::Never,
        Longest::More => Verdict::More,
    }
}
