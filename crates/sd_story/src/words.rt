//! The words of which the sentences are made: a name or a number, and the words behind it. Each function appends a text. Where
//! memory runs out it may have appended a part of it: the caller writes into a line of its own, which it then gives up.

ghost use Rattle.std.specs.Prelude.{◌≡◌, ◌++◌, [], OnOk, codes};
ghost use Rattle.sd_machine.specs.Texts.{set_name};
ghost use Rattle.sd_story.specs.Words.{chan_then, change_words, cpu_then, lock_then, number_then, place_words, requeued_words, runnable_words, set_words, thread_then};

use sd_entries::{put_chan_name, put_lock_name, put_set_name, put_thread_name};
use sd_text::put_number;
use sd_types::{ChanId, CpuId, LockId, Put, SetId, ThreadId, Work};
use std::alloc::AllocError;

/// Words alone.
pub(crate) fn put_words(words: &[u8], out: &mut Vec<u8>) -> Result<(), AllocError>
    ensures { OnOk result (out.new.items ≡ out.old.items ++ words.now) }
{
    out.extend_from_slice(words)
}

#[tactic(auto, unfolding(crate::specs::Words::thread_then))]
pub(crate) fn put_thread(
    work: &Work,
    t: ThreadId,
    words: &[u8],
    out: &mut Vec<u8>,
) -> Result<(), AllocError>
    ensures { OnOk result (out.new.items ≡ out.old.items ++ thread_then work.now t words.now) }
{
    put_thread_name(work, t.0 as usize, out)?;
    out.extend_from_slice(words)
}

#[tactic(auto, unfolding(crate::specs::Words::lock_then))]
pub(crate) fn put_lock(
    work: &Work,
    l: LockId,
    words: &[u8],
    out: &mut Vec<u8>,
) -> Result<(), AllocError>
    ensures { OnOk result (out.new.items ≡ out.old.items ++ lock_then work.now l words.now) }
{
    put_lock_name(work, l, out)?;
    out.extend_from_slice(words)
}

#[tactic(auto, unfolding(crate::specs::Words::chan_then))]
pub(crate) fn put_chan(
    work: &Work,
    k: ChanId,
    words: &[u8],
    out: &mut Vec<u8>,
) -> Result<(), AllocError>
    ensures { OnOk result (out.new.items ≡ out.old.items ++ chan_then work.now k words.now) }
{
    put_chan_name(work, k, out)?;
    out.extend_from_slice(words)
}

#[tactic(auto, unfolding(crate::specs::Words::cpu_then))]
pub(crate) fn put_cpu(c: CpuId, words: &[u8], out: &mut Vec<u8>) -> Result<(), AllocError>
    ensures { OnOk result (out.new.items ≡ out.old.items ++ cpu_then c words.now) }
{
    out.extend_from_slice(b"processor ")?;
    put_number(out, u64::from(c.0))?;
    out.extend_from_slice(words)
}

#[tactic(auto, unfolding(crate::specs::Words::number_then))]
pub(crate) fn put_count(n: u64, words: &[u8], out: &mut Vec<u8>) -> Result<(), AllocError>
    ensures { OnOk result (out.new.items ≡ out.old.items ++ number_then n words.now) }
{
    put_number(out, n)?;
    out.extend_from_slice(words)
}

pub(crate) fn put_priority(p: u8, words: &[u8], out: &mut Vec<u8>) -> Result<(), AllocError>
    ensures { OnOk result (out.new.items ≡ out.old.items ++ number_then p words.now) }
{
    put_count(u64::from(p), words, out)
}

fn put_named_set(work: &Work, p: SetId, out: &mut Vec<u8>) -> Result<(), AllocError>
    ensures { OnOk result (out.new.items ≡ out.old.items ++ (codes "the set " ++ set_name work.now p.0)) }
{
    put_words(b"the set ", out)?;
    put_set_name(work, p, out)
}

/// A processor set, or the default partition.
#[tactic(auto, unfolding(crate::specs::Words::set_words))]
pub(crate) fn put_set(work: &Work, p: SetId, out: &mut Vec<u8>) -> Result<(), AllocError>
    ensures { OnOk result (out.new.items ≡ out.old.items ++ set_words work.now p) }
{
    if 0 < p.0 {
        put_named_set(work, p, out)
    } else {
        put_words(b"the default partition", out)
    }
}

// Words, and a processor behind them.
fn put_words_cpu(words: &[u8], c: CpuId, out: &mut Vec<u8>) -> Result<(), AllocError>
    ensures { OnOk result (out.new.items ≡ out.old.items ++ (words.now ++ cpu_then c [])) }
{
    put_words(words, out)?;
    put_cpu(c, b"", out)
}

/// Where a thread stands that was made runnable.
pub(crate) fn put_place(at: Put, out: &mut Vec<u8>) -> Result<(), AllocError>
    ensures { OnOk result (out.new.items ≡ out.old.items ++ place_words at) }
{
    match at {
        Put::Cpu(x) => put_words_cpu(b" on the queue of ", x, out),
        Put::RealTime(x) => put_words_cpu(b" on the real-time queue, for ", x, out),
    }
}

fn put_requeued_at(at: Put, out: &mut Vec<u8>) -> Result<(), AllocError>
    ensures { OnOk result (out.new.items ≡ out.old.items ++ (codes "; it is queued again" ++ place_words at)) }
{
    put_words(b"; it is queued again", out)?;
    put_place(at, out)
}

/// Where a queued thread was put whose priority or binding changed, if it was.
pub(crate) fn put_requeued(at: Option<Put>, out: &mut Vec<u8>) -> Result<(), AllocError>
    ensures { OnOk result (out.new.items ≡ out.old.items ++ requeued_words at) }
{
    match at {
        None => Ok(()),
        Some(at) => put_requeued_at(at, out),
    }
}

/// A thread that was made runnable, and where it stands.
pub(crate) fn put_runnable(
    work: &Work,
    t: ThreadId,
    at: Put,
    out: &mut Vec<u8>,
) -> Result<(), AllocError>
    ensures { OnOk result (out.new.items ≡ out.old.items ++ runnable_words work.now t at) }
{
    put_thread(work, t, b" is runnable", out)?;
    put_place(at, out)
}

// From one number to another.
fn put_from_to(word: &[u8], before: u8, after: u8, out: &mut Vec<u8>) -> Result<(), AllocError>
    ensures { OnOk result (out.new.items ≡ out.old.items ++ (word.now ++ number_then before (codes " to ") ++ number_then after [])) }
{
    put_words(word, out)?;
    put_priority(before, b" to ", out)?;
    put_priority(after, b"", out)
}

fn put_stays(p: u8, out: &mut Vec<u8>) -> Result<(), AllocError>
    ensures { OnOk result (out.new.items ≡ out.old.items ++ (codes "stays " ++ number_then p [])) }
{
    put_words(b"stays ", out)?;
    put_priority(p, b"", out)
}

/// How a priority changes.
#[tactic(auto, unfolding(crate::specs::Words::change_words))]
pub(crate) fn put_change(before: u8, after: u8, out: &mut Vec<u8>) -> Result<(), AllocError>
    ensures { OnOk result (out.new.items ≡ out.old.items ++ change_words before after) }
{
    if before < after {
        put_from_to(b"rises from ", before, after, out)
    } else if after < before {
        put_from_to(b"falls from ", before, after, out)
    } else {
        put_stays(after, out)
    }
}
