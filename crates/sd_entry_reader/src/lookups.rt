//! The numbers of the things that a workload names.

ghost use Rattle.std.specs.Prelude.{◌≡◌, ◌≤◌, position};
ghost use Rattle.std.specs.List.{position_or_len};
ghost use Rattle.sd_types.specs.Works.{same_bytes};
ghost use Rattle.sd_types.specs.Limits.{most_objects, most_threads};
ghost use Rattle.sd_entries.specs.Reading.{at, chan_in, lock_in, set_in, thread_in};

use crate::Names;
use crate::cutting::Words;
use crate::words::is_word;
use sd_types::{ChanId, CpuId, List, LockId, Name, SetId, ThreadId, Work};

// The number of the thread of this name, or of the threads where none has it.
fn thread_number(names: &Names<'_>, word: &[u8]) -> usize
    ensures value { result ≡ position_or_len (λ d. same_bytes d.name.text.items word.now) names.now.work.now.threads }
    ensures bound { result ≤ most_threads }
{
    let many = names.work.threads.items().len();
    names.threads.find(word).unwrap_or(many)
}

// The number of the lock of this name, or of the locks where none has it.
fn lock_number(names: &Names<'_>, word: &[u8]) -> usize
    ensures value { result ≡ position_or_len (λ d. same_bytes d.0.text.items word.now) names.now.work.now.locks }
    ensures bound { result ≤ most_objects }
{
    let many = names.work.locks.items().len();
    names.locks.find(word).unwrap_or(many)
}

// The number of the channel of this name, or of the channels where none has it.
fn chan_number(names: &Names<'_>, word: &[u8]) -> usize
    ensures value { result ≡ position_or_len (λ d. same_bytes d.0.text.items word.now) names.now.work.now.chans }
    ensures bound { result ≤ most_objects }
{
    let many = names.work.chans.items().len();
    names.chans.find(word).unwrap_or(many)
}

fn set_index(sets: &[(Name, List<CpuId>)], word: &[u8]) -> Option<usize>
    ensures { result ≡ position (λ d. same_bytes d.0.text.items word.now) sets.now }
{
    sets.iter().position(|d| is_word(d.0.bytes(), word))
}

#[tactic(auto, unfolding(sd_entries::specs::Reading::thread_in))]
fn thread_in(names: &Names<'_>, word: &[u8]) -> ThreadId
    ensures { result ≡ thread_in names.now.work.now word.now }
{
    ThreadId(thread_number(names, word) as u16)
}

#[tactic(auto, unfolding(sd_entries::specs::Reading::lock_in))]
fn lock_in(names: &Names<'_>, word: &[u8]) -> LockId
    ensures { result ≡ lock_in names.now.work.now word.now }
{
    LockId(lock_number(names, word) as u16)
}

#[tactic(auto, unfolding(sd_entries::specs::Reading::chan_in))]
fn chan_in(names: &Names<'_>, word: &[u8]) -> ChanId
    ensures { result ≡ chan_in names.now.work.now word.now }
{
    ChanId(chan_number(names, word) as u16)
}

#[tactic(auto, using(sd_text::proofs::LineLemmas::index_or_length, crate::proofs::IndexLemmas::index_within), unfolding(sd_entries::specs::Reading::set_in))]
fn set_in(work: &Work, word: &[u8]) -> SetId
    ensures { result ≡ set_in work.now word.now }
{
    if is_word(word, b"-") {
        return SetId(0);
    }
    let sets = work.sets.items();
    SetId((set_index(sets, word).unwrap_or(sets.len()) + 1) as u8)
}

/// The thread that the word at this place names.
pub(crate) fn thread_at(names: &Names<'_>, words: &Words<'_>, i: usize) -> ThreadId
    requires { i ≤ 10 }
    ensures { result ≡ thread_in names.now.work.now (at words.now i) }
{
    thread_in(names, words.word(i))
}

/// The lock that the word at this place names.
pub(crate) fn lock_at(names: &Names<'_>, words: &Words<'_>, i: usize) -> LockId
    requires { i ≤ 10 }
    ensures { result ≡ lock_in names.now.work.now (at words.now i) }
{
    lock_in(names, words.word(i))
}

/// The channel that the word at this place names.
pub(crate) fn chan_at(names: &Names<'_>, words: &Words<'_>, i: usize) -> ChanId
    requires { i ≤ 10 }
    ensures { result ≡ chan_in names.now.work.now (at words.now i) }
{
    chan_in(names, words.word(i))
}

/// The set that the word at this place names.
pub(crate) fn set_at(names: &Names<'_>, words: &Words<'_>, i: usize) -> SetId
    requires { i ≤ 10 }
    ensures { result ≡ set_in names.now.work.now (at words.now i) }
{
    set_in(names.work, words.word(i))
}
