//! Ends of queues, places and answers, from their words.

ghost use Rattle.std.specs.Prelude.{◌≡◌};
ghost use Rattle.sd_entries.specs.Reading.{assign_in, bind_in, denied_in, end_in, prio_in, put_in, put_in_if, woken_by};

use crate::words::{byte_in, cpu_in, is_word};
use sd_types::{AssignAnswer, BindAnswer, Denied, End, PrioAnswer, Put, ThreadId};

#[tactic(auto, unfolding(sd_entries::specs::Reading::end_in))]
pub(crate) fn end_in(word: &[u8]) -> End
    ensures { result ≡ end_in word.now }
{
    if is_word(word, b"back") {
        End::Back
    } else {
        End::Front
    }
}

/// Where a thread was put, from the two words.
#[tactic(auto, unfolding(sd_entries::specs::Reading::put_in))]
pub(crate) fn put_in(word: &[u8], cpu: &[u8]) -> Put
    ensures { result ≡ put_in word.now cpu.now }
{
    if is_word(word, b"rt") {
        Put::RealTime(cpu_in(cpu))
    } else {
        Put::Cpu(cpu_in(cpu))
    }
}

/// The same, and none where the first word tells no place.
#[tactic(auto, unfolding(sd_entries::specs::Reading::put_in_if))]
pub(crate) fn put_in_if(word: &[u8], cpu: &[u8]) -> Option<Put>
    ensures { result ≡ put_in_if word.now cpu.now }
{
    if is_word(word, b"to") {
        Some(put_in(word, cpu))
    } else if is_word(word, b"rt") {
        Some(put_in(word, cpu))
    } else {
        None
    }
}

#[tactic(auto, unfolding(sd_entries::specs::Reading::denied_in))]
fn denied_in(word: &[u8]) -> Denied
    ensures { result ≡ denied_in word.now }
{
    if is_word(word, b"ESRCH") {
        Denied::ESRCH
    } else if is_word(word, b"EINVAL") {
        Denied::EINVAL
    } else {
        Denied::EPERM
    }
}

/// The answer of priocntl, from its word, the priority and the place.
#[tactic(auto, unfolding(sd_entries::specs::Reading::prio_in))]
pub(crate) fn prio_in(word: &[u8], p: &[u8], place: Option<Put>) -> PrioAnswer
    ensures { result ≡ prio_in word.now p.now place }
{
    if is_word(word, b"ok") {
        PrioAnswer::Changed {
            p: byte_in(p),
            at: place,
        }
    } else {
        PrioAnswer::Refused(denied_in(word))
    }
}

#[tactic(auto, unfolding(sd_entries::specs::Reading::assign_in))]
pub(crate) fn assign_in(word: &[u8]) -> AssignAnswer
    ensures { result ≡ assign_in word.now }
{
    if is_word(word, b"ok") {
        AssignAnswer::Changed
    } else if is_word(word, b"EPERM") {
        AssignAnswer::EPERM
    } else if is_word(word, b"EINVAL") {
        AssignAnswer::EINVAL
    } else {
        AssignAnswer::EBUSY
    }
}

#[tactic(auto, unfolding(sd_entries::specs::Reading::bind_in))]
pub(crate) fn bind_in(word: &[u8], place: Option<Put>) -> BindAnswer
    ensures { result ≡ bind_in word.now place }
{
    if is_word(word, b"ok") {
        BindAnswer::Changed { at: place }
    } else if is_word(word, b"ESRCH") {
        BindAnswer::ESRCH
    } else if is_word(word, b"EINVAL") {
        BindAnswer::EINVAL
    } else if is_word(word, b"EPERM") {
        BindAnswer::EPERM
    } else {
        BindAnswer::EBUSY
    }
}

/// The thread that was woken, where a place is told.
pub(crate) fn woken_by(u: ThreadId, place: Option<Put>) -> Option<(ThreadId, Put)>
    ensures { result ≡ woken_by u place }
{
    match place {
        None => None,
        Some(place) => Some((u, place)),
    }
}
