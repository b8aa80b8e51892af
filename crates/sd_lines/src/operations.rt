//! Lines of a script.

ghost use Rattle.std.specs.Prelude.{◌≡◌, ◌∷◌, option_map};
ghost use Rattle.sd_types.specs.Works.{same_bytes};
ghost use Rattle.sd_text.specs.Words.{words_of};
ghost use Rattle.sd_text.specs.Numbers.{number_of};
ghost use Rattle.sd_lines.specs.Words.{name_of, unless_dash, only};
ghost use Rattle.sd_lines.specs.Operations.{priocntl_line, cvwait_line, assign_line, pbind_line, thread_operation, chan_operation, lock_operation, operation_of};
ghost use Rattle.sd_lines.specs.Said.{word_of, operation_said};

use crate::names::{is_word, name_of};
use crate::requests::request_of;
use crate::words::{
    QuantumWord, first_name, first_number, is_done, only_name, only_number, only_word,
};
use sd_text::number;
use sd_types::Name;

/// A request of priocntl(2). The ranges of its numbers are not looked at.
#[derive(Clone, Copy)]
pub enum RequestLine {
    Ts {
        limit: i64,
        pri: i64,
    },
    Fx {
        limit: i64,
        pri: i64,
        quantum: QuantumWord,
    },
    Sys {
        pri: i64,
    },
    Rt {
        pri: i64,
        quantum: QuantumWord,
    },
}

/// What a line of a script says. The ranges of numbers are not looked at.
#[derive(Drop)]
pub enum Operation {
    /// Ticks.
    Run(u64),
    Yield,
    /// Ticks.
    Nap(u64),
    Sleep(Name),
    Wake(Name),
    WakeAll(Name),
    Enter(Name),
    Read(Name),
    Write(Name),
    Exit(Name),
    Prio(Name, RequestLine),
    /// A channel and a mutex.
    CvWait(Name, Name),
    SemaP(Name),
    SemaV(Name),
    /// A processor and a set, or the default partition.
    Assign(u64, Option<Name>),
    /// A thread and a processor, or none.
    Pbind(Name, Option<u64>),
}

// `THREAD CLASS ..`.
#[tactic(auto, unfolding(crate::specs::Operations::priocntl_line))]
fn priocntl_line(rest: &[u8]) -> Option<Operation>
    ensures { option_map operation_said result ≡ priocntl_line (words_of rest.now) }
{
    let (thread, left) = first_name(rest)?;
    let request = request_of(left)?;
    Some(Operation::Prio(thread, request))
}

// `CHAN MUTEX`.
#[tactic(auto, unfolding(crate::specs::Operations::cvwait_line))]
fn cvwait_line(rest: &[u8]) -> Option<Operation>
    ensures { option_map operation_said result ≡ cvwait_line (words_of rest.now) }
{
    let (chan, left) = first_name(rest)?;
    let mutex = only_name(left)?;
    Some(Operation::CvWait(chan, mutex))
}

// A name that stands alone, or `-`.
fn name_or_dash(rest: &[u8]) -> Option<Option<Name>>
    ensures { option_map (λ name. option_map word_of name) result ≡ only (unless_dash name_of) (words_of rest.now) }
{
    let word = only_word(rest)?;
    if is_word(word, b"-") {
        return Some(None);
    }
    let name = name_of(word)?;
    Some(Some(name))
}

// A number that stands alone, or `-`.
fn number_or_dash(rest: &[u8]) -> Option<Option<u64>>
    ensures { result ≡ only (unless_dash number_of) (words_of rest.now) }
{
    let word = only_word(rest)?;
    if is_word(word, b"-") {
        return Some(None);
    }
    let n = number(word)?;
    Some(Some(n))
}

// `CPU SET`.
#[tactic(auto, unfolding(crate::specs::Operations::assign_line))]
fn assign_line(rest: &[u8]) -> Option<Operation>
    ensures { option_map operation_said result ≡ assign_line (words_of rest.now) }
{
    let (cpu, left) = first_number(rest)?;
    let set = name_or_dash(left)?;
    Some(Operation::Assign(cpu, set))
}

// `THREAD CPU`.
#[tactic(auto, unfolding(crate::specs::Operations::pbind_line))]
fn pbind_line(rest: &[u8]) -> Option<Operation>
    ensures { option_map operation_said result ≡ pbind_line (words_of rest.now) }
{
    let (thread, left) = first_name(rest)?;
    let cpu = number_or_dash(left)?;
    Some(Operation::Pbind(thread, cpu))
}

// `priocntl THREAD ..`, `assign CPU SET` and `pbind THREAD CPU`.
#[tactic(auto, unfolding(crate::specs::Operations::thread_operation))]
fn thread_operation(word: &[u8], rest: &[u8]) -> Option<Operation>
    ensures { option_map operation_said result ≡ thread_operation word.now (words_of rest.now) }
{
    if is_word(word, b"priocntl") {
        priocntl_line(rest)
    } else if is_word(word, b"assign") {
        assign_line(rest)
    } else if is_word(word, b"pbind") {
        pbind_line(rest)
    } else {
        None
    }
}

// `sleep`, `wake` and `wakeall` with a channel, `semap` and `semav` with a semaphore, and what is none of these.
#[tactic(auto, unfolding(crate::specs::Operations::chan_operation))]
fn chan_operation(word: &[u8], rest: &[u8]) -> Option<Operation>
    ensures { option_map operation_said result ≡ chan_operation word.now (words_of rest.now) }
{
    if is_word(word, b"sleep") {
        only_name(rest).map(Operation::Sleep)
    } else if is_word(word, b"wake") {
        only_name(rest).map(Operation::Wake)
    } else if is_word(word, b"wakeall") {
        only_name(rest).map(Operation::WakeAll)
    } else if is_word(word, b"semap") {
        only_name(rest).map(Operation::SemaP)
    } else if is_word(word, b"semav") {
        only_name(rest).map(Operation::SemaV)
    } else {
        thread_operation(word, rest)
    }
}

// `enter`, `read`, `write` and `exit` with a lock, `cvwait CHAN MUTEX`, and what is none of these.
#[tactic(auto, unfolding(crate::specs::Operations::lock_operation))]
fn lock_operation(word: &[u8], rest: &[u8]) -> Option<Operation>
    ensures { option_map operation_said result ≡ lock_operation word.now (words_of rest.now) }
{
    if is_word(word, b"enter") {
        only_name(rest).map(Operation::Enter)
    } else if is_word(word, b"read") {
        only_name(rest).map(Operation::Read)
    } else if is_word(word, b"write") {
        only_name(rest).map(Operation::Write)
    } else if is_word(word, b"exit") {
        only_name(rest).map(Operation::Exit)
    } else if is_word(word, b"cvwait") {
        cvwait_line(rest)
    } else {
        chan_operation(word, rest)
    }
}

/// What a line of a script says with this first word, behind which this is left, if it has a form.
#[tactic(auto, unfolding(crate::specs::Operations::operation_of))]
pub fn operation_of(word: &[u8], rest: &[u8]) -> Option<Operation>
    ensures { option_map operation_said result ≡ operation_of (word.now ∷ words_of rest.now) }
{
    if is_word(word, b"run") {
        only_number(rest).map(Operation::Run)
    } else if is_word(word, b"yield") {
        if is_done(rest) {
            Some(Operation::Yield)
        } else {
            None
        }
    } else if is_word(word, b"nap") {
        only_number(rest).map(Operation::Nap)
    } else {
        lock_operation(word, rest)
    }
}
