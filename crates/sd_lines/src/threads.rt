//! The line that declares a thread.
//!
//! Source: priocntl(2), psrset(1M).

ghost use Rattle.std.specs.Prelude.{◌≡◌, IfSome, IfNone, None, Some, option_map};
ghost use Rattle.sd_types.specs.Works.{same_bytes};
ghost use Rattle.sd_text.specs.Words.{words_of};
ghost use Rattle.sd_lines.specs.Threads.{ts_words, fx_words, sys_words, rt_words, class_words, uid_option, priv_option, set_option, options, thread_line};
ghost use Rattle.sd_lines.specs.Said.{word_of, options_said, thread_said};

use crate::names::is_word;
use crate::words::{
    QuantumWord, behind, first_name, first_number, first_quantum, first_signed, first_word,
    is_done, only_name,
};
use sd_types::Name;

/// A class and its numbers, whose ranges are not looked at.
#[derive(Clone, Copy)]
pub enum ThreadClass {
    Ts {
        cpupri: u64,
        limit: i64,
        upri: i64,
    },
    Fx {
        limit: u64,
        pri: u64,
        quantum: QuantumWord,
    },
    Sys {
        pri: u64,
    },
    Rt {
        pri: u64,
        quantum: QuantumWord,
    },
}

/// The options of a thread: its uid, whether it is privileged, and the name of its set.
#[derive(Drop)]
pub struct ThreadOptions {
    pub uid: u64,
    pub privileged: bool,
    pub set: Option<Name>,
}

/// A declared thread.
#[derive(Drop)]
pub struct ThreadLine {
    pub name: Name,
    pub class: ThreadClass,
    pub options: ThreadOptions,
}

// `CPUPRI LIMIT UPRI`, and what is left.
#[tactic(auto, unfolding(crate::specs::Threads::ts_words))]
fn ts_words(rest: &[u8]) -> Option<(ThreadClass, &[u8])>
    ensures none { IfNone result (ts_words (words_of rest.now) ≡ None) }
    ensures some { IfSome result (λ p. ts_words (words_of rest.now) ≡ Some (p.0, words_of p.1.now)) }
{
    let (cpupri, left) = first_number(rest)?;
    let (limit, left) = first_signed(left)?;
    let (upri, left) = first_signed(left)?;
    Some((
        ThreadClass::Ts {
            cpupri,
            limit,
            upri,
        },
        left,
    ))
}

// `LIMIT PRI Q`, and what is left.
#[tactic(auto, unfolding(crate::specs::Threads::fx_words))]
fn fx_words(rest: &[u8]) -> Option<(ThreadClass, &[u8])>
    ensures none { IfNone result (fx_words (words_of rest.now) ≡ None) }
    ensures some { IfSome result (λ p. fx_words (words_of rest.now) ≡ Some (p.0, words_of p.1.now)) }
{
    let (limit, left) = first_number(rest)?;
    let (pri, left) = first_number(left)?;
    let (quantum, left) = first_quantum(left)?;
    Some((
        ThreadClass::Fx {
            limit,
            pri,
            quantum,
        },
        left,
    ))
}

// `PRI`, and what is left.
#[tactic(auto, unfolding(crate::specs::Threads::sys_words))]
fn sys_words(rest: &[u8]) -> Option<(ThreadClass, &[u8])>
    ensures none { IfNone result (sys_words (words_of rest.now) ≡ None) }
    ensures some { IfSome result (λ p. sys_words (words_of rest.now) ≡ Some (p.0, words_of p.1.now)) }
{
    let (pri, left) = first_number(rest)?;
    Some((ThreadClass::Sys { pri }, left))
}

// `PRI Q`, and what is left.
#[tactic(auto, unfolding(crate::specs::Threads::rt_words))]
fn rt_words(rest: &[u8]) -> Option<(ThreadClass, &[u8])>
    ensures none { IfNone result (rt_words (words_of rest.now) ≡ None) }
    ensures some { IfSome result (λ p. rt_words (words_of rest.now) ≡ Some (p.0, words_of p.1.now)) }
{
    let (pri, left) = first_number(rest)?;
    let (quantum, left) = first_quantum(left)?;
    Some((ThreadClass::Rt { pri, quantum }, left))
}

// The class and its numbers, and what is left.
#[tactic(auto, unfolding(crate::specs::Threads::class_words))]
fn class_words(rest: &[u8]) -> Option<(ThreadClass, &[u8])>
    ensures none { IfNone result (class_words (words_of rest.now) ≡ None) }
    ensures some { IfSome result (λ p. class_words (words_of rest.now) ≡ Some (p.0, words_of p.1.now)) }
{
    let (word, left) = first_word(rest)?;
    if is_word(word, b"ts") {
        ts_words(left)
    } else if is_word(word, b"fx") {
        fx_words(left)
    } else if is_word(word, b"sys") {
        sys_words(left)
    } else if is_word(word, b"rt") {
        rt_words(left)
    } else {
        None
    }
}

// `uid N`, or 0, and what is left.
#[tactic(auto, unfolding(crate::specs::Threads::uid_option))]
fn uid_option(rest: &[u8]) -> Option<(u64, &[u8])>
    ensures none { IfNone result (uid_option (words_of rest.now) ≡ None) }
    ensures some { IfSome result (λ p. uid_option (words_of rest.now) ≡ Some (p.0, words_of p.1.now)) }
{
    match behind(b"uid", rest) {
        Some(left) => first_number(left),
        None => Some((0, rest)),
    }
}

// `priv`, or not, and what is left.
#[tactic(auto, unfolding(crate::specs::Threads::priv_option))]
fn priv_option(rest: &[u8]) -> (bool, &[u8])
    ensures { priv_option (words_of rest.now) ≡ (result.0, words_of result.1.now) }
{
    match behind(b"priv", rest) {
        Some(left) => (true, left),
        None => (false, rest),
    }
}

// `in SET`, or nothing more.
#[tactic(auto, unfolding(crate::specs::Threads::set_option))]
fn set_option(rest: &[u8]) -> Option<Option<Name>>
    ensures { option_map (λ set. option_map word_of set) result ≡ set_option (words_of rest.now) }
{
    match behind(b"in", rest) {
        Some(left) => {
            let name = only_name(left)?;
            Some(Some(name))
        }
        None if is_done(rest) => Some(None),
        None => None,
    }
}

// The options.
#[tactic(auto, unfolding(crate::specs::Threads::options))]
fn options(rest: &[u8]) -> Option<ThreadOptions>
    ensures { option_map options_said result ≡ options (words_of rest.now) }
{
    let (uid, left) = uid_option(rest)?;
    let (privileged, left) = priv_option(left);
    let set = set_option(left)?;
    Some(ThreadOptions {
        uid,
        privileged,
        set,
    })
}

/// `thread NAME ..`, behind `thread`.
#[tactic(auto, unfolding(crate::specs::Threads::thread_line))]
pub fn thread_line(rest: &[u8]) -> Option<ThreadLine>
    ensures { option_map thread_said result ≡ thread_line (words_of rest.now) }
{
    let (name, left) = first_name(rest)?;
    let (class, left) = class_words(left)?;
    let options = options(left)?;
    Some(ThreadLine {
        name,
        class,
        options,
    })
}
