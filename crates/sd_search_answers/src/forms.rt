//! The forms of the arguments of `dispfind`.

ghost use Rattle.std.specs.Prelude.{◌≡◌, map, string_bytes};
ghost use Rattle.sd_types.specs.Works.{same_bytes};
ghost use Rattle.sd_search_answers.specs.Forms.{aim_of, bounded, most_of, named_aim, request_of, search_of, thread_aim};

use arrayvec::ArrayVec;
use sd_search::Question;
use sd_stretches::short_name;
use sd_text::number;
use sd_types::MOST_NAME_BYTES;

/// What a search is for: a run that ends so, how many states there are, when the thread of a name ends, or how long it waits at
/// most from a wakeup to its running.
#[derive(Drop)]
pub enum Aim {
    Find(Question),
    Count,
    Ends { name: ArrayVec<u8, 16> },
    Waits { name: ArrayVec<u8, 16> },
}

/// What is asked for: the forms of the arguments, or a search. `most` is the number of states at which it ends, from 1 to
/// 1,000,000,000.
#[derive(Drop)]
pub enum Request {
    Help,
    Search { aim: Aim, most: u64 },
}

/// The number of states at which a search ends where none is given.
const MOST_STATES: u64 = 1_000_000;

fn is_word(text: &[u8], word: &[u8]) -> bool
    ensures { result ≡ same_bytes text.now word.now }
{
    text == word
}

fn aim_of(word: &[u8]) -> Option<Aim>
    ensures { result ≡ aim_of word.now }
{
    if is_word(word, b"blocked") {
        Some(Aim::Find(Question::Blocked))
    } else if is_word(word, b"stuck") {
        Some(Aim::Find(Question::Stuck))
    } else if is_word(word, b"states") {
        Some(Aim::Count)
    } else {
        None
    }
}

fn named_aim(word: &[u8], name: ArrayVec<u8, 16>) -> Option<Aim>
    ensures { result ≡ named_aim word.now name }
{
    if is_word(word, b"ends") {
        Some(Aim::Ends { name })
    } else if is_word(word, b"waits") {
        Some(Aim::Waits { name })
    } else {
        None
    }
}

fn thread_aim(word: &[u8], name: &[u8]) -> Option<Aim>
    ensures { result ≡ thread_aim word.now name.now }
{
    if name.len() <= MOST_NAME_BYTES {
        named_aim(word, short_name(name))
    } else {
        None
    }
}

fn bounded(most: Option<u64>) -> Option<u64>
    ensures { result ≡ bounded most }
{
    match most {
        Some(most) => {
            if 1 <= most && most <= 1_000_000_000 {
                Some(most)
            } else {
                None
            }
        }
        None => None,
    }
}

fn most_of(option: &[u8], most: &[u8]) -> Option<u64>
    ensures { result ≡ most_of option.now most.now }
{
    if is_word(option, b"--most") {
        bounded(number(most))
    } else {
        None
    }
}

fn search_of(aim: Option<Aim>, most: Option<u64>) -> Option<Request>
    ensures { result ≡ search_of aim most }
{
    let aim = aim?;
    let most = most?;
    Some(Request::Search { aim, most })
}

/// What the arguments ask for: `blocked`, `stuck`, `states`, or `ends NAME` or `waits NAME` with a name of at most 16 bytes, alone
/// or with `--most N` behind, or `--help`; None where they are of none of the forms.
#[tactic(auto, unfolding(crate::specs::Forms::request_of))]
pub fn request_of(arguments: &[String]) -> Option<Request>
    ensures { result ≡ request_of (map string_bytes arguments.now) }
{
    match arguments {
        [word] => {
            if is_word(word.as_bytes(), b"--help") {
                Some(Request::Help)
            } else {
                search_of(aim_of(word.as_bytes()), Some(MOST_STATES))
            }
        }
        [word, name] => search_of(
            thread_aim(word.as_bytes(), name.as_bytes()),
            Some(MOST_STATES),
        ),
        [word, option, most] => search_of(
            aim_of(word.as_bytes()),
            most_of(option.as_bytes(), most.as_bytes()),
        ),
        [word, name, option, most] => search_of(
            thread_aim(word.as_bytes(), name.as_bytes()),
            most_of(option.as_bytes(), most.as_bytes()),
        ),
        _ => None,
    }
}
