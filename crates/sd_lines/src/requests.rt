//! The requests of priocntl(2) in a script.

ghost use Rattle.std.specs.Prelude.{◌≡◌};
ghost use Rattle.sd_types.specs.Works.{same_bytes};
ghost use Rattle.sd_text.specs.Words.{words_of};
ghost use Rattle.sd_lines.specs.Operations.{ts_request, fx_request, sys_request, rt_request, request_of};

use crate::names::is_word;
use crate::operations::RequestLine;
use crate::words::{first_signed, first_word, only_quantum, only_signed};

// `LIMIT PRI`.
#[tactic(auto, unfolding(crate::specs::Operations::ts_request))]
fn ts_request(rest: &[u8]) -> Option<RequestLine>
    ensures { result ≡ ts_request (words_of rest.now) }
{
    let (limit, left) = first_signed(rest)?;
    let pri = only_signed(left)?;
    Some(RequestLine::Ts { limit, pri })
}

// `LIMIT PRI Q`.
#[tactic(auto, unfolding(crate::specs::Operations::fx_request))]
fn fx_request(rest: &[u8]) -> Option<RequestLine>
    ensures { result ≡ fx_request (words_of rest.now) }
{
    let (limit, left) = first_signed(rest)?;
    let (pri, left) = first_signed(left)?;
    let quantum = only_quantum(left)?;
    Some(RequestLine::Fx {
        limit,
        pri,
        quantum,
    })
}

// `PRI`.
#[tactic(auto, unfolding(crate::specs::Operations::sys_request))]
fn sys_request(rest: &[u8]) -> Option<RequestLine>
    ensures { result ≡ sys_request (words_of rest.now) }
{
    let pri = only_signed(rest)?;
    Some(RequestLine::Sys { pri })
}

// `PRI Q`.
#[tactic(auto, unfolding(crate::specs::Operations::rt_request))]
fn rt_request(rest: &[u8]) -> Option<RequestLine>
    ensures { result ≡ rt_request (words_of rest.now) }
{
    let (pri, left) = first_signed(rest)?;
    let quantum = only_quantum(left)?;
    Some(RequestLine::Rt { pri, quantum })
}

/// The class that is asked for, and its numbers.
#[tactic(auto, unfolding(crate::specs::Operations::request_of))]
pub fn request_of(rest: &[u8]) -> Option<RequestLine>
    ensures { result ≡ request_of (words_of rest.now) }
{
    let (word, left) = first_word(rest)?;
    if is_word(word, b"ts") {
        ts_request(left)
    } else if is_word(word, b"fx") {
        fx_request(left)
    } else if is_word(word, b"sys") {
        sys_request(left)
    } else if is_word(word, b"rt") {
        rt_request(left)
    } else {
        None
    }
}
