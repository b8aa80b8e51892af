//! The forms of the arguments of `dispview`.

ghost use Rattle.std.specs.Prelude.{◌≡◌, map, string_bytes, codes, Some, if◌then◌else◌};
ghost use Rattle.sd_types.specs.Works.{same_bytes};
ghost use Rattle.sd_viewer.specs.declared.forms.Request.TheVariants.{Help};
ghost use Rattle.sd_viewer.specs.Forms.{drawing_of, named_by, part_by, request_by, request_of, ticks_between, ticks_by, verb_drawing};

use crate::drawings::Drawing;
use sd_story::Selection;
use sd_stretches::short_name;
use sd_text::number;
use sd_types::{GREATEST_LIMIT, MOST_NAME_BYTES};

/// What is asked for: a drawing, or the forms of the arguments.
#[derive(Drop)]
pub enum Request {
    Help,
    Draw(Drawing),
}

fn is_word(text: &[u8], word: &[u8]) -> bool
    ensures { result ≡ same_bytes text.now word.now }
{
    text == word
}

fn verb_drawing(verb: &[u8]) -> Option<Drawing>
    ensures { result ≡ verb_drawing verb.now }
{
    if is_word(verb, b"timeline") {
        Some(Drawing::Timeline {
            from: 0,
            to: GREATEST_LIMIT,
        })
    } else if is_word(verb, b"trace") {
        Some(Drawing::Trace)
    } else if is_word(verb, b"list") {
        Some(Drawing::Story(Selection::Ticks {
            from: 0,
            to: GREATEST_LIMIT,
        }))
    } else if is_word(verb, b"report") {
        Some(Drawing::Report)
    } else {
        None
    }
}

fn ticks_between(from: u64, to: Option<u64>) -> Option<(u32, u32)>
    ensures { result ≡ ticks_between from to }
{
    match to {
        Some(to) => {
            if from < to && to <= u64::from(GREATEST_LIMIT) {
                Some((from as u32, to as u32))
            } else {
                None
            }
        }
        None => None,
    }
}

fn ticks_by(from: Option<u64>, to: &[u8]) -> Option<(u32, u32)>
    ensures { result ≡ ticks_by from to.now }
{
    match from {
        Some(from) => ticks_between(from, number(to)),
        None => None,
    }
}

fn part_by(verb: &[u8], ticks: Option<(u32, u32)>) -> Option<Drawing>
    ensures { result ≡ part_by verb.now ticks }
{
    let (from, to) = ticks?;
    if is_word(verb, b"timeline") {
        Some(Drawing::Timeline { from, to })
    } else if is_word(verb, b"list") {
        Some(Drawing::Story(Selection::Ticks { from, to }))
    } else {
        None
    }
}

fn named_by(verb: &[u8], name: &[u8]) -> Option<Drawing>
    ensures { result ≡ named_by verb.now name.now }
{
    if is_word(verb, b"list") && name.len() <= MOST_NAME_BYTES {
        Some(Drawing::Story(Selection::Thread {
            name: short_name(name),
        }))
    } else if is_word(verb, b"report") && is_word(name, b"--csv") {
        Some(Drawing::Sheet)
    } else if is_word(verb, b"report") && is_word(name, b"--jobs") {
        Some(Drawing::Jobs)
    } else {
        None
    }
}

/// The drawing that the arguments ask for: `timeline`, `trace`, `list`, `report`, `report --csv`, `report --jobs`, `list NAME` with a name of at most 16
/// bytes, or `timeline FROM TO`, `list FROM TO` with FROM below TO and TO at most 100,000; None where they are of none of the forms.
#[tactic(auto, unfolding(crate::specs::Forms::drawing_of))]
fn drawing_of(arguments: &[String]) -> Option<Drawing>
    ensures { result ≡ drawing_of (map string_bytes arguments.now) }
{
    match arguments {
        [verb] => verb_drawing(verb.as_bytes()),
        [verb, name] => named_by(verb.as_bytes(), name.as_bytes()),
        [verb, from, to] => part_by(
            verb.as_bytes(),
            ticks_by(number(from.as_bytes()), to.as_bytes()),
        ),
        _ => None,
    }
}

fn request_by(drawing: Option<Drawing>) -> Option<Request>
    ensures { result ≡ request_by drawing }
{
    match drawing {
        Some(drawing) => Some(Request::Draw(drawing)),
        None => None,
    }
}

fn verb_request(verb: &[u8]) -> Option<Request>
    ensures { result ≡ (if same_bytes verb.now (codes "--help") then Some Help else request_by (verb_drawing verb.now)) }
{
    if is_word(verb, b"--help") {
        Some(Request::Help)
    } else {
        request_by(verb_drawing(verb))
    }
}

/// What the arguments ask for: `--help`, or a drawing; None where they are of none of the forms.
#[tactic(auto, unfolding(crate::specs::Forms::request_of))]
pub(crate) fn request_of(arguments: &[String]) -> Option<Request>
    ensures { result ≡ request_of (map string_bytes arguments.now) }
{
    match arguments {
        [verb] => verb_request(verb.as_bytes()),
        _ => request_by(drawing_of(arguments)),
    }
}
