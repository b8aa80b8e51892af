//! The top call: from the arguments and the streams to the exit status.

ghost use Rattle.std.specs.Prelude.{◌≡◌, map, string_bytes, IfOk};
ghost use Rattle.sd_answers.specs.Answers.{status_of};
ghost use Rattle.sd_answers.specs.Handing.{IsHandedOn};
ghost use Rattle.sd_answers.specs.StreamChanges.{TellsLine, change_of};
ghost use Rattle.sd_text.specs.Lines.{EndsLine};
ghost use Rattle.sd_viewer.specs.Promises.{ShowsAsPromised};
ghost use Rattle.sd_viewer.specs.Starts.{DispviewStarts};
ghost use Rattle.sd_viewer.specs.Viewing.{viewed_answer, viewed_line};

use crate::forms::{Request, request_of};
use crate::helping::put_help;
use crate::viewing::view_input;
use sd_answers::{Answer, put_text};
use sd_text::{Sink, Source};
use std::alloc::Global;
use std::io;

const USAGE: &[u8] =
    b"usage: dispview timeline [FROM TO] | trace | list [FROM TO] | list NAME | report [--csv | --jobs] | --help\n";

/// Writes the line of the answer, or what is said of a drawing, and returns the exit status. A fault of `err` changes none.
fn tell<E: Sink>(viewed: Result<Vec<u8>, Answer>, err: &mut E) -> u8
    requires { IfOk viewed (λ lines. EndsLine lines.items) }
    ensures status { result ≡ status_of (viewed_answer viewed) }
    ensures told { TellsLine (change_of (E.contents err.old) (E.contents err.new) (E.fault_count err.old) (E.fault_count err.new)) (viewed_line viewed) }
{
    match viewed {
        Ok(lines) => {
            let _ = put_text(err, &lines);
            0
        }
        Err(answer) => {
            let _ = answer.put_line_with(USAGE, err);
            answer.status()
        }
    }
}

/// Draws what the arguments ask for, and returns the exit status: 0 (the drawing of the complete legal run whose journal the
/// input holds behind its workload was written), 1 (the arguments are of none of the forms), 2 (the input is too large, holds no
/// journal or no accepted workload), 3 (a read failed), 4 (a write failed), 5 (out of memory) or 7 (the journal is not that of
/// a complete run). Nothing is written to `out` before the journal was judged. Each status but 0 leaves a line on `err`, and 0
/// does exactly where ticks that were asked for or threads of the workload are left out, or the run does not have what was asked
/// for. `--help` reads nothing, and writes the forms. With status 0 `out` has handed on all that it holds.
pub fn view<S: Source, K: Sink, E: Sink>(
    alloc: Global,
    arguments: &[String],
    input: &mut S,
    out: &mut K,
    err: &mut E,
) -> u8
    ensures promises { ShowsAsPromised (map string_bytes arguments.now)
        (change_of (S.remaining input.old) (S.remaining input.new) (S.fault_count input.old) (S.fault_count input.new))
        (change_of (K.contents out.old) (K.contents out.new) (K.fault_count out.old) (K.fault_count out.new))
        (change_of (E.contents err.old) (E.contents err.new) (E.fault_count err.old) (E.fault_count err.new))
        result }
    ensures handed_on { IsHandedOn result (K.held_back out.old) (K.held_back out.new) }
{
    match request_of(arguments) {
        Some(Request::Help) => tell(put_help(alloc, out), err),
        Some(Request::Draw(drawing)) => tell(view_input(alloc, &drawing, input, out), err),
        None => tell(Err(Answer::Usage), err),
    }
}

/// The program from its start: `view` with the arguments that were read. Where one is no text they are none that the program
/// knows, and where memory ran out the answer is out of memory; then nothing is read or written but the line that says so.
pub fn start<S: Source, K: Sink, E: Sink>(
    alloc: Global,
    arguments: io::Result<Vec<String>>,
    input: &mut S,
    out: &mut K,
    err: &mut E,
) -> u8
    ensures promises { DispviewStarts arguments
        (change_of (S.remaining input.old) (S.remaining input.new) (S.fault_count input.old) (S.fault_count input.new))
        (change_of (K.contents out.old) (K.contents out.new) (K.fault_count out.old) (K.fault_count out.new))
        (change_of (E.contents err.old) (E.contents err.new) (E.fault_count err.old) (E.fault_count err.new))
        result }
    ensures handed_on { IsHandedOn result (K.held_back out.old) (K.held_back out.new) }
{
    match arguments {
        Ok(arguments) => view(alloc, &arguments, input, out, err),
        Err(error) => tell(Err(Answer::of_unread_arguments(&error)), err),
    }
}
