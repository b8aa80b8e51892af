//! The top call: from the arguments and the streams to the exit status.

ghost use Rattle.std.specs.Prelude.{◌≡◌, map, string_bytes};
ghost use Rattle.sd_answers.specs.Answers.{answer_of, line_with, status_of};
ghost use Rattle.sd_answers.specs.Handing.{IsHandedOn, LeavesHeldBy};
ghost use Rattle.sd_answers.specs.StreamChanges.{TellsLine, change_of};
ghost use Rattle.sd_task_program.specs.Forms.{request_of};
ghost use Rattle.sd_task_program.specs.Promises.{CausedByHelp, CausedByRequest, ExpandsAsPromised, usage_line};
ghost use Rattle.sd_task_program.specs.Starts.{DisptaskStarts};

use crate::expanding::expand_input;
use crate::forms::{Request, request_of};
use sd_answers::{Answer, print_text};
use sd_text::{Sink, Source};
use std::alloc::Global;
use std::io;

const USAGE: &[u8] = b"usage: disptask [--map] [FILE] | --help\n";

const HELP: &[u8] = b"disptask reads a task set, and prints the workload to which it expands:
disptask [--map] [FILE] | dispsim run
FILE    the set; without it the standard input is read
--map   each line with the line of the set from which it comes, as a comment
--help  these lines
Exit status: 0 printed; 1 usage; 2 refused; 3 read fault; 4 write fault; 5 out of memory
";

/// Writes the forms.
fn put_help<K: Sink>(out: &mut K) -> Answer
    ensures caused { CausedByHelp (change_of (K.contents out.old) (K.contents out.new) (K.fault_count out.old) (K.fault_count out.new)) result }
    ensures leaves { LeavesHeldBy result (K.held_back out.old) (K.held_back out.new) }
{
    match print_text(out, HELP) {
        Ok(()) => Answer::Done,
        Err(_) => Answer::WriteFault,
    }
}

/// Does what the arguments ask for.
fn carry_out<S: Source, K: Sink>(
    alloc: Global,
    arguments: &[String],
    input: &mut S,
    out: &mut K,
) -> Answer
    ensures caused { CausedByRequest (request_of (map string_bytes arguments.now))
        (change_of (S.remaining input.old) (S.remaining input.new) (S.fault_count input.old) (S.fault_count input.new))
        (change_of (K.contents out.old) (K.contents out.new) (K.fault_count out.old) (K.fault_count out.new))
        result }
    ensures leaves { LeavesHeldBy result (K.held_back out.old) (K.held_back out.new) }
{
    match request_of(arguments) {
        Some(Request::Help) => put_help(out),
        Some(Request::Expand(is_mapped)) => {
            Answer::of(expand_input(alloc, is_mapped, input, out))
        }
        None => Answer::Usage,
    }
}

/// Writes the line of the answer, and returns the exit status. A fault of `err` changes none.
fn tell<E: Sink>(answer: Answer, err: &mut E) -> u8
    ensures told { TellsLine (change_of (E.contents err.old) (E.contents err.new) (E.fault_count err.old) (E.fault_count err.new)) (line_with usage_line answer) }
    ensures status { result ≡ status_of answer }
{
    let _ = answer.put_line_with(USAGE, err);
    answer.status()
}

/// Expands the task set that the input spells: the file that the arguments name, or the standard input. Returns the exit
/// status: 0 (`out` received the workload to which it expands, or the forms), 1 (the arguments are of none of the forms), 2
/// (the input is too large or no accepted set), 3 (a read failed), 4 (a write failed) or 5 (out of memory); each of these five
/// leaves a line on `err`. With status 0 `out` has handed on all that it holds. Nothing is written to `out` before the set was
/// accepted.
pub fn expand_set<S: Source, K: Sink, E: Sink>(
    alloc: Global,
    arguments: &[String],
    input: &mut S,
    out: &mut K,
    err: &mut E,
) -> u8
    ensures promises { ExpandsAsPromised (map string_bytes arguments.now)
        (change_of (S.remaining input.old) (S.remaining input.new) (S.fault_count input.old) (S.fault_count input.new))
        (change_of (K.contents out.old) (K.contents out.new) (K.fault_count out.old) (K.fault_count out.new))
        (change_of (E.contents err.old) (E.contents err.new) (E.fault_count err.old) (E.fault_count err.new))
        result }
    ensures handed_on { IsHandedOn result (K.held_back out.old) (K.held_back out.new) }
{
    tell(carry_out(alloc, arguments, input, out), err)
}

/// The program from its start: `expand_set` with the arguments that were read. Where one is no text they are none that the program
/// knows, and where memory ran out the answer is out of memory; then nothing is read or written but the line that says so.
pub fn start<S: Source, K: Sink, E: Sink>(
    alloc: Global,
    arguments: io::Result<Vec<String>>,
    input: &mut S,
    out: &mut K,
    err: &mut E,
) -> u8
    ensures promises { DisptaskStarts arguments
        (change_of (S.remaining input.old) (S.remaining input.new) (S.fault_count input.old) (S.fault_count input.new))
        (change_of (K.contents out.old) (K.contents out.new) (K.fault_count out.old) (K.fault_count out.new))
        (change_of (E.contents err.old) (E.contents err.new) (E.fault_count err.old) (E.fault_count err.new))
        result }
    ensures handed_on { IsHandedOn result (K.held_back out.old) (K.held_back out.new) }
{
    match arguments {
        Ok(arguments) => expand_set(alloc, &arguments, input, out, err),
        Err(error) => tell(Answer::of_unread_arguments(&error), err),
    }
}
