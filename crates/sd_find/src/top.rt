//! The top call: from the arguments and the streams to the exit status.

ghost use Rattle.std.specs.Prelude.{◌≡◌, map, string_bytes, IsErrOf};
ghost use Rattle.sd_answers.specs.Handing.{IsHandedOn};
ghost use Rattle.sd_answers.specs.StreamChanges.{Puts, TellsLine, change_of};
ghost use Rattle.sd_answers.specs.declared.writing.Unwritten.TheVariants.{Memory};
ghost use Rattle.sd_find.specs.Asked.{asked, is_quiet};
ghost use Rattle.sd_find.specs.Progress.{IsWatchingUnless, Shows, ShowsProgress};
ghost use Rattle.sd_find.specs.Promises.{SearchesAsPromised};
ghost use Rattle.sd_find.specs.Seeking.{ended_line, ended_status, verdict_line, verdict_status};
ghost use Rattle.sd_find.specs.Starts.{DispfindStarts};

use crate::helping::put_help;
use crate::progress::Progress;
use crate::quiet::{asked, is_quiet};
use crate::seeking::seek_watched;
use sd_answers::{Answer, Unwritten, put_line};
use sd_search_answers::{Request, Verdict, request_of};
use sd_text::{Sink, Source};
use std::alloc::Global;
use std::io;

const USAGE: &[u8] =
    b"usage: dispfind (blocked | stuck | states | ends NAME | waits NAME) [--most N] [--quiet] | --help\n";

fn verdict_status(verdict: Verdict) -> u8
    ensures { result ≡ verdict_status verdict }
{
    match verdict {
        Verdict::Done => 0,
        Verdict::Found => 9,
        Verdict::Never => 10,
        Verdict::More => 11,
        Verdict::NoThread => 2,
    }
}

/// Writes the line of a verdict: what was said has none.
fn put_verdict<E: Sink>(verdict: Verdict, err: &mut E) -> Result<(), Unwritten>
    ensures puts { Puts (E.contents err.old) (E.contents err.new) (E.fault_count err.old) (E.fault_count err.new) (verdict_line verdict) result }
    ensures no_memory { IsErrOf result Memory → ⊥ }
{
    match verdict {
        Verdict::NoThread => put_line(err, b"refused: no thread has this name\n"),
        _ => Ok(()),
    }
}

/// Writes the line of an answer or a verdict, and returns the exit status. A fault of `err` changes none.
fn report<E: Sink>(ended: Result<Verdict, Answer>, err: &mut E) -> u8
    ensures status { result ≡ ended_status ended }
    ensures told { TellsLine (change_of (E.contents err.old) (E.contents err.new) (E.fault_count err.old) (E.fault_count err.new)) (ended_line ended) }
{
    match ended {
        Ok(verdict) => {
            let _ = put_verdict(verdict, err);
            verdict_status(verdict)
        }
        Err(answer) => {
            let _ = answer.put_line_with(USAGE, err);
            answer.status()
        }
    }
}

/// Searches the workload that the input spells for what the arguments ask, and returns the exit status. 9: a run ends as was asked for,
/// and `out` received its journal behind the line with the number of states; or the thread that is named ends, and `out` received
/// at which ticks at the earliest and at the latest, each with the journal of a run; or it runs after a wakeup, and `out` received
/// how many ticks behind it at most, with the journal of a run. 10: no run does in which each processor reads
/// the numbers of the state, in whatever order the processors act. 0: the states were counted, all of them, or the forms were
/// written. 11: there are so many states that not all were searched, and no more is said. The others are 1 (the arguments are of
/// none of the forms), 2 (the input is too large, no accepted workload, or has no thread of the name), 3 (a read failed), 4 (a
/// write failed) and 5 (out of memory); each of these five leaves a line on `err`. With 0, 9, 10 and 11 `out` has handed on all that it
/// holds. Nothing is written to `out` before the search
/// has ended. Meanwhile `progress` shows how far it has come, by a line behind each 50,000 states that were expanded without an end,
/// unless the last argument is `--quiet`, which is no part of the forms.
pub fn find<S: Source, K: Sink, E: Sink, P: Sink>(
    alloc: Global,
    arguments: &[String],
    input: &mut S,
    out: &mut K,
    err: &mut E,
    progress: &mut Progress<P>,
) -> u8
    ensures promises { SearchesAsPromised (asked (map string_bytes arguments.now))
        (change_of (S.remaining input.old) (S.remaining input.new) (S.fault_count input.old) (S.fault_count input.new))
        (change_of (K.contents out.old) (K.contents out.new) (K.fault_count out.old) (K.fault_count out.new))
        (change_of (E.contents err.old) (E.contents err.new) (E.fault_count err.old) (E.fault_count err.new))
        result }
    ensures handed_on { IsHandedOn result (K.held_back out.old) (K.held_back out.new) }
    ensures progress { IsWatchingUnless (is_quiet (map string_bytes arguments.now)) (Shows P.contents P.fault_count)
        (change_of (S.remaining input.old) (S.remaining input.new) (S.fault_count input.old) (S.fault_count input.new))
        progress.old progress.new }
{
    match request_of(asked(arguments)) {
        Some(Request::Help) => report(put_help(out), err),
        Some(Request::Search { aim, most }) => {
            let quiet = is_quiet(arguments);
            let ended = seek_watched(alloc, &aim, most, quiet, input, out, progress);
            report(ended, err)
        }
        None => report(Err(Answer::Usage), err),
    }
}

/// The program from its start: `find` with the arguments that were read. Where one is no text they are none that the program
/// knows, and where memory ran out the answer is out of memory; then nothing is read or written but the line that says so.
pub fn start<S: Source, K: Sink, E: Sink, P: Sink>(
    alloc: Global,
    arguments: io::Result<Vec<String>>,
    input: &mut S,
    out: &mut K,
    err: &mut E,
    progress: &mut Progress<P>,
) -> u8
    ensures promises { DispfindStarts arguments
        (change_of (S.remaining input.old) (S.remaining input.new) (S.fault_count input.old) (S.fault_count input.new))
        (change_of (K.contents out.old) (K.contents out.new) (K.fault_count out.old) (K.fault_count out.new))
        (change_of (E.contents err.old) (E.contents err.new) (E.fault_count err.old) (E.fault_count err.new))
        result }
    ensures handed_on { IsHandedOn result (K.held_back out.old) (K.held_back out.new) }
    ensures progress { ShowsProgress P.contents P.fault_count arguments
        (change_of (S.remaining input.old) (S.remaining input.new) (S.fault_count input.old) (S.fault_count input.new))
        progress.old progress.new }
{
    match arguments {
        Ok(arguments) => find(alloc, &arguments, input, out, err, progress),
        Err(error) => report(Err(Answer::of_unread_arguments(&error)), err),
    }
}
