//! The search of the workload that an input spells, itself or as a task set.

ghost use Rattle.std.specs.Prelude.{◌≡◌, ◌≢◌, [], IsErrOf, IsOk};
ghost use Rattle.sd_text.specs.Lines.{EndsLine};
ghost use Rattle.sd_answers.specs.StreamChanges.{IsUntouched, LeavesHeld, Puts, change_of};
ghost use Rattle.sd_answers.specs.declared.writing.Unwritten.TheVariants.{Memory};
ghost use Rattle.sd_find.specs.Progress.{IsWatching, IsWatchingUnless};
ghost use Rattle.sd_find.specs.Seeking.{CausedBySearch, LeavesHeldAtEnd};

use sd_answers::{Answer, Unwritten, print_text};
use sd_search_answers::{Aim, Unwatched, Verdict, Watch, tell};
use sd_set_inputs::read_input;
use sd_text::{Sink, Source};
use std::alloc::Global;

/// Writes what is said, and hands it on; where that is nothing the output is left alone.
fn print_said<K: Sink>(out: &mut K, text: &[u8]) -> Result<(), Unwritten>
    requires { EndsLine text.now }
    ensures puts { Puts (K.contents out.old) (K.contents out.new) (K.fault_count out.old) (K.fault_count out.new) text.now result }
    ensures no_memory { IsErrOf result Memory → ⊥ }
    ensures leaves { text.now ≢ [] → LeavesHeld (K.held_back out.old) (K.held_back out.new) result }
    ensures alone { text.now ≡ [] → K.held_back out.new ≡ K.held_back out.old }
    ensures silent { text.now ≡ [] → IsOk result × IsUntouched (change_of (K.contents out.old) (K.contents out.new) (K.fault_count out.old) (K.fault_count out.new)) }
{
    if text.is_empty() {
        Ok(())
    } else {
        print_text(out, text)
    }
}

/// Reads a workload or a task set, searches it and writes what is said of it. Nothing is written before the search has ended.
pub(crate) fn seek<S: Source, K: Sink, W: Watch>(
    alloc: Global,
    aim: &Aim,
    most: u64,
    input: &mut S,
    out: &mut K,
    watch: &mut W,
) -> Result<Verdict, Answer>
    ensures caused { CausedBySearch aim.now most
        (change_of (S.remaining input.old) (S.remaining input.new) (S.fault_count input.old) (S.fault_count input.new))
        (change_of (K.contents out.old) (K.contents out.new) (K.fault_count out.old) (K.fault_count out.new))
        result }
    ensures leaves { LeavesHeldAtEnd result (K.held_back out.old) (K.held_back out.new) }
    ensures watched { IsWatching W.noted (change_of (S.remaining input.old) (S.remaining input.new) (S.fault_count input.old) (S.fault_count input.new)) watch.old watch.new }
{
    let work = read_input(alloc, input)?;
    let told = tell(alloc, &work, aim, most, watch)?;
    print_said(out, &told.text)?;
    Ok(told.verdict)
}

/// The same. `watch` is told how far the search has come, unless `quiet`.
pub(crate) fn seek_watched<S: Source, K: Sink, W: Watch>(
    alloc: Global,
    aim: &Aim,
    most: u64,
    quiet: bool,
    input: &mut S,
    out: &mut K,
    watch: &mut W,
) -> Result<Verdict, Answer>
    ensures caused { CausedBySearch aim.now most
        (change_of (S.remaining input.old) (S.remaining input.new) (S.fault_count input.old) (S.fault_count input.new))
        (change_of (K.contents out.old) (K.contents out.new) (K.fault_count out.old) (K.fault_count out.new))
        result }
    ensures leaves { LeavesHeldAtEnd result (K.held_back out.old) (K.held_back out.new) }
    ensures watched { IsWatchingUnless quiet W.noted (change_of (S.remaining input.old) (S.remaining input.new) (S.fault_count input.old) (S.fault_count input.new)) watch.old watch.new }
{
    if quiet {
        seek(alloc, aim, most, input, out, &mut Unwatched)
    } else {
        seek(alloc, aim, most, input, out, watch)
    }
}
