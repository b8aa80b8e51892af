//! The expansion of the set that an input spells.

ghost use Rattle.std.specs.Prelude.{◌≡◌, IsErrOf};
ghost use Rattle.sd_tasks.specs.WrittenKept.{lines_kept};
ghost use Rattle.sd_answers.specs.Answers.{answer_of};
ghost use Rattle.sd_answers.specs.Handing.{LeavesHeldBy};
ghost use Rattle.sd_answers.specs.StreamChanges.{LeavesHeld, Puts, change_of};
ghost use Rattle.sd_answers.specs.declared.writing.Unwritten.TheVariants.{Memory};
ghost use Rattle.sd_task_program.specs.Printed.{printed};
ghost use Rattle.sd_task_program.specs.Promises.{CausedBySet, IsExpanded};

use crate::printing::printed;
use sd_answers::{Answer, Unwritten, print_text};
use sd_releases::{Expansion, expand};
use sd_set_inputs::fault_answer;
use sd_tasks::WrittenLine;
use sd_text::{Sink, Source, read_all};
use std::alloc::Global;

/// The expansion of the set that the input spells, or why there is none.
fn read_expansion<S: Source>(alloc: Global, input: &mut S) -> Result<Expansion, Answer>
    ensures { IsExpanded (change_of (S.remaining input.old) (S.remaining input.new) (S.fault_count input.old) (S.fault_count input.new)) result }
{
    let bytes = read_all(alloc, input)?;
    match expand(alloc, &bytes) {
        Ok(expansion) => Ok(expansion),
        Err(fault) => Err(fault_answer(fault)),
    }
}

/// Writes lines and hands them on. Memory is taken before the first byte is written.
fn print_lines<K: Sink>(
    alloc: Global,
    is_mapped: bool,
    lines: &[WrittenLine],
    out: &mut K,
) -> Result<(), Unwritten>
    ensures puts { Puts (K.contents out.old) (K.contents out.new) (K.fault_count out.old) (K.fault_count out.new) (printed is_mapped (lines_kept lines.now)) result }
    ensures kept { IsErrOf result Memory → K.contents out.new ≡ K.contents out.old }
    ensures leaves { LeavesHeld (K.held_back out.old) (K.held_back out.new) result }
{
    let text = printed(alloc, is_mapped, lines)?;
    print_text(out, &text)
}

/// Reads a set, and writes the lines to which it expands.
pub(crate) fn expand_input<S: Source, K: Sink>(
    alloc: Global,
    is_mapped: bool,
    input: &mut S,
    out: &mut K,
) -> Result<(), Answer>
    ensures caused { CausedBySet is_mapped
        (change_of (S.remaining input.old) (S.remaining input.new) (S.fault_count input.old) (S.fault_count input.new))
        (change_of (K.contents out.old) (K.contents out.new) (K.fault_count out.old) (K.fault_count out.new))
        (answer_of result) }
    ensures leaves { LeavesHeldBy (answer_of result) (K.held_back out.old) (K.held_back out.new) }
{
    let expansion = read_expansion(alloc, input)?;
    print_lines(alloc, is_mapped, &expansion.lines, out)?;
    Ok(())
}
