//! The dispatch tables of a workload, and generated workloads, written.

ghost use Rattle.std.specs.Prelude.{◌≡◌, IsErrOf};
ghost use Rattle.sd_answers.specs.StreamChanges.{LeavesHeld, Puts};
ghost use Rattle.sd_answers.specs.declared.writing.Unwritten.TheVariants.{Memory};
ghost use Rattle.sd_canonical.specs.Blocks.{tables_text};
ghost use Rattle.sd_gen.specs.Generated.{generated};

use sd_answers::{Unwritten, print_text};
use sd_canonical::write_tables;
use sd_gen::generate;
use sd_text::Sink;
use sd_types::Work;
use std::alloc::Global;

/// Writes the tables of a workload and hands them on. Memory is taken before the first byte is written.
pub(crate) fn print_tables<K: Sink>(
    alloc: Global,
    work: &Work,
    out: &mut K,
) -> Result<(), Unwritten>
    ensures puts { Puts (K.contents out.old) (K.contents out.new) (K.fault_count out.old) (K.fault_count out.new) (tables_text work.now) result }
    ensures kept { IsErrOf result Memory → K.contents out.new ≡ K.contents out.old }
    ensures leaves { LeavesHeld (K.held_back out.old) (K.held_back out.new) result }
{
    let mut text = Vec::new(alloc);
    write_tables(alloc, work, &mut text)?;
    print_text(out, &text)
}

/// Writes the generated workload of a number and hands it on. Memory is taken before the first byte is written.
pub(crate) fn print_generated<K: Sink>(
    alloc: Global,
    number: u32,
    out: &mut K,
) -> Result<(), Unwritten>
    ensures puts { Puts (K.contents out.old) (K.contents out.new) (K.fault_count out.old) (K.fault_count out.new) (generated number) result }
    ensures kept { IsErrOf result Memory → K.contents out.new ≡ K.contents out.old }
    ensures leaves { LeavesHeld (K.held_back out.old) (K.held_back out.new) result }
{
    let mut text = Vec::new(alloc);
    generate(alloc, number, &mut text)?;
    print_text(out, &text)
}
