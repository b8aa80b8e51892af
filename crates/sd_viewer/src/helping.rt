//! The forms of the arguments, in a few lines.

ghost use Rattle.std.specs.Prelude.{◌≡◌};
ghost use Rattle.sd_answers.specs.Handing.{LeavesHeldBy};
ghost use Rattle.sd_answers.specs.StreamChanges.{change_of};
ghost use Rattle.sd_viewer.specs.Viewing.{CausedByViewHelp, answer_line, viewed_answer, viewed_line};

use sd_answers::{Answer, print_text};
use sd_text::Sink;
use std::alloc::Global;

const HELP: &[u8] =
    b"dispview reads a workload or a task set, the line journal, and a journal, and judges it:
(cat W; echo journal; dispsim run < W) | dispview FORM
timeline          the run as a picture (SVG)
timeline FROM TO  the ticks from FROM to TO of it
trace             the run for chrome://tracing and Perfetto (JSON)
list              each entry with a sentence on it
list FROM TO      those of the ticks from FROM to TO
list NAME         those that name the thread NAME
report            statistics of threads, tasks, locks and processors
report --csv      the same for a spreadsheet (CSV)
report --jobs     each job of each task
--help            these lines
";

/// Writes the forms. There is nothing more to say.
pub(crate) fn put_help<K: Sink>(alloc: Global, out: &mut K) -> Result<Vec<u8>, Answer>
    ensures caused { CausedByViewHelp (change_of (K.contents out.old) (K.contents out.new) (K.fault_count out.old) (K.fault_count out.new)) (viewed_answer result) }
    ensures leaves { LeavesHeldBy (viewed_answer result) (K.held_back out.old) (K.held_back out.new) }
    ensures line { viewed_line result ≡ answer_line (viewed_answer result) }
{
    match print_text(out, HELP) {
        Ok(()) => Ok(Vec::new(alloc)),
        Err(_) => Err(Answer::WriteFault),
    }
}
