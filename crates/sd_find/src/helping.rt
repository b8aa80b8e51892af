//! The forms of the arguments, in a few lines.

ghost use Rattle.sd_answers.specs.StreamChanges.{change_of};
ghost use Rattle.sd_find.specs.Seeking.{CausedByFindHelp, LeavesHeldAtEnd};

use sd_answers::{Answer, print_text};
use sd_search_answers::Verdict;
use sd_text::Sink;

const HELP: &[u8] =
    b"dispfind reads a workload or a task set, and searches every order in which its processors can act:
dispfind FORM [--most N] [--quiet] < W
blocked    a run at whose end threads block each other in a circle
stuck      a run at whose end a thread that has operations left has not ended
states     how many states there are, and in how many of them runs end
ends NAME  at which tick thread NAME ends at the earliest and at the latest
waits NAME how many ticks thread NAME waits at most from a wakeup to its running
--most N   ends with N states; 1000000 where it is not given
--quiet    no lines of progress on the error output of a terminal
--help     these lines
Exit status: 9 found, its journal behind the line states; 10 never; 11 not all searched
(cat W; echo journal; dispfind FORM < W | sed '1,/^states /d') | dispsim audit
Of ends two journals stand behind the lines earliest and latest
";

/// Writes the forms.
pub(crate) fn put_help<K: Sink>(out: &mut K) -> Result<Verdict, Answer>
    ensures caused { CausedByFindHelp (change_of (K.contents out.old) (K.contents out.new) (K.fault_count out.old) (K.fault_count out.new)) result }
    ensures leaves { LeavesHeldAtEnd result (K.held_back out.old) (K.held_back out.new) }
{
    match print_text(out, HELP) {
        Ok(()) => Ok(Verdict::Done),
        Err(_) => Err(Answer::WriteFault),
    }
}
