//! The search for the line at which a text is cut.

ghost use Rattle.std.specs.Prelude.{◌≡◌, ◌≤◌, ◌↔◌, IfSome, IfNone, IsTrue, codes, drop, length, take};
ghost use Rattle.sd_answers.specs.Cuts.{HasNoJournal, IsCut};

use sd_text::next_line;

/// Where the two parts of a text stand, in bytes from 0: the workload ends before `workload_end`, and the journal begins
/// at `journal_start`.
#[derive(Clone, Copy, Debug, PartialEq, Eq)]
pub struct Cut {
    pub workload_end: usize,
    pub journal_start: usize,
}

fn is_journal(line: &[u8]) -> bool
    ensures { IsTrue result ↔ (line.now ≡ codes "journal") }
{
    line == b"journal".as_slice()
}

/// The parts before and behind the first line whose bytes are exactly `journal`, None where no line is. The line may lack
/// its newline at the end of the text.
pub fn find_cut(text: &[u8]) -> Option<Cut>
    ensures cut { IfSome result (λ at. IsCut text.now (take at.workload_end text.now) (drop at.journal_start text.now)) }
    ensures within { IfSome result (λ at. (at.workload_end ≤ length text.now) × (at.journal_start ≤ length text.now)) }
    ensures none { IfNone result (HasNoJournal text.now) }
{
    let mut from = 0;
    'lines: while let Some((start, end)) = next_line(text, from) {
        if is_journal(&text[start..end]) {
            return Some(Cut {
                workload_end: from,
                journal_start: (end + 1).min(text.len()),
            });
        }
        from = end + 1;
    }
    None
}
