//! The text of an answer.

ghost use Rattle.std.specs.Prelude.{◌≡◌, ◌++◌, ◌≤◌, length, OnOk, IfOk};
ghost use Rattle.sd_search_answers.specs.Answered.{IsShort};
ghost use Rattle.sd_search_answers.specs.Texts.{all_line, count_text, entries_line, finding_text, found_text, left_text, more_text, never_text, states_line};
ghost use Rattle.sd_types.specs.Limits.{most_entries};

use crate::journals::{state_after, write_journal_with};
use crate::lefts::write_lefts;
use sd_search::{Finding, Question};
use sd_state::State;
use sd_text::put_number;
use sd_types::{Entry, Work};
use std::alloc::{AllocError, Global};

/// The line that says whether all states were searched.
fn all_line(all: bool) -> &'static [u8]
    ensures { result.now ≡ all_line all }
{
    if all {
        b"all searched\n"
    } else {
        b"not all searched\n"
    }
}

/// Appends the line with the number of states.
pub(crate) fn write_states(n: u64, out: &mut Vec<u8>) -> Result<(), AllocError>
    ensures { OnOk result (out.new.items ≡ out.old.items ++ states_line n) }
{
    out.extend_from_slice(b"states ")?;
    put_number(out, n)?;
    out.push(b'\n')?;
    Ok(())
}

/// Appends what the threads do in this state that have operations left, where that was asked for.
fn write_left(
    work: &Work,
    question: Question,
    state: &State,
    out: &mut Vec<u8>,
) -> Result<(), AllocError>
    ensures { OnOk result (out.new.items ≡ out.old.items ++ left_text work.now question state.now) }
{
    match question {
        Question::Blocked => Ok(()),
        Question::Stuck => write_lefts(work, state, out),
    }
}

/// Appends that a run was found, and its journal.
fn write_found(
    alloc: Global,
    work: &Work,
    question: Question,
    entries: &[Entry],
    n: u64,
    out: &mut Vec<u8>,
) -> Result<(), AllocError>
    ensures text { OnOk result (out.new.items ≡ out.old.items ++ found_text work.now question entries.now n) }
    ensures short { OnOk result (length entries.now ≤ most_entries) }
{
    let state = state_after(alloc, work, entries)?;
    out.extend_from_slice(b"found\n")?;
    write_left(work, question, &state, out)?;
    write_states(n, out)?;
    write_journal_with(alloc, work, entries, &state, out)
}

pub(crate) fn write_never(n: u64, out: &mut Vec<u8>) -> Result<(), AllocError>
    ensures { OnOk result (out.new.items ≡ out.old.items ++ never_text n) }
{
    out.extend_from_slice(b"never\n")?;
    write_states(n, out)
}

pub(crate) fn write_more(n: u64, out: &mut Vec<u8>) -> Result<(), AllocError>
    ensures { OnOk result (out.new.items ≡ out.old.items ++ more_text n) }
{
    out.extend_from_slice(b"not all searched\n")?;
    write_states(n, out)
}

/// Appends the answer after a search of so many states.
fn write_finding(
    alloc: Global,
    work: &Work,
    question: Question,
    finding: &Finding,
    n: u64,
    out: &mut Vec<u8>,
) -> Result<(), AllocError>
    ensures text { OnOk result (out.new.items ≡ out.old.items ++ finding_text work.now question finding.now n) }
    ensures short { OnOk result (IsShort finding.now) }
{
    match finding {
        Finding::Found { entries } => write_found(alloc, work, question, entries, n, out),
        Finding::Never => write_never(n, out),
        Finding::More => write_more(n, out),
    }
}

/// The text of an answer after a search of so many states.
pub(crate) fn text_of_finding(
    alloc: Global,
    work: &Work,
    question: Question,
    finding: &Finding,
    n: u64,
) -> Result<Vec<u8>, AllocError>
    ensures text { IfOk result (λ text. text.items ≡ finding_text work.now question finding.now n) }
    ensures short { OnOk result (IsShort finding.now) }
{
    let mut text = Vec::new(alloc);
    write_finding(alloc, work, question, finding, n, &mut text)?;
    Ok(text)
}

/// Appends the line with the number of entries that a run has at most, where it is known.
fn write_entries_at_most(most: Option<u32>, out: &mut Vec<u8>) -> Result<(), AllocError>
    ensures { OnOk result (out.new.items ≡ out.old.items ++ entries_line most) }
{
    match most {
        Some(most) => {
            out.extend_from_slice(b"entries at most ")?;
            put_number(out, u64::from(most))?;
            out.push(b'\n')?;
            Ok(())
        }
        None => Ok(()),
    }
}

/// The text that says how many states there are, in how many of them runs end, and how many entries a run has at most, where that
/// is known.
pub(crate) fn text_of_count(
    alloc: Global,
    all: bool,
    n: u64,
    finals: u64,
    most: Option<u32>,
) -> Result<Vec<u8>, AllocError>
    ensures { IfOk result (λ text. text.items ≡ count_text all n finals most) }
{
    let mut text = Vec::new(alloc);
    text.extend_from_slice(all_line(all))?;
    write_states(n, &mut text)?;
    text.extend_from_slice(b"final ")?;
    put_number(&mut text, finals)?;
    text.push(b'\n')?;
    write_entries_at_most(most, &mut text)?;
    Ok(text)
}
