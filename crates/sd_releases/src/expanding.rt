//! Task sets, expanded.

ghost use Rattle.std.specs.Prelude.{◌≡◌, ◌<◌, ◌^◌, ◌-◌, length, IfOk, IfErr, option_map, slice_get};
ghost use Rattle.sd_workload.specs.Texts.{verdict_of};
ghost use Rattle.sd_tasks.specs.Kept.{reading_kept};
ghost use Rattle.sd_tasks.specs.SetTasks.{declared_tasks, set_tasks};
ghost use Rattle.sd_tasks.specs.SetTasksKept.{tasks_kept};
ghost use Rattle.sd_tasks.specs.Written.{text_of};
ghost use Rattle.sd_tasks.specs.WrittenKept.{lines_kept};
ghost use Rattle.sd_releases.specs.declared.expanding.SetFault.TheVariants.{Memory};
ghost use Rattle.sd_releases.specs.Verdicts.{IsExpansion, IsSetFault, end_verdict, is_own, is_less, judged_fault, own_verdict, set_verdict};

use crate::tails::put_tail;
use sd_tasks::{Reader, SetReading, SetTask, WrittenLine, lines_text, read_set, set_tasks};
use sd_types::MOST_WORKLOAD_BYTES;
use sd_workload::{WorkCause, WorkFault, read_work};
use std::alloc::{AllocError, Global};
use thiserror::Error;

/// The most bytes of a judged workload.
const MOST_JUDGED_BYTES: usize = 0x7fff_ffff;

/// The workload to which a task set expands: its lines, each with the line of the set from which it comes, and its text. What
/// stands behind the lines of the set comes from the line after the last, but for scripts that the set does not give. The tasks of
/// the set stand in the order of declaration.
#[derive(Drop)]
pub struct Expansion {
    pub lines: Vec<WrittenLine>,
    pub text: Vec<u8>,
    pub tasks: Vec<SetTask>,
}

/// Why a text is not read as a task set.
#[derive(Clone, Copy, Debug, PartialEq, Eq, Error)]
pub enum SetFault {
    /// The first line at fault, from 1, and the least of its causes.
    #[error("line {line}: {cause}")]
    At { line: u32, cause: WorkCause },
    #[error("out of memory")]
    Memory,
}

impl From<AllocError> for SetFault {
    ghost from_gives = { λ _ e. e ≡ Memory };

    fn from(_error: AllocError) -> SetFault {
        SetFault::Memory
    }
}

/// A cause of the line with this number, from 1, told at the line from which that comes, if there is such a line.
fn at_line(lines: &[WrittenLine], number: u32, cause: WorkCause) -> Option<(u32, WorkCause)>
    ensures { result ≡ option_map (λ w. (w.line, cause)) (slice_get (lines_kept lines.now) (number - 1)) }
{
    let place = number.saturating_sub(1) as usize;
    match lines.get(place) {
        Some(line) => Some((line.line, cause)),
        None => None,
    }
}

/// The first line at fault of the judged workload, told at the line from which it comes. A workload of 2^31 bytes is not judged.
fn judged_fault(alloc: Global, lines: &[WrittenLine]) -> Result<Option<(u32, WorkCause)>, SetFault>
    ensures ok { IfOk result (λ fault. fault ≡ judged_fault (lines_kept lines.now) (verdict_of (text_of (lines_kept lines.now)))) }
    ensures err { IfErr result (λ fault. fault ≡ SetFault.Memory) }
{
    let text = lines_text(alloc, lines)?;
    if MOST_JUDGED_BYTES < text.len() {
        return Err(SetFault::Memory);
    }
    match read_work(alloc, &text) {
        Ok(_work) => Ok(None),
        Err(WorkFault::At { line, cause }) => Ok(at_line(lines, line, cause)),
        Err(WorkFault::Memory { line: _ }) => Err(SetFault::Memory),
    }
}

/// The expansion to these lines, where the end of the set has this number, and the set these tasks.
fn ended(
    alloc: Global,
    lines: Vec<WrittenLine>,
    tasks: Vec<SetTask>,
    number: u32,
) -> Result<Expansion, SetFault>
    ensures ok { IfOk result (IsExpansion (end_verdict (lines_kept lines.items) number)) }
    ensures err { IfErr result (IsSetFault (end_verdict (lines_kept lines.items) number)) }
    ensures tasks { IfOk result (λ e. tasks_kept e.tasks.items ≡ tasks_kept tasks.items) }
{
    let text = lines_text(alloc, &lines)?;
    if MOST_WORKLOAD_BYTES < text.len() {
        return Err(SetFault::At {
            line: number,
            cause: WorkCause::Limits,
        });
    }
    match read_work(alloc, &text) {
        Ok(_work) => Ok(Expansion { lines, text, tasks }),
        Err(WorkFault::At { line: _, cause: _ }) => Err(SetFault::At {
            line: number,
            cause: WorkCause::Limits,
        }),
        Err(WorkFault::Memory { line: _ }) => Err(SetFault::Memory),
    }
}

/// The expansion of a set, or why it is at fault by its own rules, or at its end.
fn own_expansion(alloc: Global, reading: SetReading) -> Result<Expansion, SetFault>
    ensures ok { IfOk result (IsExpansion (own_verdict (reading_kept reading) reading.cause)) }
    ensures err { IfErr result (IsSetFault (own_verdict (reading_kept reading) reading.cause)) }
    ensures tasks { IfOk result (λ e. tasks_kept e.tasks.items ≡ set_tasks (reading_kept reading).seen.above) }
{
    let SetReading {
        seen,
        number,
        cause,
    } = reading;
    if let Some(cause) = cause {
        return Err(SetFault::At {
            line: number,
            cause,
        });
    }
    let Reader {
        facts,
        judged: _,
        mut written,
        block: _,
        repeats: _,
    } = seen;
    let tasks = set_tasks(alloc, &facts)?;
    put_tail(alloc, &mut written, &facts, number)?;
    ended(alloc, written, tasks, number)
}

fn is_less(own: Option<WorkCause>, cause: WorkCause) -> bool
    ensures { result ≡ is_less own cause }
{
    match own {
        Some(own) => own.number() < cause.number(),
        None => false,
    }
}

/// Whether a line is at fault by a cause of a lesser number, by the set's own rules.
fn is_own(reading: &SetReading, line: u32, cause: WorkCause) -> bool
    ensures { result ≡ is_own (reading_kept reading.now) (line, cause) }
{
    reading.number == line && is_less(reading.cause, cause)
}

/// The workload to which a task set expands, or the first line at fault with the least of its causes.
#[tactic(auto, unfolding(crate::specs::Verdicts::set_verdict))]
pub fn expand(alloc: Global, bytes: &[u8]) -> Result<Expansion, SetFault>
    requires { length bytes.now < 2 ^ 31 }
    ensures ok { IfOk result (IsExpansion (set_verdict bytes.now)) }
    ensures err { IfErr result (IsSetFault (set_verdict bytes.now)) }
    ensures tasks { IfOk result (λ e. tasks_kept e.tasks.items ≡ declared_tasks bytes.now) }
{
    let reading = read_set(alloc, bytes)?;
    if let Some((line, cause)) = judged_fault(alloc, &reading.seen.judged)? {
        if !is_own(&reading, line, cause) {
            return Err(SetFault::At { line, cause });
        }
    }
    own_expansion(alloc, reading)
}
