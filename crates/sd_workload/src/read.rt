//! Workload texts, read whole.

ghost use Rattle.std.specs.Prelude.{◌≡◌, ◌+◌, ◌*◌, ◌<◌, ◌≤◌, ◌^◌, ◌∷◌, None, Some, length, sum_by, IfOk, OnOk, IfErr};
ghost use Rattle.sd_text.specs.Words.{words_of};
ghost use Rattle.sd_declare.specs.Kept.{declarations};
ghost use Rattle.sd_workload.specs.Accepted.{Accepted, FirstCause};
ghost use Rattle.sd_workload.specs.LineStarts.{judged_from, lines_from, IsFault, IsFaultAt};
ghost use Rattle.sd_workload.specs.Tables.{IsBelow};
ghost use Rattle.sd_workload.specs.Texts.{Outside, Accepts, is_too_many, end_cause, judged, verdict_of};
ghost use Rattle.sd_types.specs.Limits.{most_threads};

use crate::WorkFault;
use crate::line_starts::{LineStart, line_at};
use crate::lines::take_line;
use crate::scripts::take_script;
use crate::tables::take_table;
use crate::works::work;
use sd_declare::{Declared, Opened, WorkCause};
use sd_types::{MOST_OPERATIONS_OF_ALL, MOST_PAIRS, MOST_TICKS, ThreadDecl, Work};
use std::alloc::{AllocError, Global};

// Takes a line outside blocks, which has this number, and the block that it opens, and gives the place below.
fn take_lines(
    alloc: Global,
    d: &mut Declared,
    bytes: &[u8],
    line: &[u8],
    number: u32,
    below: LineStart,
) -> Result<LineStart, WorkFault>
    requires text { length bytes.now < 2 ^ 31 }
    requires inside { 1 ≤ below.from }
    requires within { below.from ≤ length bytes.now + 1 }
    requires below { below.number ≡ number + 1 }
    requires numbered { below.number ≤ below.from + 1 }
    ensures ok { IfOk result (λ to. judged number (declarations d.old) Outside (words_of line.now ∷ lines_from bytes.now below)
        ≡ judged_from bytes.now to (declarations d.new) Outside) }
    ensures err { IfErr result (IsFault (judged number (declarations d.old) Outside (words_of line.now ∷ lines_from bytes.now below))) }
    ensures to { IfOk result (λ to. below.from ≤ to.from) }
    ensures to_within { IfOk result (λ to. to.from ≤ length bytes.now + 1) }
    ensures to_numbered { IfOk result (λ to. to.number ≤ to.from + 1) }
{
    match take_line(alloc, d, line, number)? {
        Opened::Nothing => Ok(below),
        Opened::Table(class) => {
            let to = take_table(alloc, d, class, bytes, below)?;
            Ok(to)
        }
        Opened::Script(thread) => {
            let to = take_script(alloc, d, thread, bytes, below)?;
            Ok(to)
        }
    }
}

// The number of operations in all scripts.
fn op_count(threads: &[ThreadDecl]) -> usize
    requires { length threads.now ≤ most_threads }
    ensures { result ≡ sum_by (λ t. length t.script.ops) threads.now }
{
    let mut count = 0;
    for thread in threads {
        count += thread.script.ops().len();
    }
    count
}

// Whether there are too many ticks, pairs of a thread and a lock, or operations.
fn is_too_many(d: &Declared) -> bool
    ensures { result ≡ is_too_many (declarations d.now) }
{
    let cpus = u64::from(d.cpus.unwrap_or(1));
    let limit = u64::from(d.limit.unwrap_or(0));
    MOST_TICKS < limit * cpus
        || MOST_PAIRS < d.threads.len() * d.locks.len()
        || MOST_OPERATIONS_OF_ALL < op_count(&d.threads)
}

// Judges the end of the input, on the line after the last, and gives the limit.
#[tactic(auto, unfolding(crate::specs::Texts::end_cause))]
fn check_end(d: &Declared, number: u32) -> Result<u32, WorkFault>
    ensures ok { OnOk result (end_cause (declarations d.now) Outside ≡ None) }
    ensures err { IfErr result (IsFaultAt number (end_cause (declarations d.now) Outside)) }
    ensures limit { IfOk result (λ limit. d.now.limit ≡ Some limit) }
{
    let Some(limit) = d.limit else {
        return Err(WorkFault::At {
            line: number,
            cause: WorkCause::Syntax,
        });
    };
    if is_too_many(d) {
        return Err(WorkFault::At {
            line: number,
            cause: WorkCause::Limits,
        });
    }
    Ok(limit)
}

// What a text declares, its limit, and the number of the line after the last.
fn declared(alloc: Global, bytes: &[u8]) -> Result<(Declared, u32, u32), WorkFault>
    requires { length bytes.now < 2 ^ 31 }
    ensures ok { IfOk result (λ found. verdict_of bytes.now ≡ Accepts (declarations found.0)) }
    ensures err { IfErr result (IsFault (verdict_of bytes.now)) }
    ensures end { IfOk result (λ found. end_cause (declarations found.0) Outside ≡ None) }
    ensures limit { IfOk result (λ found. found.0.limit ≡ Some found.1) }
{
    let mut d = Declared::new(alloc);
    let mut at = LineStart { from: 0, number: 1 };
    'lines: while let Some((line, below)) = line_at(bytes, at) {
        at = take_lines(alloc, &mut d, bytes, line, at.number, below)?;
    }
    let limit = check_end(&d, at.number)?;
    Ok((d, limit, at.number))
}

/// The workload that a text spells, or the first line at fault with the least of its causes. Where memory runs out at a line, none
/// above it is at fault, and the lines from it on are not judged.
pub fn read_work(alloc: Global, bytes: &[u8]) -> Result<Work, WorkFault>
    requires { length bytes.now < 2 ^ 31 }
    ensures ok { IfOk result (Accepted bytes.now) }
    ensures err { IfErr result (IsFault (verdict_of bytes.now)) }
{
    let (d, limit, end) = declared(alloc, bytes)?;
    match work(alloc, d, limit) {
        Ok(work) => Ok(work),
        Err(AllocError) => Err(WorkFault::Memory { line: end }),
    }
}
