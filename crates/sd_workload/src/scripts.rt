//! The blocks of scripts.

ghost use Rattle.std.specs.Prelude.{◌≡◌, [], None, Some, ◌++◌, ◌∷◌, ◌+◌, ◌<◌, ◌≤◌, ◌^◌, false, length, OnOk, IfOk, IfErr, option_map};
ghost use Rattle.sd_types.specs.Scripts.{held_by, EachOpFits};
ghost use Rattle.sd_types.specs.Limits.{most_operations};
ghost use Rattle.sd_script.specs.Faults.{is_ninth};
ghost use Rattle.sd_text.specs.Words.{words_of};
ghost use Rattle.sd_declare.specs.declared.causes.WorkCause.TheVariants.{Script as Scripted};
ghost use Rattle.sd_declare.specs.Kept.{declarations, IsRefusal};
ghost use Rattle.sd_declare.specs.Operations.{ops_of_op};
ghost use Rattle.sd_workload.specs.LineStarts.{judged_from, IsFault, IsFaultAt};
ghost use Rattle.sd_workload.specs.Scripts.{fault_behind, ops_fault, end_fault};
ghost use Rattle.sd_workload.specs.Tables.{IsBelow};
ghost use Rattle.sd_workload.specs.Texts.{Outside, InScript, operation_cause, ops_of, with_script};
ghost use Rattle.sd_lines.specs.Operations.{operation_of};

use crate::WorkFault;
use crate::line_starts::{LineStart, fault_at, line_at};
use arrayvec::ArrayVec;
use sd_declare::{Declared, Refusal, WorkCause, op_of};
use sd_lines::{first_word, is_end, operation_of};
use sd_script::{ScriptFault, fault_of, take_or_release};
use sd_types::{ChanId, List, LockId, MOST_OPERATIONS, Op, Script, ThreadId, without_lock};
use std::alloc::{AllocError, Global};

/// A script so far: its operations, and the locks that are held behind them.
#[derive(Drop)]
struct OpenScript {
    ops: Vec<Op>,
    held: ArrayVec<LockId, 8>,
}

// The fault of one more operation behind so many, behind which these locks are held, where `after` follows it.
#[tactic(auto, unfolding(crate::specs::Scripts::fault_behind))]
fn fault_behind(count: usize, held: &[LockId], op: Op, after: Option<Op>) -> Option<ScriptFault>
    ensures { result ≡ fault_behind count held.now op after }
{
    if MOST_OPERATIONS <= count {
        return Some(ScriptFault::TooLong);
    }
    fault_of(count as u16, held, op, after)
}

// The first fault of the two operations of a wait.
fn wait_fault(script: &OpenScript, chan: ChanId, mutex: LockId) -> Option<ScriptFault>
    requires { script.now.held.items ≡ held_by script.now.ops.items }
    ensures { result ≡ ops_fault script.now.ops.items (Op.CvWait chan mutex ∷ Op.Enter mutex ∷ []) }
{
    let count = script.ops.len();
    let enter = Op::Enter(mutex);
    if let Some(fault) = fault_behind(count, &script.held, Op::CvWait(chan, mutex), Some(enter)) {
        return Some(fault);
    }
    let held = without_lock(mutex, &script.held);
    fault_behind(count + 1, &held, enter, None)
}

// The first fault of the operations of a line, of which this is the first.
fn ops_fault(script: &OpenScript, op: Op) -> Option<ScriptFault>
    requires { script.now.held.items ≡ held_by script.now.ops.items }
    ensures { result ≡ ops_fault script.now.ops.items (ops_of_op op) }
{
    match op {
        Op::CvWait(chan, mutex) => wait_fault(script, chan, mutex),
        _ => fault_behind(script.ops.len(), &script.held, op, None),
    }
}

// Takes one more operation, which is without a fault.
fn push_op(script: &mut OpenScript, op: Op) -> Result<(), AllocError>
    requires held { script.old.held.items ≡ held_by script.old.ops.items }
    requires room { is_ninth script.old.held.items op ≡ false }
    ensures ops { OnOk result (script.new.ops.items ≡ script.old.ops.items ++ op ∷ []) }
    ensures held { OnOk result (script.new.held.items ≡ held_by script.new.ops.items) }
{
    script.ops.push(op)?;
    take_or_release(&mut script.held, op);
    Ok(())
}

// Takes the operations of a line, of which this is the first. All are judged before memory is taken for any.
fn take_ops(script: &mut OpenScript, op: Op) -> Result<(), Refusal>
    requires { script.old.held.items ≡ held_by script.old.ops.items }
    ensures ok { OnOk result (ops_fault script.old.ops.items (ops_of_op op) ≡ None) }
    ensures err { IfErr result (IsRefusal (option_map Scripted (ops_fault script.old.ops.items (ops_of_op op)))) }
    ensures ops { OnOk result (script.new.ops.items ≡ script.old.ops.items ++ ops_of_op op) }
    ensures held { OnOk result (script.new.held.items ≡ held_by script.new.ops.items) }
{
    if let Some(fault) = ops_fault(script, op) {
        return Err(Refusal::Cause(WorkCause::Script(fault)));
    }
    push_op(script, op)?;
    match op {
        Op::CvWait(_, mutex) => Ok(push_op(script, Op::Enter(mutex))?),
        _ => Ok(()),
    }
}

// Takes a line inside the block, with this first word, behind which this is left. It does not close the block.
fn take_operation(
    d: &Declared,
    script: &mut OpenScript,
    word: &[u8],
    rest: &[u8],
) -> Result<(), Refusal>
    requires { script.old.held.items ≡ held_by script.old.ops.items }
    ensures ok { OnOk result (operation_cause (declarations d.now) script.old.ops.items (operation_of (word.now ∷ words_of rest.now)) ≡ None) }
    ensures err { IfErr result (IsRefusal (operation_cause (declarations d.now) script.old.ops.items (operation_of (word.now ∷ words_of rest.now)))) }
    ensures ops { OnOk result (script.new.ops.items ≡ script.old.ops.items ++ ops_of (declarations d.now) (operation_of (word.now ∷ words_of rest.now))) }
    ensures held { OnOk result (script.new.held.items ≡ held_by script.new.ops.items) }
{
    let Some(operation) = operation_of(word, rest) else {
        return Err(Refusal::Cause(WorkCause::Syntax));
    };
    match op_of(d, &operation) {
        Ok(op) => take_ops(script, op),
        Err(cause) => Err(Refusal::Cause(cause)),
    }
}

// The script of operations that are closed by a line with this number.
fn closed(script: OpenScript, number: u32) -> Result<Script, WorkFault>
    requires held { script.held.items ≡ held_by script.ops.items }
    requires fits { EachOpFits script.ops.items }
    requires short { length script.ops.items ≤ most_operations }
    ensures ok { OnOk result (end_fault script.ops.items ≡ None) }
    ensures err { IfErr result (IsFaultAt number (option_map Scripted (end_fault script.ops.items))) }
    ensures ops { IfOk result (λ s. s.ops ≡ script.ops.items) }
{
    if !script.held.is_empty() {
        return Err(WorkFault::At {
            line: number,
            cause: WorkCause::Script(ScriptFault::HeldAtExit),
        });
    }
    Ok(Script::from_ops(List::from_vec(script.ops)))
}

// The script of a thread whose lines begin at a place, and the place below its end.
fn script_at(
    alloc: Global,
    d: &Declared,
    thread: ThreadId,
    bytes: &[u8],
    at: LineStart,
) -> Result<(Script, LineStart), WorkFault>
    requires text { length bytes.now < 2 ^ 31 }
    requires number { at.number ≤ at.from + 1 }
    ensures ok { IfOk result (λ found. judged_from bytes.now at (declarations d.now) (InScript thread [])
        ≡ judged_from bytes.now found.1 (with_script (declarations d.now) thread found.0.ops) Outside) }
    ensures err { IfErr result (IsFault (judged_from bytes.now at (declarations d.now) (InScript thread []))) }
    ensures below { IfOk result (λ found. IsBelow bytes.now at found.1) }
{
    let mut so_far = OpenScript {
        ops: Vec::new(alloc),
        held: ArrayVec::new(),
    };
    let mut here = at;
    'lines: while let Some((line, below)) = line_at(bytes, here) {
        let Some((word, rest)) = first_word(line) else {
            here = below;
            continue;
        };
        if is_end(word, rest) {
            let script = closed(so_far, here.number)?;
            return Ok((script, below));
        }
        match take_operation(d, &mut so_far, word, rest) {
            Ok(()) => here = below,
            Err(refusal) => return Err(fault_at(here.number, refusal)),
        }
    }
    Err(WorkFault::At {
        line: here.number,
        cause: WorkCause::Syntax,
    })
}

// Gives a thread its script.
fn set_script(d: &mut Declared, thread: ThreadId, script: Script) -> Result<(), AllocError>
    requires { thread.0 < length d.old.threads.items }
    ensures { OnOk result (declarations d.new ≡ with_script (declarations d.old) thread script.ops) }
{
    d.scripted.push(thread)?;
    d.threads[usize::from(thread.0)].script = script;
    Ok(())
}

/// Takes the script of a thread whose lines begin at a place, and gives the place below its end.
pub fn take_script(
    alloc: Global,
    d: &mut Declared,
    thread: ThreadId,
    bytes: &[u8],
    at: LineStart,
) -> Result<LineStart, WorkFault>
    requires text { length bytes.now < 2 ^ 31 }
    requires number { at.number ≤ at.from + 1 }
    requires thread { thread.0 < length d.old.threads.items }
    ensures ok { IfOk result (λ to. judged_from bytes.now at (declarations d.old) (InScript thread [])
        ≡ judged_from bytes.now to (declarations d.new) Outside) }
    ensures err { IfErr result (IsFault (judged_from bytes.now at (declarations d.old) (InScript thread []))) }
    ensures below { IfOk result (IsBelow bytes.now at) }
{
    let (script, to) = script_at(alloc, d, thread, bytes, at)?;
    match set_script(d, thread, script) {
        Ok(()) => Ok(to),
        Err(AllocError) => Err(WorkFault::Memory { line: to.number }),
    }
}
