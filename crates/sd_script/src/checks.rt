//! The check of a list of operations, which goes through it once with the locks that are held.

ghost use Rattle.std.specs.Prelude.{◌≡◌, ◌<◌, ◌↔◌, false, length, take, min, slice_get, Err, IsOk, IfOk, OnOk, IfErr};
ghost use Rattle.sd_types.specs.Scripts.{is_held, held_after, held_by, enters};
ghost use Rattle.sd_types.specs.Limits.{most_operations};
ghost use Rattle.sd_script.specs.declared.faults.ScriptFault.{ScriptFault};
ghost use Rattle.sd_script.specs.Faults.{IsFault, IsFreeBelow, IsWellFormed, op_fault, is_unbalanced, is_ninth, is_taken_again, is_unpaired};

use crate::ScriptFault;
use arrayvec::ArrayVec;
use sd_types::{List, LockId, MOST_HELD, MOST_OPERATIONS, Op, Script, without_lock};

/// The script of these operations, or what is wrong with them: the first operation at fault, and of several
/// faults there the one with the least number. On a refusal the list is dropped.
pub fn check(ops: Vec<Op>) -> Result<Script, ScriptFault>
    ensures script { IfOk result (λ script. script.ops ≡ ops.items) }
    ensures well_formed { IsOk result ↔ IsWellFormed ops.items }
    ensures fault { IfErr result (IsFault ops.items) }
    ensures refuses { (fault : ScriptFault) → IsFault ops.items fault → result ≡ Err fault }
{
    check_ops(&ops)?;
    Ok(Script::from_ops(List::from_vec(ops)))
}

/// Whether the operations are well formed.
fn check_ops(ops: &[Op]) -> Result<(), ScriptFault>
    ensures ok { OnOk result (IsWellFormed ops.now) }
    ensures fault { IfErr result (IsFault ops.now) }
{
    let held = held_after_all(ops)?;
    if ops.len() > MOST_OPERATIONS {
        return Err(ScriptFault::TooLong);
    }
    if !held.is_empty() {
        return Err(ScriptFault::HeldAtExit);
    }
    Ok(())
}

/// The locks that are held after the first 256 operations, or the first fault of one of these.
fn held_after_all(ops: &[Op]) -> Result<ArrayVec<LockId, 8>, ScriptFault>
    ensures held { IfOk result (λ held. held.items ≡ held_by (take most_operations ops.now)) }
    ensures free { OnOk result (IsFreeBelow ops.now (min (length ops.now) most_operations)) }
    ensures fault { IfErr result (IsFault ops.now) }
{
    let mut held = ArrayVec::new();
    for i in 0..ops.len().min(MOST_OPERATIONS) {
        if let Some(fault) = fault_of(i as u16, &held, ops[i], op_at(ops, i + 1)) {
            return Err(fault);
        }
        take_or_release(&mut held, ops[i]);
    }
    Ok(held)
}

/// Operation number `number`, or none past the end of the list.
fn op_at(ops: &[Op], number: usize) -> Option<Op>
    ensures { result ≡ slice_get ops.now number }
{
    ops.get(number).copied()
}

/// The fault of operation number `number`, before which these locks are held.
pub fn fault_of(number: u16, held: &[LockId], op: Op, after: Option<Op>) -> Option<ScriptFault>
    ensures { result ≡ op_fault number held.now op after }
{
    if is_unbalanced(held, op) {
        Some(ScriptFault::Unbalanced { op: number })
    } else if is_ninth(held, op) {
        Some(ScriptFault::TooManyHeld { op: number })
    } else if is_taken_again(held, op) {
        Some(ScriptFault::AlreadyHeld { op: number })
    } else if is_unpaired(op, after) {
        Some(ScriptFault::Unpaired { op: number })
    } else {
        None
    }
}

fn is_unbalanced(held: &[LockId], op: Op) -> bool
    ensures { result ≡ is_unbalanced held.now op }
{
    match op {
        Op::Exit(lock) | Op::CvWait(_, lock) => !is_held(lock, held),
        _ => false,
    }
}

fn is_ninth(held: &[LockId], op: Op) -> bool
    ensures { result ≡ is_ninth held.now op }
{
    match op {
        Op::Enter(_) | Op::Read(_) | Op::Write(_) => MOST_HELD <= held.len(),
        _ => false,
    }
}

fn is_taken_again(held: &[LockId], op: Op) -> bool
    ensures { result ≡ is_taken_again held.now op }
{
    match op {
        Op::Enter(lock) | Op::Read(lock) | Op::Write(lock) => is_held(lock, held),
        _ => false,
    }
}

fn is_unpaired(op: Op, after: Option<Op>) -> bool
    ensures { result ≡ is_unpaired op after }
{
    match op {
        Op::CvWait(_, lock) => !enters(lock, after),
        _ => false,
    }
}

/// Whether the operation after a wait enters the mutex again.
fn enters(lock: LockId, after: Option<Op>) -> bool
    ensures { result ≡ enters lock after }
{
    match after {
        Some(Op::Enter(entered)) => lock.0 == entered.0,
        _ => false,
    }
}

fn is_held(lock: LockId, held: &[LockId]) -> bool
    ensures { result ≡ is_held lock held.now }
{
    held.iter().any(|other| lock.0 == other.0)
}

/// Makes the locks those that are held after the operation.
pub fn take_or_release(held: &mut ArrayVec<LockId, 8>, op: Op)
    requires { is_ninth held.old.items op ≡ false }
    ensures { held.new.items ≡ held_after held.old.items op }
{
    match op {
        Op::Enter(lock) | Op::Read(lock) | Op::Write(lock) => held.push(lock),
        Op::Exit(lock) | Op::CvWait(_, lock) => {
            let rest = without_lock(lock, held);
            *held = rest;
        }
        _ => {}
    }
}
