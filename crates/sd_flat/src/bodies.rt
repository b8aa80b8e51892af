//! What becomes of the body of a thread that stays where it is.

ghost use Rattle.std.specs.Prelude.{◌≡◌, ◌<◌, ◌≤◌, None, IfSome, IsTrue, length};
ghost use Rattle.sd_machine.specs.Sleeping.{nap_ticks};
ghost use Rattle.sd_state.specs.Operations.{op_over, ran, ticks_at};
ghost use Rattle.sd_types.specs.Scripts.{is_held};
ghost use Rattle.sd_types.specs.Willed.{InheritsSoundly, changed_number, number_for, with_lock as with_held, with_number, with_willed};
ghost use Rattle.sd_types.specs.Limits.{most_held, most_operations};

use arrayvec::ArrayVec;
use sd_types::{LockId, MOST_HELD, Op, ThreadBody};

/// The ticks that an operation has when it begins.
pub fn ticks_at(op: Option<Op>) -> u32
    ensures { result ≡ ticks_at op }
{
    match op {
        Some(Op::Run(n)) => n,
        _ => 0,
    }
}

/// The ticks of a `nap` operation.
#[inline(always)]
pub fn nap_ticks(op: Option<Op>) -> u32
    ensures { result ≡ nap_ticks op }
{
    match op {
        Some(Op::Nap(n)) => n,
        _ => 0,
    }
}

/// The operation is over, where there is one.
pub fn op_over(ops: &[Op], b: &mut ThreadBody)
    requires { length ops.now ≤ most_operations }
    ensures { b.old.op < length ops.now → b.new ≡ op_over ops.now b.old }
{
    if (b.op as usize) < ops.len() {
        b.op += 1;
        b.run_left = ticks_at(ops.get(b.op as usize).copied());
    }
}

/// A tick of a run operation.
pub fn ran(ops: &[Op], b: &mut ThreadBody)
    requires { length ops.now ≤ most_operations }
    ensures { b.old.op < length ops.now → b.new ≡ ran ops.now b.old }
{
    if b.run_left <= 1 {
        op_over(ops, b);
    } else {
        b.run_left -= 1;
    }
}

/// It holds the lock, where there is room.
pub fn hold(b: &mut ThreadBody, l: LockId)
    ensures { length b.old.held.items < most_held → b.new ≡ with_held l b.old }
{
    if b.held.len() < MOST_HELD {
        b.take_lock(l);
    }
}

/// Makes `n` the number for the lock, where there is room.
fn put_number(willed: &mut ArrayVec<(LockId, u8), 8>, l: LockId, n: u8)
    ensures { (number_for l willed.old.items ≡ None → length willed.old.items < most_held) → willed.new.items ≡ with_number l n willed.old.items }
{
    for index in 0..willed.len() {
        if l.0 == willed[index].0.0 {
            willed[index] = (l, n);
            return;
        }
    }
    if willed.len() < MOST_HELD {
        willed.push((l, n));
    }
}

/// A thread that is sound and holds the lock inherits this priority through it, or none.
pub fn inherit(b: &mut ThreadBody, l: LockId, number: Option<u8>)
    ensures { InheritsSoundly b.old → IsTrue (is_held l b.old.held.items) → IfSome number (λ n. n < 160) → b.new ≡ with_willed (changed_number l number b.old.willed.items) b.old }
{
    let locks = b.held.len();
    prove!(locks <= MOST_HELD);
    match number {
        None => b.waive(l),
        Some(n) => put_number(&mut b.willed, l, n),
    }
}
