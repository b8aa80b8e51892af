//! The changes of a thread that stays where it is, or goes to another list of its home.

ghost use Rattle.std.specs.Prelude.{◌≡◌, ◌<◌, false, length, IfSome, IsTrue};
ghost use Rattle.sd_types.specs.Scripts.{is_held};
ghost use Rattle.sd_types.specs.Willed.{changed_number, with_lock, with_willed};
ghost use Rattle.sd_types.specs.Limits.{most_held};
ghost use Rattle.sd_store.specs.declared.changes.BodyChange.TheVariants.{FinishOp, Tick};
ghost use Rattle.sd_state.specs.Operations.{ran, script_of};
ghost use Rattle.sd_store.specs.Bodies.{changed};
ghost use Rattle.sd_homes.specs.Bodies.{CanChangeThread};
ghost use Rattle.sd_homes.specs.Homes.{queued_as, running_on, with_body_of};

use sd_class::tick_class;
use sd_flat::script_of;
use sd_record::Record;
use sd_store::BodyChange;
use sd_types::{ClassState, CpuId, LockId, MOST_HELD, ThreadBody, ThreadId, Work};

/// Whether the thread holds the lock.
fn is_held(l: LockId, body: &ThreadBody) -> bool
    ensures { result ≡ is_held l body.now.held.items }
{
    body.held.as_slice().iter().any(|m| l.0 == m.0)
}

/// A tick of a run operation, where the thread stands at an operation.
fn run_tick(work: &Work, t: ThreadId, r: &mut Record)
    ensures body { r.old.body.op < length (script_of work.now t.0) → r.new ≡ with_body_of (ran (script_of work.now t.0) r.old.body) r.old }
    ensures id { r.new.id ≡ r.old.id }
{
    let script = script_of(work, t);
    if (r.kept.body.op as usize) < script.len() {
        sd_flat::ran(script, &mut r.kept.body);
    }
}

/// The same, which the class counts.
#[inline(always)]
fn tick(work: &Work, t: ThreadId, r: &mut Record)
    ensures body { CanChangeThread work.now t.0 Tick r.old.body → r.new ≡ with_body_of (changed work.now t.0 Tick r.old.body) r.old }
    ensures id { r.new.id ≡ r.old.id }
{
    tick_class(work, &mut r.kept.body.class);
    run_tick(work, t, r);
}

/// The operation is over, where the thread stands at one.
fn finish_op(work: &Work, t: ThreadId, r: &mut Record)
    ensures body { CanChangeThread work.now t.0 FinishOp r.old.body → r.new ≡ with_body_of (changed work.now t.0 FinishOp r.old.body) r.old }
    ensures id { r.new.id ≡ r.old.id }
{
    let script = script_of(work, t);
    if (r.kept.body.op as usize) < script.len() {
        sd_flat::op_over(script, &mut r.kept.body);
    }
}

/// Holds the lock, where it does not and has room.
fn hold(l: LockId, r: &mut Record)
    ensures body { length r.old.body.held.items < most_held → is_held l r.old.body.held.items ≡ false → r.new ≡ with_body_of (with_lock l r.old.body) r.old }
    ensures id { r.new.id ≡ r.old.id }
{
    if r.kept.body.held.len() < MOST_HELD && !is_held(l, &r.kept.body) {
        r.take_lock(l);
    }
}

/// Inherits the priority through the lock, where it holds that and the priority is one, or inherits none.
fn inherit(l: LockId, number: Option<u8>, r: &mut Record)
    ensures body { IsTrue (is_held l r.old.body.held.items) → IfSome number (λ n. n < 160) → r.new ≡ with_body_of (with_willed (changed_number l number r.old.body.willed.items) r.old.body) r.old }
    ensures id { r.new.id ≡ r.old.id }
{
    match number {
        None => r.waive(l),
        Some(n) => {
            if n < 160 && is_held(l, &r.kept.body) {
                r.inherit(l, n);
            }
        }
    }
}

/// Changes the body of a thread, where that can be changed so.
#[inline(always)]
pub(crate) fn change(work: &Work, t: ThreadId, change: BodyChange, r: &mut Record)
    ensures body { CanChangeThread work.now t.0 change r.old.body → r.new ≡ with_body_of (changed work.now t.0 change r.old.body) r.old }
    ensures id { r.new.id ≡ r.old.id }
{
    match change {
        BodyChange::Tick => tick(work, t, r),
        BodyChange::FinishOp => finish_op(work, t, r),
        BodyChange::Class(class) => r.kept.body.class = class,
        BodyChange::SendBack => r.kept.body.back = true,
        BodyChange::Hold(l) => hold(l, r),
        BodyChange::LetGo(l) => r.release_lock(l),
        BodyChange::Inherit(l, number) => inherit(l, number, r),
        BodyChange::Looped(looped) => r.kept.body.looped = looped,
    }
}

/// The thread comes to run on a processor.
#[inline(always)]
pub(crate) fn run_on(c: CpuId, r: &mut Record)
    ensures { r.new ≡ running_on c r.old }
{
    r.kept.body.last = c;
    r.kept.key = 0;
}

/// The thread has another class state and another key on a queue.
#[inline(always)]
pub(crate) fn queue_as(class: ClassState, key: i64, r: &mut Record)
    ensures { r.new ≡ queued_as class key r.old }
{
    r.kept.body.class = class;
    r.kept.key = key;
}
