//! The changes of the body of a thread that stays where it is.

use sd_types::{ClassState, LockId};

/// A tick of its `run` operation, which its class counts; its operation is over; another class state; it is to
/// go to the back of its queue; it holds a lock, or holds it no more; the priority (0 to 159) that it inherits from the
/// waiters of a lock, or none; a walk has come back to it, or has not.
#[derive(Clone, Copy)]
pub enum BodyChange {
    Tick,
    FinishOp,
    Class(ClassState),
    SendBack,
    Hold(LockId),
    LetGo(LockId),
    Inherit(LockId, Option<u8>),
    Looped(bool),
}
