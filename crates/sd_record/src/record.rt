//! A thread's record. The type keeps that the priorities which the thread inherits are for locks that it holds.

ghost use Rattle.std.specs.Prelude.{◌≡◌, ◌<◌, false, IsTrue, IfOk, IfSome, length};
ghost use Rattle.sd_types.specs.Priorities.{base_of, eff_as, eff};
ghost use Rattle.sd_types.specs.Scripts.{is_held};
ghost use Rattle.sd_types.specs.Willed.{eff_with, InheritsSoundly};
ghost use Rattle.sd_types.specs.Limits.{most_held};

use sd_boxq::Ranked;
use sd_types::{ClassState, LockId, ThreadBody, ThreadId};
use std::alloc::{AllocError, Global};
use std::marker::Model;

/// What is kept of a thread: its number, the thread without its place, and the key of its place. For a napper the key is the tick at which
/// its nap ends, and it is 0 where the place has no key.
///
/// Source: Solaris Internals (`kthread_t`).
#[derive(Drop)]
pub struct Kept {
    pub id: ThreadId,
    pub key: i64,
    pub body: ThreadBody,
}

/// One thread as it moves between homes, behind one box: it moves by its address, which fits into a register. Each inherited priority is below
/// 160 and for a lock of its own that the thread holds, and the locks that it holds differ.
///
/// Source: Solaris Internals (`kthread_t`, priority inheritance).
#[derive(Drop)]
pub struct Record {
    pub kept: Box<Kept>,
}

impl Model for Record {
    ghost use Rattle.sd_types.specs.Willed.{InheritsSoundly};
    ghost use Rattle.sd_record.specs.Records.{ThreadRecord};

    ghost Value = { ThreadRecord };

    ghost view = { λ r. record { id = r.kept.value.id; body = r.kept.value.body; key = r.kept.value.key } };

    ghost invariant = { λ r. InheritsSoundly r.kept.value.body };
}

impl Record {
    ghost use Rattle.sd_record.specs.Records.{inherited, waived, lock_taken, lock_released};

    /// A record of this thread. Where memory runs out, its body is dropped.
    pub fn new(
        alloc: Global,
        id: ThreadId,
        body: ThreadBody,
        key: i64,
    ) -> Result<Record, AllocError>
        requires { InheritsSoundly body }
        ensures { IfOk result (λ r. r ≡ record { id = id; body = body; key = key }) }
    {
        match Box::new(alloc, Kept { id, key, body }) {
            Ok(kept) => Ok(Record { kept }),
            Err(_) => Err(AllocError),
        }
    }

    /// The priority that the class gives, 0 to 159.
    pub fn base(&self) -> u8
        ensures value { result ≡ base_of self.now.body.class }
        ensures below { result < 160 }
    {
        self.kept.body.class.base()
    }

    /// The effective priority, 0 to 159: the greatest of the base priority and the inherited ones.
    pub fn effective(&self) -> u8
        ensures value { result ≡ eff self.now.body }
        ensures below { result < 160 }
    {
        self.kept.body.effective()
    }

    /// The effective priority that the thread would have in this class state, 0 to 159.
    pub fn effective_as(&self, class: &ClassState) -> u8
        ensures value { result ≡ eff_as class.now self.now.body }
        ensures below { result < 160 }
    {
        self.kept.body.effective_as(class)
    }

    /// The effective priority that the thread would have if `pri` were the priority that it inherits from the waiters
    /// of `l`, or with none from them.
    pub fn effective_with(&self, l: LockId, pri: Option<u8>) -> u8
        ensures value { result ≡ eff_with l pri self.now.body }
        ensures below { IfSome pri (λ n. n < 160) → result < 160 }
    {
        self.kept.body.effective_with(l, pri)
    }

    /// Makes `pri` the priority that the thread, which holds `l`, inherits from the waiters of `l`.
    pub fn inherit(&mut self, l: LockId, pri: u8)
        requires held { IsTrue (is_held l self.old.body.held.items) }
        requires below { pri < 160 }
        ensures { self.new ≡ inherited self.old l pri }
    {
        self.kept.body.inherit(l, pri);
    }

    /// Removes the priority that is inherited from the waiters of `l`, if there is one.
    pub fn waive(&mut self, l: LockId)
        ensures { self.new ≡ waived self.old l }
    {
        self.kept.body.waive(l);
    }

    /// Puts `l`, which the thread does not hold, at the end of the locks that it holds.
    pub fn take_lock(&mut self, l: LockId)
        requires not_held { is_held l self.old.body.held.items ≡ false }
        requires room { length self.old.body.held.items < most_held }
        ensures { self.new ≡ lock_taken self.old l }
    {
        self.kept.body.take_lock(l);
    }

    /// Takes `l` out of the locks that the thread holds, with the priority that is inherited from its waiters.
    /// The other locks keep their order.
    pub fn release_lock(&mut self, l: LockId)
        ensures { self.new ≡ lock_released self.old l }
    {
        self.kept.body.release_lock(l);
    }
}

impl Ranked for Record {
    ghost rank = { λ r. eff r.body };

    ghost key = { λ r. r.key };

    ghost id = { λ r. r.id.0 };

    fn rank(&self) -> u8 {
        self.effective()
    }

    fn key(&self) -> i64 {
        self.kept.key
    }

    fn id(&self) -> u32 {
        u32::from(self.kept.id.0)
    }
}
