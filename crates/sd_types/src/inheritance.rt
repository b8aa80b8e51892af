//! Priority inheritance: the priorities that a thread inherits from the waiters of the locks that it holds,
//! and the taking and releasing of locks.
//!
//! Source: Solaris Internals (turnstiles, priority inheritance).

ghost use Rattle.std.specs.Prelude.{◌≡◌, ◌<◌, false, IsTrue, None, IfSome, length};
ghost use Rattle.sd_types.specs.Limits.{most_held};
ghost use Rattle.sd_types.specs.Priorities.{greatest_willed};
ghost use Rattle.sd_types.specs.Scripts.{is_held};
ghost use Rattle.sd_types.specs.Willed.{InheritsSoundly, number_for, with_number, without_number, with_willed, with_lock, released, eff_with};

use crate::{LockId, MOST_HELD, ThreadBody, greatest_willed, without_lock};
use arrayvec::ArrayVec;

impl ThreadBody {
    /// Makes `pri` (0 to 159) the priority that the thread, which holds `l`, inherits from the waiters of `l`.
    pub fn inherit(&mut self, l: LockId, pri: u8)
        requires sound { InheritsSoundly self.old }
        requires held { IsTrue (is_held l self.old.held.items) }
        requires below { pri < 160 }
        ensures value { self.new ≡ with_willed (with_number l pri self.old.willed.items) self.old }
        ensures sound { InheritsSoundly self.new }
    {
        let locks = self.held.len();
        prove!(locks <= MOST_HELD);
        set_number(&mut self.willed, l, pri);
    }

    /// Removes the priority that is inherited from the waiters of `l`, if there is one.
    pub fn waive(&mut self, l: LockId)
        ensures value { self.new ≡ with_willed (without_number l self.old.willed.items) self.old }
        ensures sound { InheritsSoundly self.old → InheritsSoundly self.new }
    {
        let rest = without_number(l, &self.willed);
        self.willed = rest;
    }

    /// Puts `l` at the end of the locks that the thread holds.
    pub fn take_lock(&mut self, l: LockId)
        requires { length self.old.held.items < most_held }
        ensures value { self.new ≡ with_lock l self.old }
        ensures sound { InheritsSoundly self.old → is_held l self.old.held.items ≡ false → InheritsSoundly self.new }
    {
        self.held.push(l);
    }

    /// Takes `l` out of the locks that the thread holds, with the priority that is inherited from its waiters.
    /// The other locks keep their order.
    pub fn release_lock(&mut self, l: LockId)
        ensures value { self.new ≡ released l self.old }
        ensures sound { InheritsSoundly self.old → InheritsSoundly self.new }
    {
        let numbers = without_number(l, &self.willed);
        let locks = without_lock(l, &self.held);
        self.willed = numbers;
        self.held = locks;
    }

    /// The effective priority that the thread would have if `pri` were the priority that it inherits from the waiters
    /// of `l`, or with none from them.
    pub fn effective_with(&self, l: LockId, pri: Option<u8>) -> u8
        requires { InheritsSoundly self.now }
        ensures value { result ≡ eff_with l pri self.now }
        ensures below { IfSome pri (λ n. n < 160) → result < 160 }
    {
        let rest = without_number(l, &self.willed);
        let greatest = greatest_willed(self.class.base(), rest.as_slice());
        match pri {
            Some(pri) => greatest.max(pri),
            None => greatest,
        }
    }
}

/// Makes `pri` the number for the lock.
fn set_number(willed: &mut ArrayVec<(LockId, u8), 8>, l: LockId, pri: u8)
    requires { number_for l willed.old.items ≡ None → length willed.old.items < most_held }
    ensures { willed.new.items ≡ with_number l pri willed.old.items }
{
    for index in 0..willed.len() {
        if l.0 == willed[index].0.0 {
            willed[index] = (l, pri);
            return;
        }
    }
    willed.push((l, pri));
}

/// The numbers without that for the lock.
fn without_number(l: LockId, willed: &ArrayVec<(LockId, u8), 8>) -> ArrayVec<(LockId, u8), 8>
    ensures { result.items ≡ without_number l willed.now.items }
{
    let mut rest = ArrayVec::new();
    for number in willed.as_slice() {
        if l.0 != number.0.0 {
            rest.push(*number);
        }
    }
    rest
}
