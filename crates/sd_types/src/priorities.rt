//! Global priorities: the base priority that a class state gives, and the effective priority of a thread.
//! A greater number runs first. TS and FX levels have 0 to 60, SYS threads 60 to 99, RT levels 100 to 159.
//!
//! Source: Solaris Internals (global priorities, priority inheritance).

ghost use Rattle.std.specs.Prelude.{◌≡◌, ◌<◌, ◌≤◌, true, nat_lt};
ghost use Rattle.std.specs.List.{list_all};
ghost use Rattle.sd_types.specs.Priorities.{umdpri, base_of, greatest_willed, eff_as, eff};

use crate::{ClassState, FxState, LockId, RtState, SysState, ThreadBody, TsState};

/// The least global priority of the real-time class.
pub const REAL_TIME_PRIORITY: u8 = 100;

impl TsState {
    /// The base priority, 0 to 59: the sum of `cpupri` and the user priority, within the levels of the class.
    pub fn base(&self) -> u8
        ensures value { result ≡ umdpri self.now }
        ensures level { result ≤ 59 }
    {
        let sum = i16::from(self.cpupri) + i16::from(self.upri);
        sum.clamp(0, 59) as u8
    }
}

impl FxState {
    /// The base priority, 0 to 60: the thread's own.
    pub fn base(&self) -> u8
        ensures value { result ≡ base_of (ClassState.Fx self.now) }
        ensures level { result ≤ 60 }
    {
        self.pri
    }
}

impl SysState {
    /// The base priority, 60 to 99: the thread's own.
    pub fn base(&self) -> u8
        ensures value { result ≡ base_of (ClassState.Sys self.now) }
        ensures least { 60 ≤ result }
        ensures most { result ≤ 99 }
    {
        self.pri
    }
}

impl RtState {
    /// The base priority, 100 to 159: 100 and the thread's own.
    pub fn base(&self) -> u8
        ensures value { result ≡ base_of (ClassState.Rt self.now) }
        ensures level { result ≤ 159 }
    {
        REAL_TIME_PRIORITY + self.pri
    }
}

impl ClassState {
    /// The base priority, 0 to 159.
    pub fn base(&self) -> u8
        ensures value { result ≡ base_of self.now }
        ensures below { result < 160 }
    {
        match self {
            ClassState::Ts(state) => state.base(),
            ClassState::Fx(state) => state.base(),
            ClassState::Sys(state) => state.base(),
            ClassState::Rt(state) => state.base(),
        }
    }
}

impl ThreadBody {
    /// The effective priority: the maximum of the base priority and all inherited ones. It is 0 to 159 where
    /// these are.
    pub fn effective(&self) -> u8
        ensures value { result ≡ eff self.now }
        ensures below { list_all (λ w. nat_lt w.1 160) self.now.willed.items ≡ true → result < 160 }
    {
        self.effective_as(&self.class)
    }

    /// The effective priority that the thread would have in this class state, with what it inherits now.
    pub fn effective_as(&self, class: &ClassState) -> u8
        ensures value { result ≡ eff_as class.now self.now }
        ensures below { list_all (λ w. nat_lt w.1 160) self.now.willed.items ≡ true → result < 160 }
    {
        greatest_willed(class.base(), self.willed.as_slice())
    }
}

/// The greatest of a base priority and the inherited ones.
pub fn greatest_willed(base: u8, willed: &[(LockId, u8)]) -> u8
    ensures value { result ≡ greatest_willed base willed.now }
    ensures below { base < 160 → list_all (λ w. nat_lt w.1 160) willed.now ≡ true → result < 160 }
{
    let mut most = base;
    for number in willed {
        most = most.max(number.1);
    }
    most
}
