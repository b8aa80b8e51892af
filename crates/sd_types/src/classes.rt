//! The scheduling classes: what a thread asks for, and the state that its class keeps of it.
//! Contracts see a class state as its numbers, and the type keeps that they are in their ranges.
//!
//! Source: Solaris Internals (the scheduling classes), priocntl(2), `ts_dptbl`(4), `rt_dptbl`(4).

use std::marker::Model;

#[derive(Clone, Copy, PartialEq, Eq)]
pub enum Class {
    Ts,
    Fx,
    Sys,
    Rt,
}

/// How long a fixed-priority or real-time thread runs before others of its priority:
/// the quantum of its row of the dispatch table, no end, or 1 to 1,000,000 ticks.
#[derive(Clone, Copy)]
pub enum Quantum {
    Def,
    Inf,
    Ticks(u32),
}

/// The parameters of a class, as priocntl(2) sets them. TS: limit and user priority from -60 to 60;
/// FX: limit and priority from 0 to 60; SYS: 60 to 99; RT: 0 to 59.
#[derive(Clone, Copy)]
pub enum ClassParms {
    Ts {
        limit: i8,
        upri: i8,
    },
    Fx {
        limit: u8,
        pri: u8,
        quantum: Quantum,
    },
    Sys {
        pri: u8,
    },
    Rt {
        pri: u8,
        quantum: Quantum,
    },
}

/// A time-sharing thread: `cpupri` 0 to 59, `limit` and `upri` -60 to 60 with `upri` at most `limit`,
/// `left` ticks of the quantum (at least 1), `wait` in seconds (at most 32,767).
#[derive(Clone, Copy)]
pub struct TsState {
    pub cpupri: u8,
    pub limit: i8,
    pub upri: i8,
    pub left: u64,
    pub wait: u32,
}

impl Model for TsState {
    ghost use Rattle.sd_types.specs.ClassNumbers.{TsNumbers, IsTs};

    ghost Value = { TsNumbers };

    ghost view = { λ s. record { cpupri = s.cpupri; limit = s.limit; upri = s.upri; left = s.left; wait = s.wait } };

    ghost invariant = { λ s. IsTs (record { cpupri = s.cpupri; limit = s.limit; upri = s.upri; left = s.left; wait = s.wait }) };

    ghost inverse = { λ n. record { cpupri = n.cpupri; limit = n.limit; upri = n.upri; left = n.left; wait = n.wait } };
}

/// A fixed-priority thread: `limit` and `pri` 0 to 60 with `pri` at most `limit`;
/// `left` ticks of the quantum, at least 1, or 0 where the quantum is infinite.
#[derive(Clone, Copy)]
pub struct FxState {
    pub limit: u8,
    pub pri: u8,
    pub quantum: Quantum,
    pub left: u64,
}

impl Model for FxState {
    ghost use Rattle.sd_types.specs.ClassNumbers.{FxNumbers, IsFx};

    ghost Value = { FxNumbers };

    ghost view = { λ s. record { limit = s.limit; pri = s.pri; quantum = s.quantum; left = s.left } };

    ghost invariant = { λ s. IsFx (record { limit = s.limit; pri = s.pri; quantum = s.quantum; left = s.left }) };

    ghost inverse = { λ n. record { limit = n.limit; pri = n.pri; quantum = n.quantum; left = n.left } };
}

/// A system thread: `pri` 60 to 99.
#[derive(Clone, Copy)]
pub struct SysState {
    pub pri: u8,
}

impl Model for SysState {
    ghost use Rattle.sd_types.specs.ClassNumbers.{SysNumbers, IsSys};

    ghost Value = { SysNumbers };

    ghost view = { λ s. record { pri = s.pri } };

    ghost invariant = { λ s. IsSys (record { pri = s.pri }) };

    ghost inverse = { λ n. record { pri = n.pri } };
}

/// A real-time thread: `pri` 0 to 59; `left` ticks of the quantum, at least 1,
/// or 0 where the quantum is infinite.
#[derive(Clone, Copy)]
pub struct RtState {
    pub pri: u8,
    pub quantum: Quantum,
    pub left: u64,
}

impl Model for RtState {
    ghost use Rattle.sd_types.specs.ClassNumbers.{RtNumbers, IsRt};

    ghost Value = { RtNumbers };

    ghost view = { λ s. record { pri = s.pri; quantum = s.quantum; left = s.left } };

    ghost invariant = { λ s. IsRt (record { pri = s.pri; quantum = s.quantum; left = s.left }) };

    ghost inverse = { λ n. record { pri = n.pri; quantum = n.quantum; left = n.left } };
}

/// What the class of a thread keeps of it.
#[derive(Clone, Copy)]
pub enum ClassState {
    Ts(TsState),
    Fx(FxState),
    Sys(SysState),
    Rt(RtState),
}
