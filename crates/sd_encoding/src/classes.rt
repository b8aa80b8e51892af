//! Class states. What is read is a class state only where its numbers are in their ranges.

ghost use Rattle.std.specs.Prelude.{◌≡◌};
ghost use Rattle.sd_encoding.specs.Ranges.{is_quantum};
ghost use Rattle.sd_encoding.specs.Reading.{ts_within, fx_within, sys_within, rt_within};

use crate::packed::Packed;
use crate::writer::Writer;
use sd_types::{ClassState, FxState, Quantum, RtState, SysState, TsState};
use std::alloc::AllocError;

/// Whether a thread may have this quantum with so many ticks left: at least 1 of a finite one, none of an infinite one.
#[tactic(auto, unfolding(crate::specs::Ranges::is_quantum))]
fn is_quantum(quantum: &Quantum, left: u64) -> bool
    ensures { result ≡ is_quantum quantum.now left }
{
    match quantum {
        Quantum::Def => 1 <= left,
        Quantum::Inf => left == 0,
        Quantum::Ticks(n) => 1 <= *n && *n <= 1_000_000 && 1 <= left,
    }
}

impl Packed for Quantum {
    ghost use Rattle.sd_encoding.specs.Numbers.{quantum};
    ghost use Rattle.sd_encoding.specs.Reading.{quantum_at};
    ghost use Rattle.sd_encoding.specs.Fits.{FitsQuantum};
    ghost use Rattle.sd_encoding.specs.Again.{quantum_again};

    ghost numbers_of = { quantum };

    ghost fits = { FitsQuantum };

    ghost at = { quantum_at };

    ghost again = { quantum_again };

    #[inline(always)]
    fn write(&self, into: &mut Writer) -> Result<(), AllocError> {
        match self {
            Quantum::Def => 0u64.write(into),
            Quantum::Inf => 1u64.write(into),
            Quantum::Ticks(ticks) => (2u64, *ticks).write(into),
        }
    }

    #[tactic(auto, unfolding(crate::specs::Reading::quantum_at))]
    fn read(numbers: &[u64]) -> Option<(Quantum, &[u64])> {
        match numbers {
            [] => None,
            [0, rest @ ..] => Some((Quantum::Def, rest)),
            [1, rest @ ..] => Some((Quantum::Inf, rest)),
            [2, rest @ ..] => {
                let (ticks, rest) = u32::read(rest)?;
                Some((Quantum::Ticks(ticks), rest))
            }
            [_, ..] => None,
        }
    }
}

/// The state of a time-sharing thread that has these numbers.
#[tactic(auto, unfolding(crate::specs::Reading::ts_within, crate::specs::Ranges::is_ts))]
fn ts_within(cpupri: u8, limit: i8, upri: i8, left: u64, wait: u32) -> Option<TsState>
    ensures { result ≡ ts_within (record { cpupri = cpupri; limit = limit; upri = upri; left = left; wait = wait }) }
{
    if cpupri <= 59
        && -60 <= limit
        && limit <= 60
        && -60 <= upri
        && upri <= limit
        && 1 <= left
        && wait <= 32_767
    {
        Some(TsState {
            cpupri,
            limit,
            upri,
            left,
            wait,
        })
    } else {
        None
    }
}

impl Packed for TsState {
    ghost use Rattle.sd_types.specs.ClassNumbers.{IsTs};
    ghost use Rattle.sd_encoding.specs.Numbers.{ts};
    ghost use Rattle.sd_encoding.specs.Reading.{ts_at};
    ghost use Rattle.sd_encoding.specs.Again.{ts_again};

    ghost numbers_of = { ts };

    ghost fits = { IsTs };

    ghost at = { ts_at };

    ghost again = { ts_again };

    #[inline(always)]
    fn write(&self, into: &mut Writer) -> Result<(), AllocError> {
        (
            self.cpupri,
            (self.limit, (self.upri, (self.left, self.wait))),
        )
            .write(into)
    }

    #[tactic(auto, unfolding(crate::specs::Reading::ts_at))]
    fn read(numbers: &[u64]) -> Option<(TsState, &[u64])> {
        let (cpupri, rest) = u8::read(numbers)?;
        let (limit, rest) = i8::read(rest)?;
        let (upri, rest) = i8::read(rest)?;
        let (left, rest) = u64::read(rest)?;
        let (wait, rest) = u32::read(rest)?;
        let state = ts_within(cpupri, limit, upri, left, wait)?;
        Some((state, rest))
    }
}

/// The state of a fixed-priority thread that has these numbers.
#[tactic(auto, unfolding(crate::specs::Reading::fx_within, crate::specs::Ranges::is_fx))]
fn fx_within(limit: u8, pri: u8, quantum: Quantum, left: u64) -> Option<FxState>
    ensures { result ≡ fx_within (record { limit = limit; pri = pri; quantum = quantum; left = left }) }
{
    if limit <= 60 && pri <= limit && is_quantum(&quantum, left) {
        Some(FxState {
            limit,
            pri,
            quantum,
            left,
        })
    } else {
        None
    }
}

impl Packed for FxState {
    ghost use Rattle.sd_types.specs.ClassNumbers.{IsFx};
    ghost use Rattle.sd_encoding.specs.Numbers.{fx};
    ghost use Rattle.sd_encoding.specs.Reading.{fx_at};
    ghost use Rattle.sd_encoding.specs.Again.{fx_again};

    ghost numbers_of = { fx };

    ghost fits = { IsFx };

    ghost at = { fx_at };

    ghost again = { fx_again };

    #[inline(always)]
    fn write(&self, into: &mut Writer) -> Result<(), AllocError> {
        (self.limit, (self.pri, (self.quantum, self.left))).write(into)
    }

    #[tactic(auto, unfolding(crate::specs::Reading::fx_at))]
    fn read(numbers: &[u64]) -> Option<(FxState, &[u64])> {
        let (limit, rest) = u8::read(numbers)?;
        let (pri, rest) = u8::read(rest)?;
        let (quantum, rest) = Quantum::read(rest)?;
        let (left, rest) = u64::read(rest)?;
        let state = fx_within(limit, pri, quantum, left)?;
        Some((state, rest))
    }
}

/// The state of a system thread that has these numbers.
#[tactic(auto, unfolding(crate::specs::Reading::sys_within, crate::specs::Ranges::is_sys))]
fn sys_within(pri: u8) -> Option<SysState>
    ensures { result ≡ sys_within (record { pri = pri }) }
{
    if 60 <= pri && pri <= 99 {
        Some(SysState { pri })
    } else {
        None
    }
}

impl Packed for SysState {
    ghost use Rattle.sd_types.specs.ClassNumbers.{IsSys};
    ghost use Rattle.sd_encoding.specs.Numbers.{sys};
    ghost use Rattle.sd_encoding.specs.Reading.{sys_at};
    ghost use Rattle.sd_encoding.specs.Again.{sys_again};

    ghost numbers_of = { sys };

    ghost fits = { IsSys };

    ghost at = { sys_at };

    ghost again = { sys_again };

    #[inline(always)]
    fn write(&self, into: &mut Writer) -> Result<(), AllocError> {
        self.pri.write(into)
    }

    #[tactic(auto, unfolding(crate::specs::Reading::sys_at))]
    fn read(numbers: &[u64]) -> Option<(SysState, &[u64])> {
        let (pri, rest) = u8::read(numbers)?;
        let state = sys_within(pri)?;
        Some((state, rest))
    }
}

/// The state of a real-time thread that has these numbers.
#[tactic(auto, unfolding(crate::specs::Reading::rt_within, crate::specs::Ranges::is_rt))]
fn rt_within(pri: u8, quantum: Quantum, left: u64) -> Option<RtState>
    ensures { result ≡ rt_within (record { pri = pri; quantum = quantum; left = left }) }
{
    if pri <= 59 && is_quantum(&quantum, left) {
        Some(RtState { pri, quantum, left })
    } else {
        None
    }
}

impl Packed for RtState {
    ghost use Rattle.sd_types.specs.ClassNumbers.{IsRt};
    ghost use Rattle.sd_encoding.specs.Numbers.{rt};
    ghost use Rattle.sd_encoding.specs.Reading.{rt_at};
    ghost use Rattle.sd_encoding.specs.Again.{rt_again};

    ghost numbers_of = { rt };

    ghost fits = { IsRt };

    ghost at = { rt_at };

    ghost again = { rt_again };

    #[inline(always)]
    fn write(&self, into: &mut Writer) -> Result<(), AllocError> {
        (self.pri, (self.quantum, self.left)).write(into)
    }

    #[tactic(auto, unfolding(crate::specs::Reading::rt_at))]
    fn read(numbers: &[u64]) -> Option<(RtState, &[u64])> {
        let (pri, rest) = u8::read(numbers)?;
        let (quantum, rest) = Quantum::read(rest)?;
        let (left, rest) = u64::read(rest)?;
        let state = rt_within(pri, quantum, left)?;
        Some((state, rest))
    }
}

impl Packed for ClassState {
    ghost use Rattle.sd_encoding.specs.Numbers.{class};
    ghost use Rattle.sd_encoding.specs.Reading.{class_at};
    ghost use Rattle.sd_rules.specs.ClassStates.{IsClassState};
    ghost use Rattle.sd_encoding.specs.Again.{class_again};

    ghost numbers_of = { class };

    ghost fits = { IsClassState };

    ghost at = { class_at };

    ghost again = { class_again };

    #[inline(always)]
    fn write(&self, into: &mut Writer) -> Result<(), AllocError> {
        match self {
            ClassState::Ts(state) => (0u64, *state).write(into),
            ClassState::Fx(state) => (1u64, *state).write(into),
            ClassState::Sys(state) => (2u64, *state).write(into),
            ClassState::Rt(state) => (3u64, *state).write(into),
        }
    }

    #[tactic(auto, unfolding(crate::specs::Reading::class_at))]
    fn read(numbers: &[u64]) -> Option<(ClassState, &[u64])> {
        match numbers {
            [] => None,
            [0, rest @ ..] => {
                let Some((state, rest)) = TsState::read(rest) else {
                    return None;
                };
                Some((ClassState::Ts(state), rest))
            }
            [1, rest @ ..] => {
                let Some((state, rest)) = FxState::read(rest) else {
                    return None;
                };
                Some((ClassState::Fx(state), rest))
            }
            [2, rest @ ..] => {
                let Some((state, rest)) = SysState::read(rest) else {
                    return None;
                };
                Some((ClassState::Sys(state), rest))
            }
            [3, rest @ ..] => {
                let Some((state, rest)) = RtState::read(rest) else {
                    return None;
                };
                Some((ClassState::Rt(state), rest))
            }
            [_, ..] => None,
        }
    }
}
