//! Locks.

use crate::packed::Packed;
use crate::writer::Writer;
use sd_state::LockState;
use sd_types::{CpuId, ThreadId};
use std::alloc::AllocError;

impl Packed for LockState {
    ghost use Rattle.sd_encoding.specs.Numbers.{lock};
    ghost use Rattle.sd_encoding.specs.Reading.{lock_at};
    ghost use Rattle.sd_encoding.specs.Fits.{FitsLock};
    ghost use Rattle.sd_encoding.specs.Again.{lock_again};

    ghost numbers_of = { lock };

    ghost fits = { FitsLock };

    ghost at = { lock_at };

    ghost again = { lock_again };

    #[inline(always)]
    fn write(&self, into: &mut Writer) -> Result<(), AllocError> {
        match self {
            LockState::Free => 0u64.write(into),
            LockState::Owned(thread) => (1u64, *thread).write(into),
            LockState::ReadHeld(readers) => (2u64, *readers).write(into),
            LockState::Passing { cpu, readers } => (3u64, (*cpu, *readers)).write(into),
        }
    }

    #[tactic(auto, unfolding(crate::specs::Reading::lock_at))]
    fn read(numbers: &[u64]) -> Option<(LockState, &[u64])> {
        match numbers {
            [] => None,
            [0, rest @ ..] => Some((LockState::Free, rest)),
            [1, rest @ ..] => {
                let (thread, rest) = ThreadId::read(rest)?;
                Some((LockState::Owned(thread), rest))
            }
            [2, rest @ ..] => {
                let (readers, rest) = u16::read(rest)?;
                Some((LockState::ReadHeld(readers), rest))
            }
            [3, rest @ ..] => {
                let (cpu, rest) = CpuId::read(rest)?;
                let (readers, rest) = u16::read(rest)?;
                Some((LockState::Passing { cpu, readers }, rest))
            }
            [_, ..] => None,
        }
    }
}
