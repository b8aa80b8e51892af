//! Duties of a processor.

use crate::packed::Packed;
use crate::writer::Writer;
use sd_types::{ChanId, Duty, LockId, ThreadId};
use std::alloc::AllocError;

impl Packed for Duty {
    ghost use Rattle.sd_encoding.specs.Numbers.{duty};
    ghost use Rattle.sd_encoding.specs.Reading.{duty_at};
    ghost use Rattle.sd_encoding.specs.Fits.{FitsDuty};
    ghost use Rattle.sd_encoding.specs.Again.{duty_again};

    ghost numbers_of = { duty };

    ghost fits = { FitsDuty };

    ghost at = { duty_at };

    ghost again = { duty_again };

    #[inline(always)]
    fn write(&self, into: &mut Writer) -> Result<(), AllocError> {
        match self {
            Duty::Nothing => 0u64.write(into),
            Duty::Walk { lock, seek, key } => (1u64, (*lock, (*seek, *key))).write(into),
            Duty::WakeMutex(lock) => (2u64, *lock).write(into),
            Duty::GrantWriter(lock) => (3u64, *lock).write(into),
            Duty::GrantReaders(lock) => (4u64, *lock).write(into),
            Duty::Rouse(chan, below) => (5u64, (*chan, *below)).write(into),
            Duty::Age(thread) => (6u64, *thread).write(into),
        }
    }

    #[tactic(auto, unfolding(crate::specs::Reading::duty_at))]
    fn read(numbers: &[u64]) -> Option<(Duty, &[u64])> {
        match numbers {
            [] => None,
            [0, rest @ ..] => Some((Duty::Nothing, rest)),
            [1, rest @ ..] => {
                let (lock, rest) = LockId::read(rest)?;
                let (seek, rest) = ThreadId::read(rest)?;
                let (key, rest) = i64::read(rest)?;
                Some((Duty::Walk { lock, seek, key }, rest))
            }
            [2, rest @ ..] => {
                let (lock, rest) = LockId::read(rest)?;
                Some((Duty::WakeMutex(lock), rest))
            }
            [3, rest @ ..] => {
                let (lock, rest) = LockId::read(rest)?;
                Some((Duty::GrantWriter(lock), rest))
            }
            [4, rest @ ..] => {
                let (lock, rest) = LockId::read(rest)?;
                Some((Duty::GrantReaders(lock), rest))
            }
            [5, rest @ ..] => {
                let (chan, rest) = ChanId::read(rest)?;
                let (below, rest) = i64::read(rest)?;
                Some((Duty::Rouse(chan, below), rest))
            }
            [6, rest @ ..] => {
                let (thread, rest) = ThreadId::read(rest)?;
                Some((Duty::Age(thread), rest))
            }
            [_, ..] => None,
        }
    }
}
