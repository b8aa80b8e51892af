//! Where a thread is.

use crate::packed::Packed;
use crate::writer::Writer;
use sd_state::Place;
use sd_types::{ChanId, CpuId, LockId, SetId, Side};
use std::alloc::AllocError;

impl Packed for Place {
    ghost use Rattle.sd_encoding.specs.Numbers.{place};
    ghost use Rattle.sd_encoding.specs.Reading.{place_at};
    ghost use Rattle.sd_encoding.specs.Fits.{FitsPlace};
    ghost use Rattle.sd_encoding.specs.Again.{place_again};

    ghost numbers_of = { place };

    ghost fits = { FitsPlace };

    ghost at = { place_at };

    ghost again = { place_again };

    #[inline(always)]
    fn write(&self, into: &mut Writer) -> Result<(), AllocError> {
        match self {
            Place::Running(cpu) => (0u64, *cpu).write(into),
            Place::Queued(cpu, key) => (1u64, (*cpu, *key)).write(into),
            Place::RealTime(set, key) => (2u64, (*set, *key)).write(into),
            Place::Waiting(lock, side, key) => (3u64, (*lock, (*side, *key))).write(into),
            Place::Asleep(chan, key) => (4u64, (*chan, *key)).write(into),
            Place::Napping(cpu, due) => (5u64, (*cpu, *due)).write(into),
            Place::Ended => 6u64.write(into),
        }
    }

    #[tactic(auto, unfolding(crate::specs::Reading::place_at))]
    fn read(numbers: &[u64]) -> Option<(Place, &[u64])> {
        match numbers {
            [] => None,
            [0, rest @ ..] => {
                let (cpu, rest) = CpuId::read(rest)?;
                Some((Place::Running(cpu), rest))
            }
            [1, rest @ ..] => {
                let (cpu, rest) = CpuId::read(rest)?;
                let (key, rest) = i64::read(rest)?;
                Some((Place::Queued(cpu, key), rest))
            }
            [2, rest @ ..] => {
                let (set, rest) = SetId::read(rest)?;
                let (key, rest) = i64::read(rest)?;
                Some((Place::RealTime(set, key), rest))
            }
            [3, rest @ ..] => {
                let (lock, rest) = LockId::read(rest)?;
                let (side, rest) = Side::read(rest)?;
                let (key, rest) = i64::read(rest)?;
                Some((Place::Waiting(lock, side, key), rest))
            }
            [4, rest @ ..] => {
                let (chan, rest) = ChanId::read(rest)?;
                let (key, rest) = i64::read(rest)?;
                Some((Place::Asleep(chan, key), rest))
            }
            [5, rest @ ..] => {
                let (cpu, rest) = CpuId::read(rest)?;
                let (due, rest) = u32::read(rest)?;
                Some((Place::Napping(cpu, due), rest))
            }
            [6, rest @ ..] => Some((Place::Ended, rest)),
            [_, ..] => None,
        }
    }
}
