//! The numbers of processors, threads, locks, channels and sets, and the side on which a thread waits.

use crate::packed::Packed;
use crate::writer::Writer;
use sd_types::{ChanId, CpuId, LockId, SetId, Side, ThreadId};
use std::alloc::AllocError;

impl Packed for CpuId {
    ghost use Rattle.sd_encoding.specs.Numbers.{cpu_id};
    ghost use Rattle.sd_encoding.specs.Reading.{cpu_id_at};
    ghost use Rattle.sd_encoding.specs.Fits.{FitsCpuId};
    ghost use Rattle.sd_encoding.specs.Again.{cpu_id_again};

    ghost numbers_of = { cpu_id };

    ghost fits = { FitsCpuId };

    ghost at = { cpu_id_at };

    ghost again = { cpu_id_again };

    #[inline(always)]
    fn write(&self, into: &mut Writer) -> Result<(), AllocError> {
        self.0.write(into)
    }

    #[tactic(auto, unfolding(crate::specs::Reading::cpu_id_at))]
    fn read(numbers: &[u64]) -> Option<(CpuId, &[u64])> {
        let (number, rest) = u16::read(numbers)?;
        Some((CpuId(number), rest))
    }
}

impl Packed for ThreadId {
    ghost use Rattle.sd_encoding.specs.Numbers.{thread_id};
    ghost use Rattle.sd_encoding.specs.Reading.{thread_id_at};
    ghost use Rattle.sd_encoding.specs.Fits.{FitsThreadId};
    ghost use Rattle.sd_encoding.specs.Again.{thread_id_again};

    ghost numbers_of = { thread_id };

    ghost fits = { FitsThreadId };

    ghost at = { thread_id_at };

    ghost again = { thread_id_again };

    #[inline(always)]
    fn write(&self, into: &mut Writer) -> Result<(), AllocError> {
        self.0.write(into)
    }

    #[tactic(auto, unfolding(crate::specs::Reading::thread_id_at))]
    fn read(numbers: &[u64]) -> Option<(ThreadId, &[u64])> {
        let (number, rest) = u16::read(numbers)?;
        Some((ThreadId(number), rest))
    }
}

impl Packed for LockId {
    ghost use Rattle.sd_encoding.specs.Numbers.{lock_id};
    ghost use Rattle.sd_encoding.specs.Reading.{lock_id_at};
    ghost use Rattle.sd_encoding.specs.Fits.{FitsLockId};
    ghost use Rattle.sd_encoding.specs.Again.{lock_id_again};

    ghost numbers_of = { lock_id };

    ghost fits = { FitsLockId };

    ghost at = { lock_id_at };

    ghost again = { lock_id_again };

    #[inline(always)]
    fn write(&self, into: &mut Writer) -> Result<(), AllocError> {
        self.0.write(into)
    }

    #[tactic(auto, unfolding(crate::specs::Reading::lock_id_at))]
    fn read(numbers: &[u64]) -> Option<(LockId, &[u64])> {
        let (number, rest) = u16::read(numbers)?;
        Some((LockId(number), rest))
    }
}

impl Packed for ChanId {
    ghost use Rattle.sd_encoding.specs.Numbers.{chan_id};
    ghost use Rattle.sd_encoding.specs.Reading.{chan_id_at};
    ghost use Rattle.sd_encoding.specs.Fits.{FitsChanId};
    ghost use Rattle.sd_encoding.specs.Again.{chan_id_again};

    ghost numbers_of = { chan_id };

    ghost fits = { FitsChanId };

    ghost at = { chan_id_at };

    ghost again = { chan_id_again };

    #[inline(always)]
    fn write(&self, into: &mut Writer) -> Result<(), AllocError> {
        self.0.write(into)
    }

    #[tactic(auto, unfolding(crate::specs::Reading::chan_id_at))]
    fn read(numbers: &[u64]) -> Option<(ChanId, &[u64])> {
        let (number, rest) = u16::read(numbers)?;
        Some((ChanId(number), rest))
    }
}

impl Packed for SetId {
    ghost use Rattle.sd_encoding.specs.Numbers.{set_id};
    ghost use Rattle.sd_encoding.specs.Reading.{set_id_at};
    ghost use Rattle.sd_encoding.specs.Fits.{FitsSetId};
    ghost use Rattle.sd_encoding.specs.Again.{set_id_again};

    ghost numbers_of = { set_id };

    ghost fits = { FitsSetId };

    ghost at = { set_id_at };

    ghost again = { set_id_again };

    #[inline(always)]
    fn write(&self, into: &mut Writer) -> Result<(), AllocError> {
        self.0.write(into)
    }

    #[tactic(auto, unfolding(crate::specs::Reading::set_id_at))]
    fn read(numbers: &[u64]) -> Option<(SetId, &[u64])> {
        let (number, rest) = u8::read(numbers)?;
        Some((SetId(number), rest))
    }
}

impl Packed for Side {
    ghost use Rattle.std.specs.Prelude.{⊤};
    ghost use Rattle.sd_encoding.specs.Numbers.{side};
    ghost use Rattle.sd_encoding.specs.Reading.{side_at};
    ghost use Rattle.sd_encoding.specs.Again.{side_again};

    ghost numbers_of = { side };

    ghost fits = { λ _. ⊤ };

    ghost at = { side_at };

    ghost again = { λ x rest _. side_again x rest };

    #[inline(always)]
    fn write(&self, into: &mut Writer) -> Result<(), AllocError> {
        match self {
            Side::Writer => into.push(0)?,
            Side::Reader => into.push(1)?,
        }
        Ok(())
    }

    #[tactic(auto, unfolding(crate::specs::Reading::side_at))]
    fn read(numbers: &[u64]) -> Option<(Side, &[u64])> {
        match numbers {
            [] => None,
            [0, rest @ ..] => Some((Side::Writer, rest)),
            [1, rest @ ..] => Some((Side::Reader, rest)),
            [_, ..] => None,
        }
    }
}
