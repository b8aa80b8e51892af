//! Processors.

use crate::packed::Packed;
use crate::writer::Writer;
use sd_state::CpuState;
use sd_types::{Duty, SetId};
use std::alloc::AllocError;

impl Packed for CpuState {
    ghost use Rattle.sd_encoding.specs.Numbers.{cpu};
    ghost use Rattle.sd_encoding.specs.Reading.{cpu_at};
    ghost use Rattle.sd_encoding.specs.Fits.{FitsCpu};
    ghost use Rattle.sd_encoding.specs.Again.{cpu_again};

    ghost numbers_of = { cpu };

    ghost fits = { FitsCpu };

    ghost at = { cpu_at };

    ghost again = { cpu_again };

    #[tactic(auto, unfolding(crate::specs::Numbers::cpu))]
    #[inline(always)]
    fn write(&self, into: &mut Writer) -> Result<(), AllocError> {
        (
            (self.count, (self.user, self.kernel)),
            (self.duty, (self.set, (self.closing, self.bound))),
        )
            .write(into)
    }

    #[tactic(auto, unfolding(crate::specs::Reading::cpu_at))]
    fn read(numbers: &[u64]) -> Option<(CpuState, &[u64])> {
        let (count, rest) = u32::read(numbers)?;
        let (user, rest) = bool::read(rest)?;
        let (kernel, rest) = bool::read(rest)?;
        let (duty, rest) = Duty::read(rest)?;
        let (set, rest) = SetId::read(rest)?;
        let (closing, rest) = Option::read(rest)?;
        let (bound, rest) = u16::read(rest)?;
        let value = CpuState {
            count,
            user,
            kernel,
            duty,
            set,
            closing,
            bound,
        };
        Some((value, rest))
    }
}
