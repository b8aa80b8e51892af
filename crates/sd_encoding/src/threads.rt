//! Threads: what moves with them, and their places.

use crate::packed::Packed;
use crate::writer::Writer;
use arrayvec::ArrayVec;
use sd_state::{Place, ThreadState};
use sd_types::{ClassState, CpuId, ThreadBody};
use std::alloc::AllocError;

impl Packed for ThreadBody {
    ghost use Rattle.sd_encoding.specs.Numbers.{body};
    ghost use Rattle.sd_encoding.specs.Reading.{body_at};
    ghost use Rattle.sd_encoding.specs.Fits.{FitsBody};
    ghost use Rattle.sd_encoding.specs.Again.{body_again};

    ghost numbers_of = { body };

    ghost fits = { FitsBody };

    ghost at = { body_at };

    ghost again = { body_again };

    #[inline(always)]
    #[tactic(auto, unfolding(crate::specs::Numbers::body))]
    fn write(&self, into: &mut Writer) -> Result<(), AllocError> {
        self.class.write(into)?;
        self.willed.write(into)?;
        self.held.write(into)?;
        let marks = (
            (self.op, (self.run_left, (self.back, self.last))),
            (self.left_at, (self.looped, self.bound)),
        );
        marks.write(into)
    }

    #[tactic(auto, unfolding(crate::specs::Reading::body_at))]
    fn read(numbers: &[u64]) -> Option<(ThreadBody, &[u64])> {
        let Some((class, rest)) = ClassState::read(numbers) else {
            return None;
        };
        let (willed, rest) = ArrayVec::read(rest)?;
        let (held, rest) = ArrayVec::read(rest)?;
        let (op, rest) = u16::read(rest)?;
        let (run_left, rest) = u32::read(rest)?;
        let (back, rest) = bool::read(rest)?;
        let (last, rest) = CpuId::read(rest)?;
        let (left_at, rest) = Option::read(rest)?;
        let (looped, rest) = bool::read(rest)?;
        let (bound, rest) = Option::read(rest)?;
        let value = ThreadBody {
            class,
            willed,
            held,
            op,
            run_left,
            back,
            last,
            left_at,
            looped,
            bound,
        };
        Some((value, rest))
    }
}

impl Packed for ThreadState {
    ghost use Rattle.sd_encoding.specs.Numbers.{thread};
    ghost use Rattle.sd_encoding.specs.Reading.{thread_at};
    ghost use Rattle.sd_encoding.specs.Fits.{FitsThread};
    ghost use Rattle.sd_encoding.specs.Again.{thread_again};

    ghost numbers_of = { thread };

    ghost fits = { FitsThread };

    ghost at = { thread_at };

    ghost again = { thread_again };

    #[tactic(auto, unfolding(crate::specs::Numbers::thread))]
    #[inline(always)]
    fn write(&self, into: &mut Writer) -> Result<(), AllocError> {
        self.body.write(into)?;
        self.place.write(into)
    }

    #[tactic(auto, unfolding(crate::specs::Reading::thread_at))]
    fn read(numbers: &[u64]) -> Option<(ThreadState, &[u64])> {
        let Some((body, rest)) = ThreadBody::read(numbers) else {
            return None;
        };
        let (place, rest) = Place::read(rest)?;
        let value = ThreadState { body, place };
        Some((value, rest))
    }
}
