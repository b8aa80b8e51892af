//! Lists that have at most so many items.

ghost use Rattle.std.specs.Prelude.{◌≡◌, ◌≤◌, ◌<◌, ◌^◌};
ghost use Rattle.std.specs.Option.{option_map};
ghost use Rattle.sd_encoding.specs.Reading.{items_at, pair_at, below_at, lock_id_at, cpu_id_at};

use crate::items::write_items;
use crate::packed::Packed;
use crate::plain::first;
use crate::writer::Writer;
use arrayvec::ArrayVec;
use sd_types::{CpuId, LockId};
use std::alloc::AllocError;

/// Reads that many items.
fn read_array<T: Packed + Default + Drop, const N: usize>(
    count: usize,
    numbers: &[u64],
) -> Option<(ArrayVec<T, N>, &[u64])>
    requires { count ≤ N }
    ensures { option_map (λ x. (x.0.items, x.1.now)) result ≡ items_at T.at count numbers.now }
{
    let mut items = ArrayVec::new();
    let mut rest = numbers;
    for _ in 0..count {
        let (item, after) = T::read(rest)?;
        items.push(item);
        rest = after;
    }
    Some((items, rest))
}

impl Packed for ArrayVec<LockId, 8> {
    ghost use Rattle.sd_encoding.specs.Numbers.{listed, lock_id};
    ghost use Rattle.sd_encoding.specs.Reading.{array_at};
    ghost use Rattle.sd_encoding.specs.Fits.{FitsArray, FitsLockId};
    ghost use Rattle.sd_encoding.specs.Again.{array_again, lock_id_again};

    ghost numbers_of = { λ x. listed lock_id x.items };

    ghost fits = { FitsArray 8 FitsLockId };

    ghost at = { array_at 8 lock_id_at };

    ghost again = { array_again 8 lock_id FitsLockId lock_id_at lock_id_again };

    #[inline(always)]
    fn write(&self, into: &mut Writer) -> Result<(), AllocError> {
        write_items(self.as_slice(), into)
    }

    #[tactic(auto, unfolding(crate::specs::Reading::array_at))]
    fn read(numbers: &[u64]) -> Option<(ArrayVec<LockId, 8>, &[u64])> {
        let (count, rest) = first(numbers)?;
        if count <= 8 {
            read_array(count as usize, rest)
        } else {
            None
        }
    }
}

impl Packed for ArrayVec<(LockId, u8), 8> {
    ghost use Rattle.sd_encoding.specs.Numbers.{listed, inherited};
    ghost use Rattle.sd_encoding.specs.Reading.{array_at};
    ghost use Rattle.sd_encoding.specs.Fits.{FitsArray, FitsInherited};
    ghost use Rattle.sd_encoding.specs.Again.{array_again, inherited_again};

    ghost numbers_of = { λ x. listed inherited x.items };

    ghost fits = { FitsArray 8 FitsInherited };

    ghost at = { array_at 8 (pair_at lock_id_at (below_at (2 ^ 8))) };

    ghost again = { array_again 8 inherited FitsInherited (pair_at lock_id_at (below_at (2 ^ 8))) inherited_again };

    #[inline(always)]
    fn write(&self, into: &mut Writer) -> Result<(), AllocError> {
        write_items(self.as_slice(), into)
    }

    #[tactic(auto, unfolding(crate::specs::Reading::array_at))]
    fn read(numbers: &[u64]) -> Option<(ArrayVec<(LockId, u8), 8>, &[u64])> {
        let (count, rest) = first(numbers)?;
        if count <= 8 {
            read_array(count as usize, rest)
        } else {
            None
        }
    }
}

impl Packed for ArrayVec<CpuId, 64> {
    ghost use Rattle.sd_encoding.specs.Numbers.{listed, cpu_id};
    ghost use Rattle.sd_encoding.specs.Reading.{array_at};
    ghost use Rattle.sd_encoding.specs.Fits.{FitsArray, FitsCpuId};
    ghost use Rattle.sd_encoding.specs.Again.{array_again, cpu_id_again};

    ghost numbers_of = { λ x. listed cpu_id x.items };

    ghost fits = { FitsArray 64 FitsCpuId };

    ghost at = { array_at 64 cpu_id_at };

    ghost again = { array_again 64 cpu_id FitsCpuId cpu_id_at cpu_id_again };

    #[inline(always)]
    fn write(&self, into: &mut Writer) -> Result<(), AllocError> {
        write_items(self.as_slice(), into)
    }

    #[tactic(auto, unfolding(crate::specs::Reading::array_at))]
    fn read(numbers: &[u64]) -> Option<(ArrayVec<CpuId, 64>, &[u64])> {
        let (count, rest) = first(numbers)?;
        if count <= 64 {
            read_array(count as usize, rest)
        } else {
            None
        }
    }
}
