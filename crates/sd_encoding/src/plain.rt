//! Numbers, truth values, pairs, and values that may be absent.

ghost use Rattle.std.specs.Prelude.{◌≡◌, ◌<◌, ◌^◌};
ghost use Rattle.std.specs.Option.{option_map};
ghost use Rattle.sd_encoding.specs.Numbers.{zigzag};
ghost use Rattle.sd_encoding.specs.Reading.{number_at, below_at, unzigzag};

use crate::packed::Packed;
use crate::writer::Writer;
use std::alloc::AllocError;

/// The first of the numbers, and those after it.
#[tactic(auto, unfolding(crate::specs::Reading::number_at))]
pub fn first(numbers: &[u64]) -> Option<(u64, &[u64])>
    ensures { option_map (λ x. (x.0, x.1.now)) result ≡ number_at numbers.now }
{
    match numbers {
        [] => None,
        [number, rest @ ..] => Some((*number, rest)),
    }
}

/// A signed number as one that is not negative: 0, -1, 1, -2, 2 as 0, 1, 2, 3, 4.
fn zigzag(z: i64) -> u64
    ensures { result ≡ zigzag z }
{
    if z < 0 {
        let below = -(z + 1);
        2 * below as u64 + 1
    } else {
        2 * z as u64
    }
}

/// The signed number that is written as `n`.
fn unzigzag(n: u64) -> i64
    ensures { result ≡ unzigzag n }
{
    let half = (n / 2) as i64;
    if n % 2 == 0 { half } else { -half - 1 }
}

/// The signed number of eight bits that is written as `n`.
fn unzigzag_byte(n: u8) -> i8
    ensures { result ≡ unzigzag n }
{
    let half = (n / 2) as i8;
    if n % 2 == 0 { half } else { -half - 1 }
}

impl Packed for u8 {
    ghost use Rattle.sd_encoding.specs.Numbers.{natural};
    ghost use Rattle.sd_encoding.specs.Reading.{below_at};
    ghost use Rattle.sd_encoding.specs.Again.{below_again};

    ghost numbers_of = { natural };

    ghost fits = { λ n. n < 2 ^ 8 };

    ghost at = { below_at (2 ^ 8) };

    ghost again = { below_again (2 ^ 8) };

    #[inline(always)]
    fn write(&self, into: &mut Writer) -> Result<(), AllocError> {
        let number = *self;
        into.push(u64::from(number))?;
        Ok(())
    }

    #[tactic(auto, unfolding(crate::specs::Reading::below_at))]
    fn read(numbers: &[u64]) -> Option<(u8, &[u64])> {
        let (number, rest) = first(numbers)?;
        if number < 256 {
            Some((number as u8, rest))
        } else {
            None
        }
    }
}

impl Packed for u16 {
    ghost use Rattle.sd_encoding.specs.Numbers.{natural};
    ghost use Rattle.sd_encoding.specs.Reading.{below_at};
    ghost use Rattle.sd_encoding.specs.Again.{below_again};

    ghost numbers_of = { natural };

    ghost fits = { λ n. n < 2 ^ 16 };

    ghost at = { below_at (2 ^ 16) };

    ghost again = { below_again (2 ^ 16) };

    #[inline(always)]
    fn write(&self, into: &mut Writer) -> Result<(), AllocError> {
        let number = *self;
        into.push(u64::from(number))?;
        Ok(())
    }

    #[tactic(auto, unfolding(crate::specs::Reading::below_at))]
    fn read(numbers: &[u64]) -> Option<(u16, &[u64])> {
        let (number, rest) = first(numbers)?;
        if number < 65_536 {
            Some((number as u16, rest))
        } else {
            None
        }
    }
}

impl Packed for u32 {
    ghost use Rattle.sd_encoding.specs.Numbers.{natural};
    ghost use Rattle.sd_encoding.specs.Reading.{below_at};
    ghost use Rattle.sd_encoding.specs.Again.{below_again};

    ghost numbers_of = { natural };

    ghost fits = { λ n. n < 2 ^ 32 };

    ghost at = { below_at (2 ^ 32) };

    ghost again = { below_again (2 ^ 32) };

    #[inline(always)]
    fn write(&self, into: &mut Writer) -> Result<(), AllocError> {
        let number = *self;
        into.push(u64::from(number))?;
        Ok(())
    }

    #[tactic(auto, unfolding(crate::specs::Reading::below_at))]
    fn read(numbers: &[u64]) -> Option<(u32, &[u64])> {
        let (number, rest) = first(numbers)?;
        if number < 4_294_967_296 {
            Some((number as u32, rest))
        } else {
            None
        }
    }
}

impl Packed for u64 {
    ghost use Rattle.std.specs.Prelude.{⊤};
    ghost use Rattle.sd_encoding.specs.Numbers.{natural};
    ghost use Rattle.sd_encoding.specs.Reading.{number_at};
    ghost use Rattle.sd_encoding.specs.Again.{number_again};

    ghost numbers_of = { natural };

    ghost fits = { λ _. ⊤ };

    ghost at = { number_at };

    ghost again = { λ n rest _. number_again n rest };

    #[inline(always)]
    fn write(&self, into: &mut Writer) -> Result<(), AllocError> {
        into.push(*self)?;
        Ok(())
    }

    fn read(numbers: &[u64]) -> Option<(u64, &[u64])> {
        first(numbers)
    }
}

impl Packed for i8 {
    ghost use Rattle.std.specs.Prelude.{◌<◌, ◌^◌};
    ghost use Rattle.sd_encoding.specs.Numbers.{zigzag, signed};
    ghost use Rattle.sd_encoding.specs.Reading.{signed_byte_at};
    ghost use Rattle.sd_encoding.specs.Again.{signed_byte_again};

    ghost numbers_of = { signed };

    ghost fits = { λ z. zigzag z < 2 ^ 8 };

    ghost at = { signed_byte_at };

    ghost again = { signed_byte_again };

    #[inline(always)]
    fn write(&self, into: &mut Writer) -> Result<(), AllocError> {
        let number = *self;
        into.push(zigzag(i64::from(number)))?;
        Ok(())
    }

    #[tactic(auto, unfolding(crate::specs::Reading::signed_byte_at))]
    fn read(numbers: &[u64]) -> Option<(i8, &[u64])> {
        let (number, rest) = u8::read(numbers)?;
        Some((unzigzag_byte(number), rest))
    }
}

impl Packed for i64 {
    ghost use Rattle.std.specs.Prelude.{⊤};
    ghost use Rattle.sd_encoding.specs.Numbers.{signed};
    ghost use Rattle.sd_encoding.specs.Reading.{signed_at};
    ghost use Rattle.sd_encoding.specs.Again.{signed_again};

    ghost numbers_of = { signed };

    ghost fits = { λ _. ⊤ };

    ghost at = { signed_at };

    ghost again = { λ z rest _. signed_again z rest };

    #[inline(always)]
    fn write(&self, into: &mut Writer) -> Result<(), AllocError> {
        into.push(zigzag(*self))?;
        Ok(())
    }

    #[tactic(auto, unfolding(crate::specs::Reading::signed_at))]
    fn read(numbers: &[u64]) -> Option<(i64, &[u64])> {
        let (number, rest) = first(numbers)?;
        Some((unzigzag(number), rest))
    }
}

impl Packed for bool {
    ghost use Rattle.std.specs.Prelude.{⊤};
    ghost use Rattle.sd_encoding.specs.Numbers.{truth};
    ghost use Rattle.sd_encoding.specs.Reading.{truth_at};
    ghost use Rattle.sd_encoding.specs.Again.{truth_again};

    ghost numbers_of = { truth };

    ghost fits = { λ _. ⊤ };

    ghost at = { truth_at };

    ghost again = { λ b rest _. truth_again b rest };

    #[inline(always)]
    fn write(&self, into: &mut Writer) -> Result<(), AllocError> {
        if *self {
            into.push(1)?;
        } else {
            into.push(0)?;
        }
        Ok(())
    }

    #[tactic(auto, unfolding(crate::specs::Reading::truth_at))]
    fn read(numbers: &[u64]) -> Option<(bool, &[u64])> {
        match numbers {
            [] => None,
            [0, rest @ ..] => Some((false, rest)),
            [1, rest @ ..] => Some((true, rest)),
            [_, ..] => None,
        }
    }
}

impl<T: Packed> Packed for Option<T> {
    ghost use Rattle.std.specs.Prelude.{IfSome};
    ghost use Rattle.sd_encoding.specs.Numbers.{optional};
    ghost use Rattle.sd_encoding.specs.Reading.{optional_at};
    ghost use Rattle.sd_encoding.specs.Again.{optional_again};

    ghost numbers_of = { optional T.numbers_of };

    ghost fits = { λ x. IfSome x T.fits };

    ghost at = { optional_at T.at };

    ghost again = { optional_again T.numbers_of T.fits T.at T.again };

    #[inline(always)]
    fn write(&self, into: &mut Writer) -> Result<(), AllocError> {
        match self {
            None => into.push(0)?,
            Some(x) => {
                into.push(1)?;
                x.write(into)?;
            }
        }
        Ok(())
    }

    #[tactic(auto, unfolding(crate::specs::Reading::optional_at))]
    fn read(numbers: &[u64]) -> Option<(Option<T>, &[u64])> {
        match numbers {
            [] => None,
            [0, rest @ ..] => Some((None, rest)),
            [1, rest @ ..] => {
                let (x, rest) = T::read(rest)?;
                Some((Some(x), rest))
            }
            [_, ..] => None,
        }
    }
}

impl<A: Packed + Copy, B: Packed + Copy> Packed for (A, B) {
    ghost use Rattle.std.specs.Prelude.{◌++◌};
    ghost use Rattle.sd_encoding.specs.Reading.{pair_at};
    ghost use Rattle.sd_encoding.specs.Again.{pair_again};

    ghost numbers_of = { λ x. A.numbers_of x.0 ++ B.numbers_of x.1 };

    ghost fits = { λ x. A.fits x.0 × B.fits x.1 };

    ghost at = { pair_at A.at B.at };

    ghost again = { pair_again A.numbers_of A.fits A.at A.again B.numbers_of B.fits B.at B.again };

    #[inline(always)]
    fn write(&self, into: &mut Writer) -> Result<(), AllocError> {
        self.0.write(into)?;
        self.1.write(into)
    }

    #[tactic(auto, unfolding(crate::specs::Reading::pair_at))]
    fn read(numbers: &[u64]) -> Option<((A, B), &[u64])> {
        let (one, rest) = A::read(numbers)?;
        let (other, rest) = B::read(rest)?;
        Some(((one, other), rest))
    }
}
