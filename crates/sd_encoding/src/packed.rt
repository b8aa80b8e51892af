//! What can be written as numbers and read again.

use crate::writer::Writer;
use std::alloc::AllocError;

/// A value that is written as a list of numbers, and read again from the front of one.
pub trait Packed {
    ghost use Rattle.std.specs.Prelude.{◌≡◌, ℕ, List, ◌++◌, Option, Some, OnOk};
    ghost use Rattle.std.specs.Option.{option_map};

    /// Its numbers.
    ghost numbers_of: { Self → List ℕ };

    /// It is one that the program can hold.
    ghost fits: { Self → Type 0 };

    /// What numbers begin with, and those after it.
    ghost at: { List ℕ → Option (Self × List ℕ) };

    /// Writes its numbers at the end.
    fn write(&self, into: &mut Writer) -> Result<(), AllocError>
        ensures written { OnOk result (into.new ≡ into.old ++ numbers_of self.now) }
        ensures fits { OnOk result (fits self.now) };

    /// What the numbers begin with, and those after it; `None` where they begin with no such value.
    fn read(numbers: &[u64]) -> Option<(Self, &[u64])>
        ensures { option_map (λ x. (x.0, x.1.now)) result ≡ at numbers.now };

    /// What is written is read again.
    ghost again: { (x : Self) (rest : List ℕ) → fits x → at (numbers_of x ++ rest) ≡ Some (x, rest) };
}
