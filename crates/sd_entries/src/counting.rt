//! The number of an entry at the front of its line: its digits end at a fixed place, and those of the number that follows are
//! counted up there.

ghost use Rattle.std.specs.Prelude.{◌≡◌, ◌+◌, ◌<◌, ◌≤◌, ◌++◌, ◌∷◌, [], length, take, drop, decimal, get_or};

use crate::line::{Line, put_byte};
use itoa::write_digits;

/// Where the number of an entry ends in its line: behind room for the digits of any.
pub(crate) const NUMBER_END: usize = 20;

/// The last digit counted up by one.
#[inline(always)]
fn raise_last_digit(line: &mut Line)
    requires { get_or line.old 19 0 < 57 }
    ensures { take 20 line.new ≡ take 19 line.old ++ (get_or line.old 19 0 + 1) ∷ [] }
{
    let last = line[NUMBER_END - 1];
    put_byte(last + 1, line, NUMBER_END - 1);
}

/// Puts the digits of the number, where those of the number `before` stand from `from` on, and returns where they begin. Of the
/// number that follows only the last digit is new, unless it is a 0.
#[inline(always)]
pub(crate) fn put_entry_number(n: u64, before: u64, line: &mut Line, from: usize) -> usize
    requires begin { from + length (decimal before) ≡ 20 }
    requires stand { drop from (take 20 line.old) ≡ decimal before }
    ensures begin { result + length (decimal n) ≡ 20 }
    ensures stand { drop result (take 20 line.new) ≡ decimal n }
{
    if n > 0 && n - 1 == before && line[NUMBER_END - 1] < b'9' {
        raise_last_digit(line);
        return from;
    }
    write_digits(n, line, NUMBER_END)
}
