//! Lists: their lengths and their items.

ghost use Rattle.std.specs.Prelude.{◌≡◌, ◌++◌, OnOk, IfOk};
ghost use Rattle.std.specs.List.{All};
ghost use Rattle.std.specs.Option.{option_map};
ghost use Rattle.sd_encoding.specs.Numbers.{listed};
ghost use Rattle.sd_encoding.specs.Reading.{listed_at, items_at};

use crate::packed::Packed;
use crate::plain::first;
use crate::writer::Writer;
use sd_types::List;
use std::alloc::{AllocError, Global};

/// Writes how many items there are, and each of them.
pub fn write_items<T: Packed>(items: &[T], into: &mut Writer) -> Result<(), AllocError>
    ensures written { OnOk result (into.new ≡ into.old ++ listed T.numbers_of items.now) }
    ensures fits { OnOk result (All T.fits items.now) }
{
    into.push(items.len() as u64)?;
    for item in items {
        item.write(into)?;
    }
    Ok(())
}

/// Reads a list.
#[tactic(auto, unfolding(crate::specs::Reading::listed_at))]
pub fn read_list<T: Packed + Drop>(
    alloc: Global,
    numbers: &[u64],
) -> Result<Option<(List<T>, &[u64])>, AllocError>
    ensures { IfOk result (λ r. option_map (λ x. (x.0, x.1.now)) r ≡ listed_at T.at numbers.now) }
{
    let Some((count, rest)) = first(numbers) else {
        return Ok(None);
    };
    read_items(alloc, count, rest)
}

/// Reads that many items.
fn read_items<T: Packed + Drop>(
    alloc: Global,
    count: u64,
    numbers: &[u64],
) -> Result<Option<(List<T>, &[u64])>, AllocError>
    ensures { IfOk result (λ r. option_map (λ x. (x.0, x.1.now)) r ≡ items_at T.at count numbers.now) }
{
    // each item takes a number at least
    let mut items = Vec::with_capacity(alloc, numbers.len().min(count as usize))?;
    let mut rest = numbers;
    for _ in 0..count {
        let Some((item, after)) = T::read(rest) else {
            return Ok(None);
        };
        items.push(item)?;
        rest = after;
    }
    Ok(Some((List::from_vec(items), rest)))
}
