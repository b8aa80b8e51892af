//! A set of byte strings in the order in which they were put in.

ghost use Rattle.std.specs.Prelude.{map, IfOk};
ghost use Rattle.sd_search.specs.Stored.{IsIndex, IsInserted};

use indexmap::IndexSet;
use std::alloc::{AllocError, Global};

/// Puts in a string of bytes where it is not there yet; whether it was not.
fn put(states: &mut IndexSet<Vec<u8>>, bytes: Vec<u8>) -> Result<bool, AllocError>
    ensures { IfOk result (IsInserted (map (λ v. v.items) states.old.keys) (map (λ v. v.items) states.new.keys) bytes.items) }
{
    let (_, is_new) = states.insert_full(bytes)?;
    Ok(is_new)
}

/// Puts in a string of bytes where it is not there yet; whether it was not. It takes memory for a new one only.
pub(crate) fn insert(
    alloc: Global,
    states: &mut IndexSet<Vec<u8>>,
    bytes: &[u8],
) -> Result<bool, AllocError>
    ensures { IfOk result (IsInserted (map (λ v. v.items) states.old.keys) (map (λ v. v.items) states.new.keys) bytes.now) }
{
    match index_of(states, bytes) {
        Some(_) => Ok(false),
        None => put(states, Vec::from_slice(alloc, bytes)?),
    }
}

/// The number of a string of bytes, by the order in which they were put in; None where it was not.
pub(crate) fn index_of(states: &IndexSet<Vec<u8>>, bytes: &[u8]) -> Option<usize>
    ensures { IsIndex (map (λ v. v.items) states.now.keys) bytes.now result }
{
    states.get_index_of(bytes)
}
