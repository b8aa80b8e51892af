//! States as numbers.

ghost use Rattle.std.specs.Prelude.{◌≡◌, IfOk};
ghost use Rattle.std.specs.Option.{option_map};
ghost use Rattle.sd_encoding.specs.Reading.{state_at};

use crate::items::read_list;
use sd_state::State;
use std::alloc::{AllocError, Global};

/// What state the numbers begin with, and the numbers after it.
#[tactic(auto, unfolding(crate::specs::Reading::state_at))]
pub fn read_state(alloc: Global, numbers: &[u64]) -> Result<Option<(State, &[u64])>, AllocError>
    ensures { IfOk result (λ r. option_map (λ x. (x.0, x.1.now)) r ≡ state_at numbers.now) }
{
    let Some((threads, rest)) = read_list(alloc, numbers)? else {
        return Ok(None);
    };
    let Some((locks, rest)) = read_list(alloc, rest)? else {
        return Ok(None);
    };
    let Some((cpus, rest)) = read_list(alloc, rest)? else {
        return Ok(None);
    };
    let Some((counts, rest)) = read_list(alloc, rest)? else {
        return Ok(None);
    };
    let Some((open_cpus, rest)) = read_list(alloc, rest)? else {
        return Ok(None);
    };
    let state = State {
        threads,
        locks,
        cpus,
        counts,
        open_cpus,
    };
    Ok(Some((state, rest)))
}
