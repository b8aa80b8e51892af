//! The numbers of the scripts of each processor's clock.

ghost use Rattle.std.specs.Prelude.{◌≡◌, ◌<◌, slice_get, IfOk};
ghost use Rattle.sd_tasks.specs.Kept.{above_kept};
ghost use Rattle.sd_releases.specs.Clocks.{clock_count};
ghost use Rattle.sd_releases.specs.Counts.{AreCounts};

use crate::clocks::{clock_ops, has_clock, script_count};
use sd_tasks::Facts;
use std::alloc::{AllocError, Global};

/// The number of scripts of the clock of a processor, 0 where it has none.
#[tactic(auto, unfolding(crate::specs::Clocks::clock_count))]
fn clock_count(alloc: Global, facts: &Facts, number: u32, cpu: u64) -> Result<u64, AllocError>
    ensures { IfOk result (λ n. n ≡ clock_count (above_kept facts.now) number cpu) }
{
    if !has_clock(facts, cpu) {
        return Ok(0);
    }
    let ops = clock_ops(alloc, facts, number, cpu)?;
    Ok(script_count(ops.len()))
}

/// Those of each processor.
#[tactic(auto, using(crate::proofs::ClockLemmas::counts_more))]
pub(crate) fn clock_counts(
    alloc: Global,
    facts: &Facts,
    number: u32,
) -> Result<Vec<u64>, AllocError>
    ensures { IfOk result (λ counts. AreCounts (above_kept facts.now) number counts.items) }
{
    let mut counts = Vec::new(alloc);
    for cpu in 0..facts.cpus {
        let count = clock_count(alloc, facts, number, cpu)?;
        counts.push(count)?;
    }
    Ok(counts)
}

fn nth(counts: &[u64], place: usize) -> Option<u64>
    ensures { result ≡ slice_get counts.now place }
{
    counts.get(place).copied()
}

/// That of a processor.
pub(crate) fn count_at(facts: &Facts, number: u32, counts: &[u64], cpu: u64) -> u64
    requires counts { AreCounts (above_kept facts.now) number counts.now }
    requires cpu { cpu < facts.now.cpus }
    ensures { result ≡ clock_count (above_kept facts.now) number cpu }
{
    match nth(counts, cpu as usize) {
        Some(count) => count,
        None => 0,
    }
}
