//! The lanes in which the holds of a thread are drawn.

ghost use Rattle.std.specs.Prelude.{◌≡◌, ◌++◌, ◌∷◌, ◌<◌, ◌≤◌, [], IfOk, OnOk, filter, length, nat_lt, if◌then◌else◌};
ghost use Rattle.sd_holds.specs.Bands.{banded, bands, holds_in, lane_at, lanes_for, lies_in, most_lanes, with_end};

use crate::holdings::Hold;
use crate::parts::lies_between;
use std::alloc::{AllocError, Global};

/// A hold, and the number of its lane, from 0: holds of one thread that overlap lie in different lanes.
#[derive(Clone, Copy)]
pub struct Band {
    pub hold: Hold,
    pub lane: usize,
}

// It is of the thread, and some of it lies in these ticks.
fn lies_in(t: usize, from: u32, to: u32, x: &Hold) -> bool
    ensures { result ≡ lies_in t from to x.now }
{
    usize::from(x.thread.0) == t && lies_between(from, to, x)
}

fn push_in(t: usize, from: u32, to: u32, x: &Hold, found: &mut Vec<Hold>) -> Result<(), AllocError>
    ensures { OnOk result (found.new.items ≡ found.old.items ++ (if lies_in t from to x.now then x.now ∷ [] else [])) }
{
    if lies_in(t, from, to, x) {
        found.push(*x)?;
    }
    Ok(())
}

// Those of a thread that lie in these ticks.
fn holds_in(
    alloc: Global,
    t: usize,
    from: u32,
    to: u32,
    holds: &[Hold],
) -> Result<Vec<Hold>, AllocError>
    ensures { IfOk result (λ v. v.items ≡ holds_in t from to holds.now) }
{
    let mut found = Vec::new(alloc);
    for x in holds {
        push_in(t, from, to, x, &mut found)?;
    }
    Ok(found)
}

// The first lane that is free from this tick on, or one more than there are.
fn lane_at(tick: u32, ends: &[u32]) -> usize
    ensures value { result ≡ lane_at tick ends.now }
{
    ends.iter().take_while(|end| tick < **end).count()
}

// The lane is used up to this tick.
fn use_lane(ends: &mut Vec<u32>, lane: usize, end: u32) -> Result<(), AllocError>
    ensures { OnOk result (ends.new.items ≡ with_end ends.old.items lane end) }
{
    if lane < ends.len() {
        ends[lane] = end;
    } else {
        ends.push(end)?;
    }
    Ok(())
}

// Each goes to the first lane that is free.
fn banded(alloc: Global, own: &[Hold]) -> Result<Vec<Band>, AllocError>
    ensures { IfOk result (λ v. v.items ≡ banded [] own.now) }
{
    let mut found = Vec::with_capacity(alloc, own.len())?;
    let mut ends = Vec::new(alloc);
    let mut left = own;
    while let Some((x, rest)) = left.split_first() {
        let lane = lane_at(x.from, &ends);
        found.push(Band { hold: *x, lane })?;
        use_lane(&mut ends, lane, x.to)?;
        left = rest;
    }
    Ok(found)
}

/// Of these holds those of a thread that lie in the ticks from `from` to `to`, each in the first lane that is free.
#[tactic(auto, unfolding(crate::specs::Bands::bands))]
pub fn bands(
    alloc: Global,
    holds: &[Hold],
    t: usize,
    from: u32,
    to: u32,
) -> Result<Vec<Band>, AllocError>
    ensures { IfOk result (λ v. v.items ≡ bands t from to holds.now) }
{
    let own = holds_in(alloc, t, from, to, holds)?;
    banded(alloc, &own)
}

// So many lanes make room for a band; a thread holds eight locks at most.
fn lanes_for(band: &Band) -> u16
    ensures { result ≡ lanes_for band.now }
{
    if band.lane < 7 {
        band.lane as u16 + 1
    } else {
        8
    }
}

/// How many lanes make room for all of these, eight at most.
pub fn most_lanes(bands: &[Band]) -> u16
    ensures { result ≡ most_lanes bands.now }
{
    let mut i = bands.len();
    let mut most = 0;
    while i > 0 {
        i -= 1;
        most = lanes_for(&bands[i]).max(most);
    }
    most
}
