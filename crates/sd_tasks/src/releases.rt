//! The releases of a task.

ghost use Rattle.std.specs.Prelude.{◌≡◌, ◌≤◌};
ghost use Rattle.sd_tasks.specs.Releases.{is_released, release_count};

/// The first release, the ticks between one and the next, and how many there are at most.
#[derive(Clone, Copy)]
pub struct Release {
    pub first: u64,
    pub period: u64,
    pub most: u64,
}

/// Whether it is released at a tick.
pub fn is_released(release: Release, tick: u64) -> bool
    ensures { result ≡ is_released release tick }
{
    if release.period == 0 || tick < release.first {
        return false;
    }
    let behind = tick - release.first;
    behind % release.period == 0 && behind / release.period < release.most
}

/// How many times it is released below a tick.
#[tactic(auto, using(crate::proofs::Loops::count_more), unfolding(crate::specs::Releases::release_count))]
pub(crate) fn release_count(release: Release, limit: u64) -> u64
    ensures value { result ≡ release_count release limit }
    ensures bound { result ≤ limit }
{
    let mut count = 0;
    for tick in 0..limit {
        if is_released(release, tick) {
            count += 1;
        }
    }
    count
}
