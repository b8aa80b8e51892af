//! Whether a processor may tick, in a state that is one value.

use crate::Clock;
use sd_state::State;
use sd_types::{CpuId, Work};

impl Clock for State {
    fn may_tick(&self, work: &Work, c: CpuId) -> bool {
        sd_flat::may_tick(work, self, c)
    }
}
