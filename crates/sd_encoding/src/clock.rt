//! Whether a processor may tick: no key matters.

use crate::Ordered;
use sd_store::Clock;
use sd_types::{CpuId, Work};

impl Clock for Ordered {
    fn may_tick(&self, work: &Work, c: CpuId) -> bool {
        self.state.may_tick(work, c)
    }
}
