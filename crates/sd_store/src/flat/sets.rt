//! Counts, sets and bindings of a state that is one value.

use crate::Sets;
use crate::flat::Never;
use sd_state::State;
use sd_types::{ChanId, CpuId, SetId, ThreadId};

impl Sets for State {
    fn set_tokens(&mut self, k: ChanId, n: u32) -> Result<(), Never> {
        sd_flat::set_count(self, k, n);
        Ok(())
    }

    #[tactic(auto, unfolding(sd_machine::specs::Changes::set_kernel_mark))]
    fn set_kernel_mark(&mut self, c: CpuId) -> Result<(), Never> {
        sd_flat::set_kernel_mark(self, c);
        Ok(())
    }

    #[tactic(auto, unfolding(sd_machine::specs::Changes::close))]
    fn close(&mut self, d: CpuId, to: SetId) -> Result<(), Never> {
        sd_flat::close(self, d, to);
        Ok(())
    }

    #[tactic(auto, unfolding(sd_machine::specs::Changes::join))]
    fn join(&mut self, c: CpuId, set: SetId) -> Result<(), Never> {
        sd_flat::join(self, c, set);
        Ok(())
    }

    #[tactic(auto, unfolding(sd_machine::specs::Changes::bind))]
    fn bind(&mut self, t: ThreadId, d: CpuId) -> Result<(), Never> {
        sd_flat::bind(self, t, d);
        Ok(())
    }

    #[tactic(auto, unfolding(sd_machine::specs::Changes::unbind))]
    fn unbind(&mut self, t: ThreadId, b: CpuId) -> Result<(), Never> {
        sd_flat::unbind(self, t, b);
        Ok(())
    }
}
