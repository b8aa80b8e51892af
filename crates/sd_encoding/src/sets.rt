//! Counts, sets and bindings of a state of which the keys count only by their order: no key changes.

use crate::Ordered;
use sd_store::{Never, Sets};
use sd_types::{ChanId, CpuId, SetId, ThreadId};

impl Sets for Ordered {
    fn set_tokens(&mut self, k: ChanId, n: u32) -> Result<(), Never> {
        self.state.set_tokens(k, n)
    }

    fn set_kernel_mark(&mut self, c: CpuId) -> Result<(), Never> {
        self.state.set_kernel_mark(c)
    }

    fn close(&mut self, d: CpuId, to: SetId) -> Result<(), Never> {
        self.state.close(d, to)
    }

    fn join(&mut self, c: CpuId, set: SetId) -> Result<(), Never> {
        self.state.join(c, set)
    }

    fn bind(&mut self, t: ThreadId, d: CpuId) -> Result<(), Never> {
        self.state.bind(t, d)
    }

    fn unbind(&mut self, t: ThreadId, b: CpuId) -> Result<(), Never> {
        self.state.unbind(t, b)
    }
}
