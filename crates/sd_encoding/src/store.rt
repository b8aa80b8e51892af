//! Changing a state of which the keys count only by their order: a change that is made in the one state is made in each that
//! is shown, since an entry gives a key that is above all others, or below.

use crate::Ordered;
use sd_state::LockState;
use sd_store::{BodyChange, Chore, Destination, Never, Store};
use sd_types::{ChanId, ClassState, CpuId, LockId, Put, Side, ThreadId, Work};

impl Store for Ordered {
    fn set_duty(&mut self, c: CpuId, chore: Chore) -> Result<(), Never> {
        self.state.set_duty(c, chore)
    }

    fn begin_rouse(&mut self, number: u64, c: CpuId, k: ChanId) -> Result<(), Never> {
        self.state.begin_rouse(number, c, k)
    }

    fn begin_walk(&mut self, c: CpuId, t: ThreadId) -> Result<(), Never> {
        self.state.begin_walk(c, t)
    }

    fn walk_on(&mut self, c: CpuId, o: ThreadId) -> Result<(), Never> {
        self.state.walk_on(c, o)
    }

    fn count_tick(&mut self, work: &Work, c: CpuId) -> Result<(), Never> {
        self.state.count_tick(work, c)
    }

    fn clear_marks(&mut self, c: CpuId) -> Result<(), Never> {
        self.state.clear_marks(c)
    }

    fn set_mark(&mut self, c: CpuId, m: u8) -> Result<(), Never> {
        self.state.set_mark(c, m)
    }

    fn change_body(&mut self, work: &Work, t: ThreadId, change: BodyChange) -> Result<(), Never> {
        self.state.change_body(work, t, change)
    }

    fn run_on(&mut self, t: ThreadId, c: CpuId) -> Result<(), Never> {
        self.state.run_on(t, c)
    }

    fn leave(&mut self, number: u64, c: CpuId, t: ThreadId, to: Destination) -> Result<(), Never> {
        self.state.leave(number, c, t, to)
    }

    fn block(
        &mut self,
        number: u64,
        c: CpuId,
        t: ThreadId,
        l: LockId,
        side: Side,
    ) -> Result<(), Never> {
        self.state.block(number, c, t, l, side)
    }

    fn enqueue(&mut self, work: &Work, number: u64, t: ThreadId, at: Put) -> Result<(), Never> {
        self.state.enqueue(work, number, t, at)
    }

    #[tactic(auto, unfolding(sd_machine::specs::Changes::set_class))]
    fn enqueue_as(
        &mut self,
        work: &Work,
        number: u64,
        t: ThreadId,
        class: ClassState,
        at: Put,
    ) -> Result<(), Never> {
        self.change_body(work, t, BodyChange::Class(class))?;
        self.enqueue(work, number, t, at)
    }

    fn set_lock(&mut self, l: LockId, lock: LockState) -> Result<(), Never> {
        self.state.set_lock(l, lock)
    }
}
