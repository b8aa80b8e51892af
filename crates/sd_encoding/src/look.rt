//! Looking at a state of which the keys count only by their order: what the one state tells is so in each that is shown.

use crate::Ordered;
use sd_state::LockState;
use sd_store::{CpuView, Look, Never, Spot, Task};
use sd_types::{ChanId, CpuId, LockId, SetId, Side, ThreadBody, ThreadId};

impl Look for Ordered {
    ghost use Rattle.std.specs.Prelude.{true};
    ghost use Rattle.sd_encoding.specs.Shown.{IsShown, shown_later};
    ghost use Rattle.sd_store.specs.Flat.{no_part};

    type Lack = Never;

    ghost part = { no_part };

    ghost shows = { IsShown };

    ghost has = { λ x p. true };

    ghost later = { shown_later };

    fn runner(&self, c: CpuId) -> Result<Option<ThreadId>, Never> {
        self.state.runner(c)
    }

    fn running_priority(&self, c: CpuId) -> Result<Option<u8>, Never> {
        self.state.running_priority(c)
    }

    fn best_ready(&self, c: CpuId) -> Result<Option<ThreadId>, Never> {
        self.state.best_ready(c)
    }

    fn ready_priority(&self, c: CpuId) -> Result<Option<u8>, Never> {
        self.state.ready_priority(c)
    }

    fn best_queued(&self, c: CpuId) -> Result<Option<ThreadId>, Never> {
        self.state.best_queued(c)
    }

    fn best_unbound(&self, c: CpuId) -> Result<Option<ThreadId>, Never> {
        self.state.best_unbound(c)
    }

    fn first_due(&self, c: CpuId) -> Result<Option<ThreadId>, Never> {
        self.state.first_due(c)
    }

    fn next_to_age(&self, c: CpuId, u: ThreadId) -> Result<Option<ThreadId>, Never> {
        self.state.next_to_age(c, u)
    }

    fn best_waiter(&self, l: LockId, side: Side) -> Result<Option<ThreadId>, Never> {
        self.state.best_waiter(l, side)
    }

    fn best_sleeper(&self, k: ChanId) -> Result<Option<ThreadId>, Never> {
        self.state.best_sleeper(k)
    }

    fn next_to_rouse(&self, c: CpuId, k: ChanId) -> Result<Option<ThreadId>, Never> {
        self.state.next_to_rouse(c, k)
    }

    fn has_waiters(&self, l: LockId) -> Result<bool, Never> {
        self.state.has_waiters(l)
    }

    fn greatest_waiting(&self, l: LockId) -> Result<Option<u8>, Never> {
        self.state.greatest_waiting(l)
    }

    fn others_waiting(&self, l: LockId, u: ThreadId) -> Result<Option<u8>, Never> {
        self.state.others_waiting(l, u)
    }

    fn duty(&self, c: CpuId) -> Result<Task, Never> {
        self.state.duty(c)
    }

    fn ticks(&self, c: CpuId) -> Result<u32, Never> {
        self.state.ticks(c)
    }

    fn cpu(&self, c: CpuId) -> Result<CpuView, Never> {
        self.state.cpu(c)
    }

    fn lock(&self, l: LockId) -> Result<LockState, Never> {
        self.state.lock(l)
    }

    fn tokens(&self, k: ChanId) -> Result<u32, Never> {
        self.state.tokens(k)
    }

    fn spot(&self, t: ThreadId) -> Result<Spot, Never> {
        self.state.spot(t)
    }

    fn is_back(&self, c: CpuId, o: ThreadId) -> Result<bool, Never> {
        self.state.is_back(c, o)
    }

    fn open_cpus(&self, p: SetId) -> Result<&[CpuId], Never> {
        self.state.open_cpus(p)
    }

    fn body(&self, t: ThreadId) -> Result<Option<&ThreadBody>, Never> {
        self.state.body(t)
    }
}
