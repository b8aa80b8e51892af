//! Looking at a state that is one value.

ghost use Rattle.std.specs.Prelude.{◌≡◌, option_map};
ghost use Rattle.sd_machine.specs.Threads.{priority_of};
ghost use Rattle.sd_machine.specs.Walking.{is_back};
ghost use Rattle.sd_state.specs.States.{thread_of};
ghost use Rattle.sd_store.specs.Keyless.{spot_of};
ghost use Rattle.sd_store.specs.Parts.{number, view_of};

use crate::keyless::{rouse_key, task_of};
use crate::{CpuView, Look, Spot, Task};
use sd_flat::{cpu_of, place_of};
use sd_state::{CpuState, LockState, Place, State};
use sd_types::{ChanId, CpuId, Duty, LockId, SetId, Side, ThreadBody, ThreadId};

/// What a state lacks: nothing.
#[derive(Clone, Copy)]
pub enum Never {}

fn spot_of(place: Place) -> Spot
    ensures { result ≡ spot_of place }
{
    match place {
        Place::Running(c) => Spot::Running(c),
        Place::Queued(c, _) => Spot::Queued(c),
        Place::RealTime(p, _) => Spot::RealTime(p),
        Place::Waiting(l, side, _) => Spot::Waiting(l, side),
        Place::Asleep(k, _) => Spot::Asleep(k),
        Place::Napping(c, _) => Spot::Napping(c),
        Place::Ended => Spot::Ended,
    }
}

/// The effective priority of the thread that a look-up found.
fn priority_of(s: &State, t: Option<ThreadId>) -> Option<u8>
    ensures { result ≡ priority_of s.now (option_map number t) }
{
    match t {
        None => None,
        Some(t) => match s.threads.items().get(t.0 as usize) {
            Some(x) => Some(x.body.effective()),
            None => Some(60),
        },
    }
}

/// The marks, the set and the bindings of a processor.
pub fn view_of(x: CpuState) -> CpuView
    ensures { result ≡ view_of x }
{
    CpuView {
        user: x.user,
        kernel: x.kernel,
        set: x.set,
        closing: x.closing,
        bound: x.bound,
    }
}

/// The walk has come back to the thread that it seeks.
fn is_back(duty: Duty, o: ThreadId, place: Place) -> bool
    ensures { result ≡ is_back duty o place }
{
    match (duty, place) {
        (Duty::Walk { seek, key, .. }, Place::Waiting(_, _, k)) => seek.0 == o.0 && key == k,
        _ => false,
    }
}

impl Look for State {
    ghost use Rattle.std.specs.Prelude.{true};
    ghost use Rattle.sd_store.specs.Flat.{IsState, no_part};

    type Lack = Never;

    ghost part = { no_part };

    ghost shows = { λ x n s. IsState x s };

    ghost has = { λ x p. true };

    ghost later = { λ x n s h. h };

    #[inline(always)]
    fn runner(&self, c: CpuId) -> Result<Option<ThreadId>, Never> {
        Ok(sd_flat::runner(self, c))
    }

    fn running_priority(&self, c: CpuId) -> Result<Option<u8>, Never> {
        Ok(priority_of(self, sd_flat::runner(self, c)))
    }

    fn best_ready(&self, c: CpuId) -> Result<Option<ThreadId>, Never> {
        Ok(sd_flat::best_ready(self, c))
    }

    fn ready_priority(&self, c: CpuId) -> Result<Option<u8>, Never> {
        Ok(priority_of(self, sd_flat::best_ready(self, c)))
    }

    fn best_queued(&self, c: CpuId) -> Result<Option<ThreadId>, Never> {
        Ok(sd_flat::best_queued(self, c))
    }

    fn best_unbound(&self, c: CpuId) -> Result<Option<ThreadId>, Never> {
        Ok(sd_flat::best_unbound(self, c))
    }

    fn first_due(&self, c: CpuId) -> Result<Option<ThreadId>, Never> {
        Ok(sd_flat::first_due(self, c))
    }

    fn next_to_age(&self, c: CpuId, u: ThreadId) -> Result<Option<ThreadId>, Never> {
        Ok(sd_flat::next_to_age(self, c, u))
    }

    fn best_waiter(&self, l: LockId, side: Side) -> Result<Option<ThreadId>, Never> {
        Ok(sd_flat::best_waiter(self, l, side))
    }

    fn best_sleeper(&self, k: ChanId) -> Result<Option<ThreadId>, Never> {
        Ok(sd_flat::best_sleeper(self, k))
    }

    #[tactic(auto, unfolding(crate::specs::Walks::next_to_rouse))]
    fn next_to_rouse(&self, c: CpuId, k: ChanId) -> Result<Option<ThreadId>, Never> {
        let below = rouse_key(cpu_of(self, c).duty);
        Ok(sd_flat::best_sleeper_below(self, k, below))
    }

    fn has_waiters(&self, l: LockId) -> Result<bool, Never> {
        Ok(sd_flat::has_waiters(self, l))
    }

    fn greatest_waiting(&self, l: LockId) -> Result<Option<u8>, Never> {
        Ok(sd_flat::greatest_waiting(self, l))
    }

    fn others_waiting(&self, l: LockId, u: ThreadId) -> Result<Option<u8>, Never> {
        Ok(sd_flat::others_waiting(self, l, u))
    }

    #[inline(always)]
    fn duty(&self, c: CpuId) -> Result<Task, Never> {
        Ok(task_of(cpu_of(self, c).duty))
    }

    #[inline(always)]
    fn ticks(&self, c: CpuId) -> Result<u32, Never> {
        Ok(cpu_of(self, c).count)
    }

    #[inline(always)]
    fn cpu(&self, c: CpuId) -> Result<CpuView, Never> {
        Ok(view_of(cpu_of(self, c)))
    }

    fn lock(&self, l: LockId) -> Result<LockState, Never> {
        Ok(
            self.locks
                .items()
                .get(l.0 as usize)
                .copied()
                .unwrap_or(LockState::Free),
        )
    }

    fn tokens(&self, k: ChanId) -> Result<u32, Never> {
        Ok(self.counts.items().get(k.0 as usize).copied().unwrap_or(0))
    }

    fn spot(&self, t: ThreadId) -> Result<Spot, Never> {
        Ok(spot_of(place_of(self, t)))
    }

    fn is_back(&self, c: CpuId, o: ThreadId) -> Result<bool, Never> {
        Ok(is_back(cpu_of(self, c).duty, o, place_of(self, o)))
    }

    fn open_cpus(&self, p: SetId) -> Result<&[CpuId], Never> {
        match self.open_cpus.items().get(p.0 as usize) {
            Some(cpus) => Ok(cpus.as_slice()),
            None => Ok(&[]),
        }
    }

    #[inline(always)]
    fn body(&self, t: ThreadId) -> Result<Option<&ThreadBody>, Never> {
        match self.threads.items().get(t.0 as usize) {
            Some(x) => Ok(Some(&x.body)),
            None => Ok(None),
        }
    }
}
