//! Looking at a state by a hand.

ghost use Rattle.std.specs.Prelude.{◌≡◌, [], ◌∷◌, false, option_copied, option_map};
ghost use Rattle.sd_machine.specs.Threads.{best_ready, best_unbound, priority_of, runner};
ghost use Rattle.sd_machine.specs.Walking.{is_back};
ghost use Rattle.sd_state.specs.declared.states.Place.{Place};
ghost use Rattle.sd_store.specs.Parts.{cpu_part, ready_parts};
ghost use Rattle.sd_store.specs.Words.{Lacks, Tells};
ghost use Rattle.sd_hand.specs.Acting.{IsShown, has_part, the_part};
ghost use Rattle.sd_hand.specs.Keys.{is_back_at, key_or_zero, spot_at};
ghost use Rattle.sd_hand.specs.Ranked.{ranked_in, with_rank};

use crate::acting::Acting;
use sd_homes::ListId;
use sd_record::Record;
use sd_state::LockState;
use sd_store::{CpuView, Look, Part, Spot, Task, task_of};
use sd_types::{ChanId, CpuId, Duty, HomeId, LockId, SetId, Side, ThreadBody, ThreadId};

/// Where those of a list stand.
fn spot_at(at: ListId) -> Spot
    ensures { result ≡ spot_at at }
{
    match at {
        ListId::Runs(c) => Spot::Running(c),
        ListId::Queues(c) => Spot::Queued(c),
        ListId::Urgent(p) => Spot::RealTime(p),
        ListId::Waits(l, side) => Spot::Waiting(l, side),
        ListId::Sleeps(k) => Spot::Asleep(k),
        ListId::Naps(c) => Spot::Napping(c),
        ListId::Ends(_) => Spot::Ended,
    }
}

/// The walk seeks the owner `o`. At any other it has not come back, wherever that one stands, so that one need not be looked up.
fn seeks(duty: Duty, o: ThreadId) -> bool
    ensures { result ≡ false → (place : Place) → is_back duty o place ≡ false }
{
    match duty {
        Duty::Walk { seek, .. } => seek.0 == o.0,
        _ => false,
    }
}

/// The walk has come back to the thread that it seeks, at owner `o`, which was found in this list.
fn is_back_at(duty: Duty, o: ThreadId, at: ListId, found: Option<&Record>) -> bool
    ensures { result ≡ is_back_at duty o at (key_or_zero (option_copied found.entry)) }
{
    match (duty, at, found) {
        (Duty::Walk { seek, key, .. }, ListId::Waits(_, _), Some(owner)) => {
            seek.0 == o.0 && key == owner.kept.key
        }
        (Duty::Walk { seek, key, .. }, ListId::Waits(_, _), None) => seek.0 == o.0 && key == 0,
        _ => false,
    }
}

/// The number of a thread that was found, and its effective priority.
#[inline(always)]
fn ranked(found: Option<&Record>) -> Option<(ThreadId, u8)>
    ensures { result ≡ option_map with_rank (option_copied found.entry) }
{
    match found {
        None => None,
        Some(thread) => Some((thread.kept.id, thread.effective())),
    }
}

impl Acting {
    /// The effective priority of the best on the queue of processor `c` that is bound to no processor, read where the thread stands.
    #[inline(always)]
    pub fn unbound_priority(&self, c: CpuId) -> Result<Option<u8>, Part>
        ensures value { Tells (IsShown self.now) result (λ s. priority_of s (best_unbound s c.0)) }
        ensures lack { Lacks the_part (IsShown self.now) (has_part self.now) result (λ s. cpu_part c ∷ []) }
    {
        match self.hand.unbound_priority(c) {
            Err(q) => Err(q),
            Ok(p) => Ok(p),
        }
    }

    /// The best on the queue of processor `c` or on the real-time queue of its partition, and its effective priority, both read where the
    /// thread stands.
    #[inline(always)]
    pub fn best_ready_ranked(&self, c: CpuId) -> Result<Option<(ThreadId, u8)>, Part>
        ensures value { Tells (IsShown self.now) result (λ s. option_map (ranked_in s) (best_ready s c.0)) }
        ensures lack { Lacks the_part (IsShown self.now) (has_part self.now) result (λ s. ready_parts s c) }
    {
        let set = match self.hand.view(c) {
            Err(q) => return Err(q),
            Ok(view) => view.set,
        };
        match self.hand.better_record(c, set) {
            Err(q) => Err(q),
            Ok(found) => Ok(ranked(found)),
        }
    }
}

impl Look for Acting {
    ghost use Rattle.sd_hand.specs.Acting.{IsShown, has_part, the_part};
    ghost use Rattle.sd_hand.specs.Later.{shown_later};

    type Lack = Part;

    ghost part = { the_part };

    ghost shows = { IsShown };

    ghost has = { has_part };

    ghost later = { shown_later };

    #[inline(always)]
    fn runner(&self, c: CpuId) -> Result<Option<ThreadId>, Part> {
        self.hand.first(ListId::Runs(c))
    }

    #[inline(always)]
    fn running_priority(&self, c: CpuId) -> Result<Option<u8>, Part> {
        match self.hand.first_priority(ListId::Runs(c)) {
            Err(q) => Err(q),
            Ok(p) => Ok(p),
        }
    }

    fn ready_priority(&self, c: CpuId) -> Result<Option<u8>, Part> {
        match self.best_ready_ranked(c) {
            Err(q) => Err(q),
            Ok(None) => Ok(None),
            Ok(Some((_best, p))) => Ok(Some(p)),
        }
    }

    fn best_queued(&self, c: CpuId) -> Result<Option<ThreadId>, Part> {
        self.hand.first(ListId::Queues(c))
    }

    #[inline(always)]
    fn best_unbound(&self, c: CpuId) -> Result<Option<ThreadId>, Part> {
        self.hand.first_unbound(c)
    }

    fn next_to_age(&self, c: CpuId, u: ThreadId) -> Result<Option<ThreadId>, Part> {
        self.hand.next_to_age(c, u)
    }

    fn best_waiter(&self, l: LockId, side: Side) -> Result<Option<ThreadId>, Part> {
        self.hand.first(ListId::Waits(l, side))
    }

    fn best_sleeper(&self, k: ChanId) -> Result<Option<ThreadId>, Part> {
        self.hand.first(ListId::Sleeps(k))
    }

    fn has_waiters(&self, l: LockId) -> Result<bool, Part> {
        match self.hand.greatest(l) {
            Err(q) => Err(q),
            Ok(greatest) => Ok(greatest.is_some()),
        }
    }

    fn greatest_waiting(&self, l: LockId) -> Result<Option<u8>, Part> {
        self.hand.greatest(l)
    }

    fn others_waiting(&self, l: LockId, u: ThreadId) -> Result<Option<u8>, Part> {
        self.hand.greatest_but(l, u)
    }

    #[inline(always)]
    fn cpu(&self, c: CpuId) -> Result<CpuView, Part> {
        match self.hand.view(c) {
            Err(q) => Err(q),
            Ok(view) => Ok(view),
        }
    }

    fn lock(&self, l: LockId) -> Result<LockState, Part> {
        self.hand.lock(l)
    }

    fn tokens(&self, k: ChanId) -> Result<u32, Part> {
        self.hand.tokens(k)
    }

    fn open_cpus(&self, p: SetId) -> Result<&[CpuId], Part> {
        match self.hand.open_cpus(p) {
            Err(q) => Err(q),
            Ok(cpus) => Ok(cpus),
        }
    }

    #[inline(always)]
    fn first_due(&self, c: CpuId) -> Result<Option<ThreadId>, Part> {
        if c.0 != self.actor.cpu.0 {
            return Err(Part::Actor(c));
        }
        self.hand.first_due(c, self.actor.count)
    }

    fn next_to_rouse(&self, c: CpuId, k: ChanId) -> Result<Option<ThreadId>, Part> {
        if c.0 != self.actor.cpu.0 {
            return Err(Part::Actor(c));
        }
        self.hand.first_roused(k, self.actor.duty)
    }

    fn duty(&self, c: CpuId) -> Result<Task, Part> {
        if c.0 != self.actor.cpu.0 {
            return Err(Part::Actor(c));
        }
        Ok(task_of(self.actor.duty))
    }

    fn ticks(&self, c: CpuId) -> Result<u32, Part> {
        if c.0 != self.actor.cpu.0 {
            return Err(Part::Actor(c));
        }
        Ok(self.actor.count)
    }

    #[inline(always)]
    fn best_ready(&self, c: CpuId) -> Result<Option<ThreadId>, Part> {
        let set = match self.hand.view(c) {
            Err(q) => return Err(q),
            Ok(view) => view.set,
        };
        self.hand.better(c, set)
    }

    fn spot(&self, t: ThreadId) -> Result<Spot, Part> {
        match self.hand.where_is(t) {
            Err(q) => Err(q),
            Ok(at) => Ok(spot_at(at)),
        }
    }

    fn is_back(&self, c: CpuId, o: ThreadId) -> Result<bool, Part> {
        if c.0 != self.actor.cpu.0 {
            return Err(Part::Actor(c));
        }
        if !seeks(self.actor.duty, o) {
            return Ok(false);
        }
        match self.hand.where_is(o) {
            Err(q) => Err(q),
            Ok(at) => Ok(is_back_at(self.actor.duty, o, at, self.hand.find(o, at))),
        }
    }

    #[inline(always)]
    fn body(&self, t: ThreadId) -> Result<Option<&ThreadBody>, Part> {
        match self.hand.record(t) {
            Err(q) => Err(q),
            Ok(thread) => Ok(Some(&thread.kept.body)),
        }
    }
}
