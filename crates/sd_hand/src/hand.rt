//! The hand: the homes that a processor holds, or all homes of a run.

ghost use Rattle.std.specs.Prelude.{◌≡◌, ◌⊎◌, ◌+◌, ◌<◌, ◌≤◌, ◌%◌, [], ◌∷◌, None, Some, false, is_some, length, slice_get, true, IfErr, IfNone, IfOk, IfSome, MatchOption};
ghost use Rattle.std.specs.Option.{option_copied};
ghost use Rattle.sd_types.specs.declared.numbers.HomeId.TheVariants.{Chain, Cpu, RealTime, Sleepers};
ghost use Rattle.sd_types.specs.Limits.{most_processors};
ghost use Rattle.sd_homes.specs.Standing.{home_at};
ghost use Rattle.sd_homes.specs.declared.list_id.ListId.TheVariants.{Naps, Queues, Runs};
ghost use Rattle.sd_homes.specs.declared.home.Home.{Home as HomeOf};
ghost use Rattle.sd_homes.specs.Families.{IsWhole, counting, home_id, locking, open_in, opened, putting, shut, taken_from, taking, viewing};
ghost use Rattle.sd_store.specs.Bodies.{changed};
ghost use Rattle.sd_homes.specs.Bodies.{CanChangeThread};
ghost use Rattle.sd_homes.specs.Homes.{queued_as, running_on, with_body_of};
ghost use Rattle.sd_hand.specs.Steps.{GoesWithin, RunsChanged};
ghost use Rattle.sd_hand.specs.Walking.{waiting_from};
ghost use Rattle.sd_hand.specs.Hands.{AreApart, AreSlots, AreTaken, Asks, HasNoRoom, HoldsMore, IsHeld, IsNoSlot, IsSlot, IsThreadHeld, Seeks, StandsIn, StandsInSlot, edit, has_thread, held, how_many_held, is_at, slot_has};

use crate::guide::Guide;
use crate::order::Order;
use crate::ordering::order_of;
use sd_basics::known;
use sd_homes::{Home, IsFull, ListId, Traveller, home_at, same_home};
use sd_record::Record;
use sd_state::LockState;
use sd_store::{BodyChange, CpuView, Part};
use sd_types::{
    ChanId, ClassState, CpuId, HomeId, LockId, SetId, ThreadId, Work, home_of_chan, home_of_lock,
};
use std::alloc::{AllocError, Global};
use std::marker::Model;

/// Homes of different numbers, each in a slot, how many of them lie in the order of their numbers, and where to look for a thread first.
/// Contracts see the slots.
#[derive(Drop)]
pub struct Hand {
    slots: Vec<Option<Home>>,
    order: Order,
    guide: Guide,
}

impl Model for Hand {
    ghost use Rattle.sd_hand.specs.Hands.{HandSlots};
    ghost use Rattle.sd_hand.specs.Orders.{AreOrdered};

    ghost Value = { HandSlots };

    ghost view = { λ h. record { slots = h.slots.items } };

    ghost invariant = { λ h. AreOrdered h.order h.slots.items };
}

#[inline(always)]
pub(crate) fn is_at(k: HomeId, slot: &Option<Home>) -> bool
    ensures { result ≡ is_at k slot.now }
{
    match slot {
        None => false,
        Some(home) => same_home(k, home.id()),
    }
}

/// The slot in which a home with this number lies, from the first slot on.
#[inline(never)]
fn search_in(slots: &[Option<Home>], k: HomeId) -> Option<usize>
    ensures inside { IfSome result (λ i. i < length slots.now) }
    ensures slot { MatchOption result (IsNoSlot k slots.now) (IsSlot k slots.now) }
{
    for i in 0..slots.len() {
        if is_at(k, &slots[i]) {
            return Some(i);
        }
    }
    None
}

/// The slot in which the home of a processor lies, from the first slot on.
#[inline(never)]
fn search_cpu_in(slots: &[Option<Home>], c: CpuId) -> Option<usize>
    ensures inside { IfSome result (λ i. i < length slots.now) }
    ensures slot { MatchOption result (IsNoSlot (Cpu c) slots.now) (IsSlot (Cpu c) slots.now) }
{
    search_in(slots, HomeId::Cpu(c))
}

/// The slot in which the home of a real-time queue lies, from the first slot on.
#[inline(never)]
fn search_real_time_in(slots: &[Option<Home>], p: SetId) -> Option<usize>
    ensures inside { IfSome result (λ i. i < length slots.now) }
    ensures slot { MatchOption result (IsNoSlot (RealTime p) slots.now) (IsSlot (RealTime p) slots.now) }
{
    search_in(slots, HomeId::RealTime(p))
}

/// The slot in which a chain of turnstiles lies, from the first slot on.
#[inline(never)]
fn search_chain_in(slots: &[Option<Home>], n: u8) -> Option<usize>
    ensures inside { IfSome result (λ i. i < length slots.now) }
    ensures slot { MatchOption result (IsNoSlot (Chain n) slots.now) (IsSlot (Chain n) slots.now) }
{
    search_in(slots, HomeId::Chain(n))
}

/// The slot in which a chain of sleep queues lies, from the first slot on.
#[inline(never)]
fn search_sleepers_in(slots: &[Option<Home>], n: u8) -> Option<usize>
    ensures inside { IfSome result (λ i. i < length slots.now) }
    ensures slot { MatchOption result (IsNoSlot (Sleepers n) slots.now) (IsSlot (Sleepers n) slots.now) }
{
    search_in(slots, HomeId::Sleepers(n))
}

/// Whether the home is of the kind that has such numbers. Where it is known to be, that is said where the home was found, so that the compiler
/// asks no more of which kind it is; it sees that where the number, which it knows, is looked at before the home.
#[inline(always)]
fn is_of_kind(k: HomeId, home: &Home) -> bool
    ensures { home_id home.now ≡ k → result ≡ true }
{
    match (k, home) {
        (HomeId::Cpu(_), Home::Cpu(_)) => true,
        (HomeId::RealTime(_), Home::RealTime(_)) => true,
        (HomeId::Chain(_), Home::Chain(_)) => true,
        (HomeId::Sleepers(_), Home::Sleepers(_)) => true,
        _ => false,
    }
}

/// The list of a home in which the thread stands.
fn stands_in(slot: &Option<Home>, t: ThreadId) -> Option<ListId>
    ensures { MatchOption result (slot_has t.0 slot.now ≡ false) (StandsInSlot t.0 slot.now) }
{
    match slot {
        None => None,
        Some(home) => home.where_is(t),
    }
}

/// The first list of these homes in which the thread stands.
fn where_in(slots: &[Option<Home>], t: ThreadId) -> Option<ListId>
    ensures { MatchOption result (has_thread t.0 slots.now ≡ false) (StandsIn t.0 slots.now) }
{
    for i in 0..slots.len() {
        if let Some(at) = stands_in(&slots[i], t) {
            return Some(at);
        }
    }
    None
}

/// The first slot in which no home lies.
fn free_in(slots: &[Option<Home>]) -> Option<usize>
    ensures { MatchOption result (AreTaken slots.now) (λ i. (i < length slots.now) × (slice_get slots.now i ≡ Some None)) }
{
    for i in 0..slots.len() {
        if slots[i].is_none() {
            return Some(i);
        }
    }
    None
}

/// The number of the first of these homes. `None` exactly where there is none.
fn any_in(slots: &[Option<Home>]) -> Option<HomeId>
    ensures { MatchOption result (how_many_held slots.now ≡ 0) (λ k. IsHeld k slots.now) }
{
    for i in 0..slots.len() {
        if let Some(home) = &slots[i] {
            return Some(home.id());
        }
    }
    None
}

impl Hand {
    /// A hand that holds nothing, with room for four homes.
    pub fn new(alloc: Global) -> Result<Hand, AllocError>
        ensures { IfOk result (λ h. h.slots ≡ None ∷ None ∷ None ∷ None ∷ []) }
    {
        let mut slots = Vec::new(alloc);
        slots.push(None)?;
        slots.push(None)?;
        slots.push(None)?;
        slots.push(None)?;
        Ok(Hand::of(slots, Guide::new(alloc)))
    }

    /// These homes, of which no two have one number, in four slots or more.
    pub fn of(slots: Vec<Option<Home>>, guide: Guide) -> Hand
        requires slots { AreSlots slots.items }
        ensures { result.slots ≡ slots.items }
    {
        let order = order_of(&slots, guide.cpus(), guide.sets());
        Hand {
            slots,
            order,
            guide,
        }
    }

    /// Takes a home, unless one with its number is held or a home lies in each slot: then it is given back.
    pub fn hold(&mut self, home: Home) -> Result<(), Home>
        ensures held { IfOk result (λ _. HoldsMore self.old.slots home self.new.slots) }
        ensures count { IfOk result (λ _. (how_many_held self.new.slots ≡ how_many_held self.old.slots + 1) × (length self.new.slots ≡ length self.old.slots)) }
        ensures refused { IfErr result (λ h. (h ≡ home) × (self.new.slots ≡ self.old.slots) × (IsHeld (home_id home) self.old.slots ⊎ HasNoRoom self.old.slots)) }
    {
        match self.slot_of(home.id()) {
            Some(_) => Err(home),
            None => match free_in(&self.slots) {
                None => Err(home),
                Some(i) => {
                    self.slots[i] = Some(home);
                    Ok(())
                }
            },
        }
    }

    /// Gives out the home with this number. `None` exactly where it is not held.
    pub fn release(&mut self, k: HomeId) -> Option<Home>
        ensures none { IfNone result ((held k self.old.slots ≡ None) × (self.new.slots ≡ self.old.slots)) }
        ensures some { IfSome result (λ h. (home_id h ≡ k) × HoldsMore self.new.slots h self.old.slots) }
        ensures apart { AreApart self.new.slots }
        ensures count { IfSome result (λ h. (how_many_held self.old.slots ≡ how_many_held self.new.slots + 1) × (length self.new.slots ≡ length self.old.slots)) }
    {
        match self.slot_of(k) {
            None => None,
            Some(i) => {
                self.order = Order::none();
                self.slots[i].take()
            }
        }
    }

    /// The number of a home that is held. `None` exactly where none is.
    pub fn any_home(&self) -> Option<HomeId>
        ensures { MatchOption result (how_many_held self.now.slots ≡ 0) (λ k. IsHeld k self.now.slots) }
    {
        any_in(&self.slots)
    }

    /// The slot in which the home of a processor lies.
    #[inline(always)]
    fn slot_of_cpu(&self, c: CpuId) -> Option<usize>
        ensures inside { IfSome result (λ i. i < length self.now.slots) }
        ensures slot { MatchOption result (IsNoSlot (Cpu c) self.now.slots) (IsSlot (Cpu c) self.now.slots) }
    {
        match self.order.slot_of_cpu(c) {
            Some(i) => Some(i),
            None => search_cpu_in(&self.slots, c),
        }
    }

    /// The slot in which the home of a real-time queue lies.
    #[inline(always)]
    fn slot_of_real_time(&self, p: SetId) -> Option<usize>
        ensures inside { IfSome result (λ i. i < length self.now.slots) }
        ensures slot { MatchOption result (IsNoSlot (RealTime p) self.now.slots) (IsSlot (RealTime p) self.now.slots) }
    {
        match self.order.slot_of_real_time(p) {
            Some(i) => Some(i),
            None => search_real_time_in(&self.slots, p),
        }
    }

    /// The slot in which a chain of turnstiles lies.
    #[inline(always)]
    fn slot_of_chain(&self, n: u8) -> Option<usize>
        ensures inside { IfSome result (λ i. i < length self.now.slots) }
        ensures slot { MatchOption result (IsNoSlot (Chain n) self.now.slots) (IsSlot (Chain n) self.now.slots) }
    {
        match self.order.slot_of_chain(n) {
            Some(i) => Some(i),
            None => search_chain_in(&self.slots, n),
        }
    }

    /// The slot in which a chain of sleep queues lies.
    #[inline(always)]
    fn slot_of_sleepers(&self, n: u8) -> Option<usize>
        ensures inside { IfSome result (λ i. i < length self.now.slots) }
        ensures slot { MatchOption result (IsNoSlot (Sleepers n) self.now.slots) (IsSlot (Sleepers n) self.now.slots) }
    {
        match self.order.slot_of_sleepers(n) {
            Some(i) => Some(i),
            None => search_sleepers_in(&self.slots, n),
        }
    }

    /// The slot in which the home with this number lies.
    #[inline(always)]
    fn slot_of(&self, k: HomeId) -> Option<usize>
        ensures inside { IfSome result (λ i. i < length self.now.slots) }
        ensures slot { MatchOption result (IsNoSlot k self.now.slots) (IsSlot k self.now.slots) }
    {
        match k {
            HomeId::Cpu(c) => self.slot_of_cpu(c),
            HomeId::RealTime(p) => self.slot_of_real_time(p),
            HomeId::Chain(n) => self.slot_of_chain(n),
            HomeId::Sleepers(n) => self.slot_of_sleepers(n),
        }
    }

    /// The home with this number, which is lacking where it is not held.
    #[inline(always)]
    pub fn home(&self, k: HomeId) -> Result<&Home, Part>
        ensures { Asks k self.now.slots result (λ h. h.now) (λ h. h) }
    {
        match self.slot_of(k) {
            None => Err(Part::Home(k)),
            Some(i) => {
                known(self.slots[i].is_some());
                match &self.slots[i] {
                    None => unreachable!(),
                    Some(home) => {
                        known(is_of_kind(k, home));
                        Ok(home)
                    }
                }
            }
        }
    }

    /// The list in which the thread may well stand.
    #[inline(always)]
    pub(crate) fn guide_of(&self, t: ThreadId) -> Option<ListId> {
        self.guide.list(t).copied()
    }

    /// The list in which the thread stands, by a search of all homes.
    #[inline(never)]
    pub(crate) fn where_found(&self, t: ThreadId) -> Result<ListId, Part>
        ensures { Seeks t self.now.slots result (StandsIn t.0 self.now.slots) }
    {
        match where_in(&self.slots, t) {
            None => Err(Part::Thread(t)),
            Some(at) => Ok(at),
        }
    }

    /// The list in which the thread stands, which is lacking where no held home has it.
    #[inline(always)]
    pub fn where_is(&self, t: ThreadId) -> Result<ListId, Part>
        ensures { Seeks t self.now.slots result (StandsIn t.0 self.now.slots) }
    {
        if let Some(at) = self.guide.list(t) {
            if self.stands_at(t, at) {
                return Ok(*at);
            }
        }
        self.where_found(t)
    }

    /// The list in which the thread stands, with the thread there, which is looked up once. It is lacking where no held home has it.
    #[inline(always)]
    pub(crate) fn found(&self, t: ThreadId) -> Result<(ListId, Option<&Record>), Part>
        ensures { Seeks t self.now.slots result (λ r. StandsIn t.0 self.now.slots r.0 × (option_copied r.1 ≡ taken_from t.0 r.0 (held (home_at r.0) self.now.slots))) }
    {
        if let Some(at) = self.guide.list(t) {
            if let Some(record) = self.find_at(t, at) {
                return Ok((*at, Some(record)));
            }
        }
        self.found_by_search(t)
    }

    /// The same, by a search of all homes.
    #[inline(never)]
    fn found_by_search(&self, t: ThreadId) -> Result<(ListId, Option<&Record>), Part>
        ensures { Seeks t self.now.slots result (λ r. StandsIn t.0 self.now.slots r.0 × (option_copied r.1 ≡ taken_from t.0 r.0 (held (home_at r.0) self.now.slots))) }
    {
        match self.where_found(t) {
            Err(q) => Err(q),
            Ok(at) => Ok((at, self.find(t, at))),
        }
    }

    /// The thread, which is lacking where no held home has it.
    #[inline(always)]
    pub fn record(&self, t: ThreadId) -> Result<&Record, Part>
        ensures { Seeks t self.now.slots result (λ r. IsThreadHeld t.0 self.now.slots r.now) }
    {
        if let Some(at) = self.guide.list(t) {
            if let Some(record) = self.find_at(t, at) {
                return Ok(record);
            }
        }
        self.search(t)
    }

    /// The same, by a search of all homes.
    #[inline(never)]
    fn search(&self, t: ThreadId) -> Result<&Record, Part>
        ensures { Seeks t self.now.slots result (λ r. IsThreadHeld t.0 self.now.slots r.now) }
    {
        let _slots = &self.slots;
        match self.where_found(t) {
            Err(q) => Err(q),
            Ok(at) => match self.find(t, at) {
                None => Err(Part::Thread(t)),
                Some(record) => Ok(record),
            },
        }
    }

    /// The thread, where it stands there.
    #[inline(always)]
    pub fn find(&self, t: ThreadId, at: ListId) -> Option<&Record>
        ensures { option_copied result ≡ taken_from t.0 at (held (home_at at) self.now.slots) }
    {
        self.find_at(t, &at)
    }

    /// The same of a list that is lent: where the thread runs, nothing is copied.
    #[inline(always)]
    fn find_at(&self, t: ThreadId, at: &ListId) -> Option<&Record>
        ensures { option_copied result ≡ taken_from t.0 at.now (held (home_at at.now) self.now.slots) }
    {
        match at {
            ListId::Runs(c) => self.find_in(t, HomeId::Cpu(*c), ListId::Runs(*c)),
            _ => self.find_listed(t, *at),
        }
    }

    /// Whether the thread stands there. One that naps is mostly known by its bit, and is not sought among the others.
    #[inline(always)]
    fn stands_at(&self, t: ThreadId, at: &ListId) -> bool
        ensures { result ≡ is_some (taken_from t.0 at.now (held (home_at at.now) self.now.slots)) }
    {
        match at {
            ListId::Naps(c) => {
                if self.naps_on(t, *c) {
                    true
                } else {
                    self.find_listed(t, *at).is_some()
                }
            }
            _ => self.find_at(t, at).is_some(),
        }
    }

    /// Whether the thread is known to nap on this processor, without a search. False may also be told of one that naps there.
    #[inline(always)]
    fn naps_on(&self, t: ThreadId, c: CpuId) -> bool
        ensures { result ≡ true → is_some (taken_from t.0 (Naps c) (held (Cpu c) self.now.slots)) ≡ true }
    {
        match self.home(HomeId::Cpu(c)) {
            Err(_) => false,
            Ok(home) => home.naps(t, c),
        }
    }

    /// The thread, if the list is one of those that wait for a lock. One that stands elsewhere is not sought.
    #[inline(always)]
    pub(crate) fn waiting(&self, t: ThreadId, at: ListId) -> Option<&Record>
        ensures { option_copied result ≡ waiting_from t.0 at (held (home_at at) self.now.slots) }
    {
        match at {
            ListId::Waits(_, _) => self.find(t, at),
            _ => None,
        }
    }

    /// The same of any list. The kind of the list is told anew in each arm, so that the compiler sees of which kind the home is.
    fn find_listed(&self, t: ThreadId, at: ListId) -> Option<&Record>
        ensures { option_copied result ≡ taken_from t.0 at (held (home_at at) self.now.slots) }
    {
        match at {
            ListId::Runs(c) => self.find_in(t, HomeId::Cpu(c), ListId::Runs(c)),
            ListId::Queues(c) => self.find_in(t, HomeId::Cpu(c), ListId::Queues(c)),
            ListId::Naps(c) => self.find_in(t, HomeId::Cpu(c), ListId::Naps(c)),
            ListId::Ends(c) => self.find_in(t, HomeId::Cpu(c), ListId::Ends(c)),
            ListId::Urgent(p) => self.find_in(t, HomeId::RealTime(p), ListId::Urgent(p)),
            ListId::Waits(l, side) => self.find_in(t, home_of_lock(l), ListId::Waits(l, side)),
            ListId::Sleeps(k) => self.find_in(t, home_of_chan(k), ListId::Sleeps(k)),
        }
    }

    /// The thread, where it stands in this list of this home.
    #[inline(always)]
    fn find_in(&self, t: ThreadId, k: HomeId, at: ListId) -> Option<&Record>
        ensures { option_copied result ≡ taken_from t.0 at (held k self.now.slots) }
    {
        match self.home(k) {
            Err(_) => None,
            Ok(home) => home.find(t, at),
        }
    }

    /// Takes the thread from the list of those who stand there.
    #[inline(always)]
    pub fn take(&mut self, t: ThreadId, from: ListId) -> Option<Traveller>
        ensures taken { result ≡ taken_from t.0 from (held (home_at from) self.old.slots) }
        ensures rest { self.new.slots ≡ edit (home_at from) (taking t.0 from) self.old.slots }
    {
        if let Some(i) = self.slot_of(home_at(from)) {
            known(self.slots[i].is_some());
            match &mut self.slots[i] {
                None => unreachable!(),
                Some(home) => return home.take(t, from),
            }
        }
        None
    }

    /// Puts the thread into the list of those who stand there. Where the home of that list is not held, the thread is
    /// dropped.
    #[inline(always)]
    pub fn put(&mut self, t: Traveller, at: ListId)
        ensures rest { self.new.slots ≡ edit (home_at at) (putting t at) self.old.slots }
        ensures whole { (h : HomeOf) → held (home_at at) self.old.slots ≡ Some h → IsWhole h }
    {
        self.guide.note(t.id(), at);
        if let Some(i) = self.slot_of(home_at(at)) {
            known(self.slots[i].is_some());
            match &mut self.slots[i] {
                None => unreachable!(),
                Some(home) => {
                    home.is_whole();
                    home.put(t, at);
                }
            }
        }
    }

    /// The body of the thread that runs on processor `c` changes where it stands, if it is this thread, where it can be changed so. Tells
    /// whether it is this thread.
    #[inline(always)]
    pub(crate) fn change_running(
        &mut self,
        work: &Work,
        t: ThreadId,
        c: CpuId,
        change: BodyChange,
    ) -> bool
        ensures runs { result ≡ is_some (taken_from t.0 (Runs c) (held (Cpu c) self.old.slots)) }
        ensures changed { RunsChanged t.0 c (λ r q. CanChangeThread work.now t.0 change r.body → q ≡ with_body_of (changed work.now t.0 change r.body) r) self.old.slots self.new.slots }
    {
        if let Some(i) = self.slot_of(HomeId::Cpu(c)) {
            known(self.slots[i].is_some());
            match &mut self.slots[i] {
                None => unreachable!(),
                Some(home) => {
                    known(is_of_kind(HomeId::Cpu(c), home));
                    return home.change_running(work, t, c, change);
                }
            }
        }
        false
    }

    /// Thread `t`, if it is on the queue of processor `c`, runs there: it goes within its home. Tells whether it is; where it is not, all
    /// stays as it was.
    #[inline(always)]
    pub(crate) fn run_queued(&mut self, t: ThreadId, c: CpuId) -> bool
        ensures queued { result ≡ is_some (taken_from t.0 (Queues c) (held (Cpu c) self.old.slots)) }
        ensures went { GoesWithin t.0 (Queues c) (Runs c) (running_on c) self.old.slots self.new.slots }
    {
        self.guide.note(t, ListId::Runs(c));
        if let Some(i) = self.slot_of(HomeId::Cpu(c)) {
            known(self.slots[i].is_some());
            match &mut self.slots[i] {
                None => unreachable!(),
                Some(home) => {
                    known(is_of_kind(HomeId::Cpu(c), home));
                    return home.run_queued(t, c);
                }
            }
        }
        false
    }

    /// Thread `t`, if it is on the queue of processor `c`, has another class state and key, and goes to its place there by them. Tells whether
    /// it is; where it is not, all stays as it was.
    #[inline(always)]
    pub(crate) fn requeue(&mut self, t: ThreadId, c: CpuId, class: ClassState, key: i64) -> bool
        ensures queued { result ≡ is_some (taken_from t.0 (Queues c) (held (Cpu c) self.old.slots)) }
        ensures went { GoesWithin t.0 (Queues c) (Queues c) (queued_as class key) self.old.slots self.new.slots }
    {
        if let Some(i) = self.slot_of(HomeId::Cpu(c)) {
            known(self.slots[i].is_some());
            match &mut self.slots[i] {
                None => unreachable!(),
                Some(home) => {
                    known(is_of_kind(HomeId::Cpu(c), home));
                    return home.requeue(t, c, class, key);
                }
            }
        }
        false
    }

    /// Changes the marks, the set and the bindings of processor `c`.
    #[inline(always)]
    pub fn set_view(&mut self, c: CpuId, view: CpuView)
        ensures { self.new.slots ≡ edit (Cpu c) (viewing view) self.old.slots }
    {
        if let Some(i) = self.slot_of(HomeId::Cpu(c)) {
            known(self.slots[i].is_some());
            match &mut self.slots[i] {
                None => unreachable!(),
                Some(home) => {
                    known(is_of_kind(HomeId::Cpu(c), home));
                    home.set_view(view);
                }
            }
        }
    }

    /// Changes a lock.
    pub fn set_lock(&mut self, l: LockId, x: LockState)
        ensures { self.new.slots ≡ edit (Chain (l.0 % 64)) (locking l.0 x) self.old.slots }
    {
        if let Some(i) = self.slot_of(home_of_lock(l)) {
            known(self.slots[i].is_some());
            match &mut self.slots[i] {
                None => unreachable!(),
                Some(home) => {
                    known(is_of_kind(home_of_lock(l), home));
                    home.set_lock(l, x);
                }
            }
        }
    }

    /// Changes the count of a channel.
    pub fn set_tokens(&mut self, k: ChanId, n: u32)
        ensures { self.new.slots ≡ edit (Sleepers (k.0 % 64)) (counting k.0 n) self.old.slots }
    {
        if let Some(i) = self.slot_of(home_of_chan(k)) {
            if let Some(home) = &mut self.slots[i] {
                home.set_tokens(k, n);
            }
        }
    }

    /// Processor `c` is one of the open ones of set `p` from now on, unless their list is full.
    pub fn open(&mut self, p: SetId, c: CpuId) -> Result<(), IsFull>
        ensures opened { IfOk result (λ _. self.new.slots ≡ edit (RealTime p) (opened c) self.old.slots) }
        ensures full { IfErr result (λ _. (h : HomeOf) × (held (RealTime p) self.old.slots ≡ Some h) × (length (open_in h) ≡ most_processors) × (self.new.slots ≡ self.old.slots)) }
    {
        if let Some(i) = self.slot_of(HomeId::RealTime(p)) {
            if let Some(home) = &mut self.slots[i] {
                return home.open(c);
            }
        }
        Ok(())
    }

    /// Processor `c` is no more one of the open ones of set `p`.
    pub fn close(&mut self, p: SetId, c: CpuId)
        ensures shut { self.new.slots ≡ edit (RealTime p) (shut c) self.old.slots }
    {
        if let Some(i) = self.slot_of(HomeId::RealTime(p)) {
            if let Some(home) = &mut self.slots[i] {
                home.close(c);
            }
        }
    }
}
