//! One home, of any kind.

ghost use Rattle.std.specs.Prelude.{◌≡◌, false, true, is_some, slice_get, MatchOption};
ghost use Rattle.std.specs.Option.{option_copied};
ghost use Rattle.sd_boxq.specs.Order.{find_id, drop_id};
ghost use Rattle.sd_homes.specs.Standing.{home_at, id_of, insert_at};
ghost use Rattle.sd_record.specs.Records.{ThreadRecord};
ghost use Rattle.sd_store.specs.Bodies.{changed};
ghost use Rattle.sd_homes.specs.declared.list_id.ListId.TheVariants.{Naps, Queues, Runs};
ghost use Rattle.sd_homes.specs.Bodies.{CanChangeThread};
ghost use Rattle.sd_homes.specs.Families.{IsWhole, has, home_id, list_in, putting, same_home, taking, with_list};
ghost use Rattle.sd_homes.specs.Homes.{queued_as, running_on, with_body_of};
ghost use Rattle.sd_homes.specs.Kinds.{IsListed};

use crate::ListId;
use crate::chain::ChainHome;
use crate::cpu::CpuHome;
use crate::real_time::RealTimeHome;
use crate::sleepers::SleepersHome;
use crate::traveller::Traveller;
use sd_boxq::Boxed;
use sd_record::Record;
use sd_store::BodyChange;
use sd_types::{ClassState, CpuId, HomeId, ThreadId, Work, home_of_chan, home_of_lock};

/// A home, behind a box: it moves by its address.
#[derive(Drop)]
pub enum Home {
    Cpu(Boxed<CpuHome>),
    RealTime(Boxed<RealTimeHome>),
    Chain(Boxed<ChainHome>),
    Sleepers(Boxed<SleepersHome>),
}

/// Whether these are the numbers of one home.
#[inline(always)]
pub fn same_home(a: HomeId, b: HomeId) -> bool
    ensures { result ≡ same_home a b }
{
    match (a, b) {
        (HomeId::Cpu(c), HomeId::Cpu(d)) => c.0 == d.0,
        (HomeId::RealTime(p), HomeId::RealTime(q)) => p.0 == q.0,
        (HomeId::Chain(i), HomeId::Chain(j)) => i == j,
        (HomeId::Sleepers(i), HomeId::Sleepers(j)) => i == j,
        _ => false,
    }
}

/// The home of those who stand there.
#[inline(always)]
pub fn home_at(at: ListId) -> HomeId
    ensures { result ≡ home_at at }
{
    match at {
        ListId::Runs(c) => HomeId::Cpu(c),
        ListId::Queues(c) => HomeId::Cpu(c),
        ListId::Naps(c) => HomeId::Cpu(c),
        ListId::Ends(c) => HomeId::Cpu(c),
        ListId::Urgent(p) => HomeId::RealTime(p),
        ListId::Waits(l, _) => home_of_lock(l),
        ListId::Sleeps(k) => home_of_chan(k),
    }
}

impl Home {
    /// A law, which does nothing: a chain has four locks or four channels.
    pub fn is_whole(&self)
        ensures { IsWhole self.now }
    {
        match self {
            Home::Cpu(_) => {}
            Home::RealTime(_) => {}
            Home::Chain(h) => h.get().has_four_locks(),
            Home::Sleepers(h) => h.get().has_four_channels(),
        }
    }

    #[inline(always)]
    pub fn id(&self) -> HomeId
        ensures { result ≡ home_id self.now }
    {
        match self {
            Home::Cpu(h) => HomeId::Cpu(h.get().cpu()),
            Home::RealTime(h) => HomeId::RealTime(h.get().set()),
            Home::Chain(h) => HomeId::Chain(h.get().number()),
            Home::Sleepers(h) => HomeId::Sleepers(h.get().number()),
        }
    }

    /// The list in which the thread stands. `None` exactly where it stands in none of this home.
    pub fn where_is(&self, t: ThreadId) -> Option<ListId>
        ensures { MatchOption result (has t.0 self.now ≡ false) (IsListed t.0 (home_id self.now) (list_in self.now) (has t.0 self.now)) }
    {
        match self {
            Home::Cpu(h) => h.get().where_is(t),
            Home::RealTime(h) => h.get().where_is(t),
            Home::Chain(h) => h.get().where_is(t),
            Home::Sleepers(h) => h.get().where_is(t),
        }
    }

    /// The first of those who stand there.
    #[inline(always)]
    pub fn first(&self, at: ListId) -> Option<&Record>
        ensures { option_copied result ≡ slice_get (list_in self.now at) 0 }
    {
        match self {
            Home::Cpu(h) => match at {
                ListId::Runs(_) => h.get().running(),
                ListId::Queues(_) => h.get().best(),
                ListId::Naps(_) => h.get().first_napper(),
                ListId::Ends(_) => h.get().first_ended(),
                _ => None,
            },
            Home::RealTime(h) => match at {
                ListId::Urgent(_) => h.get().best(),
                _ => None,
            },
            Home::Chain(h) => match at {
                ListId::Waits(l, side) => {
                    if h.get().is_of(l) {
                        h.get().best(l, side)
                    } else {
                        None
                    }
                }
                _ => None,
            },
            Home::Sleepers(h) => match at {
                ListId::Sleeps(k) => {
                    if h.get().is_of(k) {
                        h.get().best(k)
                    } else {
                        None
                    }
                }
                _ => None,
            },
        }
    }

    /// The thread, where it stands there.
    #[inline(always)]
    pub fn find(&self, t: ThreadId, at: ListId) -> Option<&Record>
        ensures { option_copied result ≡ find_id id_of t.0 (list_in self.now at) }
    {
        match self {
            Home::Cpu(h) => match at {
                ListId::Runs(_) => h.get().find_running(t),
                ListId::Queues(_) => h.get().find_queued(t),
                ListId::Naps(_) => h.get().find_napper(t),
                ListId::Ends(_) => h.get().find_ended(t),
                _ => None,
            },
            Home::RealTime(h) => match at {
                ListId::Urgent(_) => h.get().find_queued(t),
                _ => None,
            },
            Home::Chain(h) => match at {
                ListId::Waits(l, side) => {
                    if h.get().is_of(l) {
                        h.get().find_waiter(l, side, t)
                    } else {
                        None
                    }
                }
                _ => None,
            },
            Home::Sleepers(h) => match at {
                ListId::Sleeps(k) => {
                    if h.get().is_of(k) {
                        h.get().find_sleeper(k, t)
                    } else {
                        None
                    }
                }
                _ => None,
            },
        }
    }

    /// Whether the thread is known to nap on this processor, without a search. False may also be told of one that naps.
    #[inline(always)]
    pub fn naps(&self, t: ThreadId, c: CpuId) -> bool
        ensures { result ≡ true → is_some (find_id id_of t.0 (list_in self.now (Naps c))) ≡ true }
    {
        match self {
            Home::Cpu(h) => h.get().naps(t),
            _ => false,
        }
    }

    /// The body of the thread that runs here changes where it stands, if the thread has this number, where it can be changed so. Tells
    /// whether it has.
    #[inline(always)]
    pub fn change_running(&mut self, work: &Work, t: ThreadId, c: CpuId, change: BodyChange) -> bool
        ensures runs { result ≡ is_some (find_id id_of t.0 (list_in self.old (Runs c))) }
        ensures changed { MatchOption (find_id id_of t.0 (list_in self.old (Runs c))) (self.new ≡ self.old) (λ r. (q : ThreadRecord) × (self.new ≡ putting q (Runs c) (taking t.0 (Runs c) self.old)) × (q.id ≡ r.id)
            × (CanChangeThread work.now t.0 change r.body → q ≡ with_body_of (changed work.now t.0 change r.body) r)) }
    {
        match self {
            Home::Cpu(h) => h.get_mut().change_running(work, t, change),
            _ => false,
        }
    }

    /// The thread, if it is on the queue of this processor, runs here. Tells whether it is.
    #[inline(always)]
    pub fn run_queued(&mut self, t: ThreadId, c: CpuId) -> bool
        ensures queued { result ≡ is_some (find_id id_of t.0 (list_in self.old (Queues c))) }
        ensures runs { MatchOption (find_id id_of t.0 (list_in self.old (Queues c))) (self.new ≡ self.old)
            (λ r. self.new ≡ putting (running_on c r) (Runs c) (taking t.0 (Queues c) self.old)) }
    {
        match self {
            Home::Cpu(h) => h.get_mut().run_queued(t, c),
            _ => false,
        }
    }

    /// The thread, if it is on the queue of this processor, has another class state and key, and goes to its place by them. Tells whether it
    /// is.
    #[inline(always)]
    pub fn requeue(&mut self, t: ThreadId, c: CpuId, class: ClassState, key: i64) -> bool
        ensures queued { result ≡ is_some (find_id id_of t.0 (list_in self.old (Queues c))) }
        ensures moved { MatchOption (find_id id_of t.0 (list_in self.old (Queues c))) (self.new ≡ self.old)
            (λ r. self.new ≡ putting (queued_as class key r) (Queues c) (taking t.0 (Queues c) self.old)) }
    {
        match self {
            Home::Cpu(h) => h.get_mut().requeue(t, class, key),
            _ => false,
        }
    }

    /// Takes the thread from the list of those who stand there.
    #[inline(always)]
    pub fn take(&mut self, t: ThreadId, from: ListId) -> Option<Traveller>
        ensures taken { result ≡ find_id id_of t.0 (list_in self.old from) }
        ensures rest { self.new ≡ with_list self.old from (drop_id id_of t.0 (list_in self.old from)) }
    {
        match self {
            Home::Cpu(h) => match from {
                ListId::Runs(_) => h.get_mut().take_running(t),
                ListId::Queues(_) => h.get_mut().take_queued(t),
                ListId::Naps(_) => h.get_mut().take_napper(t),
                ListId::Ends(_) => h.get_mut().take_ended(t),
                _ => None,
            },
            Home::RealTime(h) => match from {
                ListId::Urgent(_) => h.get_mut().take_queued(t),
                _ => None,
            },
            Home::Chain(h) => match from {
                ListId::Waits(l, side) => {
                    if h.get().is_of(l) {
                        h.get_mut().take_waiter(l, side, t)
                    } else {
                        None
                    }
                }
                _ => None,
            },
            Home::Sleepers(h) => match from {
                ListId::Sleeps(k) => {
                    if h.get().is_of(k) {
                        h.get_mut().take_sleeper(k, t)
                    } else {
                        None
                    }
                }
                _ => None,
            },
        }
    }

    /// Puts the thread into the list of those who stand there.
    #[inline(always)]
    pub fn put(&mut self, t: Traveller, at: ListId)
        ensures { self.new ≡ with_list self.old at (insert_at at t (list_in self.old at)) }
    {
        match self {
            Home::Cpu(h) => match at {
                ListId::Runs(_) => h.get_mut().put_running(t),
                ListId::Queues(_) => h.get_mut().put_queued(t),
                ListId::Naps(_) => h.get_mut().put_napper(t),
                ListId::Ends(_) => h.get_mut().put_ended(t),
                _ => {}
            },
            Home::RealTime(h) => match at {
                ListId::Urgent(_) => h.get_mut().put_queued(t),
                _ => {}
            },
            Home::Chain(h) => match at {
                ListId::Waits(l, side) => {
                    if h.get().is_of(l) {
                        h.get_mut().put_waiter(l, side, t);
                    }
                }
                _ => {}
            },
            Home::Sleepers(h) => match at {
                ListId::Sleeps(k) => {
                    if h.get().is_of(k) {
                        h.get_mut().put_sleeper(k, t);
                    }
                }
                _ => {}
            },
        }
    }
}
