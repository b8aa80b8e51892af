//! What the hand tells by asking one of its homes.

ghost use Rattle.std.specs.Prelude.{◌≡◌, ◌≤◌, ◌%◌, ◌++◌, Some, length, option_map, slice_get, IfOk};
ghost use Rattle.std.specs.Option.{option_copied};
ghost use Rattle.sd_types.specs.declared.numbers.HomeId.TheVariants.{Chain, Cpu, RealTime, Sleepers};
ghost use Rattle.sd_types.specs.declared.numbers.Side.TheVariants.{Writer, Reader};
ghost use Rattle.sd_types.specs.Limits.{most_processors};
ghost use Rattle.sd_boxq.specs.Order.{drop_id, find_below, find_first};
ghost use Rattle.sd_turnstile.specs.Waiters.{highest};
ghost use Rattle.sd_record.specs.Records.{ThreadRecord};
ghost use Rattle.sd_machine.specs.Sleeping.{rouse_key};
ghost use Rattle.sd_store.specs.Parts.{number};
ghost use Rattle.sd_homes.specs.declared.list_id.ListId.TheVariants.{Naps, Queues, Sleeps, Urgent, Waits};
ghost use Rattle.sd_homes.specs.Standing.{better, due_of_first, home_at, id_of, is_unbound, key_in, least_to_age, rank_of};
ghost use Rattle.sd_homes.specs.Families.{list_in, lock_in, open_in, tokens_in, view_in};
ghost use Rattle.sd_hand.specs.Hands.{Asks, AsksTwo};

use crate::hand::Hand;
use sd_basics::known;
use sd_homes::{ListId, home_at, is_over};
use sd_record::Record;
use sd_state::LockState;
use sd_store::{CpuView, Part, rouse_key};
use sd_types::{ChanId, CpuId, Duty, HomeId, LockId, SetId, ThreadId, home_of_chan, home_of_lock};

/// The number of a thread that was found.
#[inline(always)]
fn number_of(found: Option<&Record>) -> Option<ThreadId>
    ensures { option_map number result ≡ option_map id_of (option_copied found.entry) }
{
    match found {
        None => None,
        Some(thread) => Some(thread.kept.id),
    }
}

/// The thread, if its nap is over at this count.
#[inline(always)]
fn due(napper: Option<&Record>, count: u32) -> Option<ThreadId>
    ensures { option_map number result ≡ option_map id_of (due_of_first count (option_copied napper.entry)) }
{
    match napper {
        None => None,
        Some(thread) => {
            if is_over(thread, count) {
                Some(thread.kept.id)
            } else {
                None
            }
        }
    }
}

/// The effective priority of a thread that was found.
#[inline(always)]
fn priority_of(found: Option<&Record>) -> Option<u8>
    ensures { result ≡ option_map rank_of (option_copied found.entry) }
{
    match found {
        None => None,
        Some(thread) => Some(thread.effective()),
    }
}

impl Hand {
    /// The first of those who stand there.
    #[inline(always)]
    pub(crate) fn first(&self, at: ListId) -> Result<Option<ThreadId>, Part>
        ensures { Asks (home_at at) self.now.slots result (option_map number) (λ h. option_map id_of (slice_get (list_in h at) 0)) }
    {
        match self.home(home_at(at)) {
            Err(q) => Err(q),
            Ok(home) => Ok(number_of(home.first(at))),
        }
    }

    /// The best on the queue of processor `c` that is bound to no processor.
    #[inline(always)]
    pub(crate) fn first_unbound(&self, c: CpuId) -> Result<Option<ThreadId>, Part>
        ensures { Asks (Cpu c) self.now.slots result (option_map number) (λ h. option_map id_of (find_first is_unbound (list_in h (Queues c)))) }
    {
        match self.home(HomeId::Cpu(c)) {
            Err(q) => Err(q),
            Ok(home) => Ok(number_of(home.best_unbound(c))),
        }
    }

    /// The effective priority of the first of those who stand there.
    #[inline(always)]
    pub(crate) fn first_priority(&self, at: ListId) -> Result<Option<u8>, Part>
        ensures { Asks (home_at at) self.now.slots result (λ p. p) (λ h. option_map rank_of (slice_get (list_in h at) 0)) }
    {
        match self.home(home_at(at)) {
            Err(q) => Err(q),
            Ok(home) => Ok(priority_of(home.first(at))),
        }
    }

    /// The effective priority of the best on the queue of processor `c` that is bound to no processor.
    #[inline(always)]
    pub(crate) fn unbound_priority(&self, c: CpuId) -> Result<Option<u8>, Part>
        ensures { Asks (Cpu c) self.now.slots result (λ p. p) (λ h. option_map rank_of (find_first is_unbound (list_in h (Queues c)))) }
    {
        match self.home(HomeId::Cpu(c)) {
            Err(q) => Err(q),
            Ok(home) => Ok(priority_of(home.best_unbound(c))),
        }
    }

    /// The thread whose nap on processor `c` is over first, where one is over at this count.
    #[inline(always)]
    pub(crate) fn first_due(&self, c: CpuId, count: u32) -> Result<Option<ThreadId>, Part>
        ensures { Asks (Cpu c) self.now.slots result (option_map number) (λ h. option_map id_of (due_of_first count (slice_get (list_in h (Naps c)) 0))) }
    {
        match self.home(HomeId::Cpu(c)) {
            Err(q) => Err(q),
            Ok(home) => Ok(due(home.first(ListId::Naps(c)), count)),
        }
    }

    /// The least number, from `u` on, of a time-sharing thread on the queue of processor `c`.
    pub(crate) fn next_to_age(&self, c: CpuId, u: ThreadId) -> Result<Option<ThreadId>, Part>
        ensures { Asks (Cpu c) self.now.slots result (option_map number) (λ h. least_to_age u.0 (list_in h (Queues c))) }
    {
        match self.home(HomeId::Cpu(c)) {
            Err(q) => Err(q),
            Ok(home) => Ok(home.next_to_age(c, u)),
        }
    }

    /// The best that sleeps on channel `k` with a key below a number.
    pub(crate) fn first_below(&self, k: ChanId, below: i64) -> Result<Option<ThreadId>, Part>
        ensures { Asks (Sleepers (k.0 % 64)) self.now.slots result (option_map number) (λ h. option_map id_of (find_below key_in below (list_in h (Sleeps k)))) }
    {
        match self.home(home_of_chan(k)) {
            Err(q) => Err(q),
            Ok(home) => Ok(number_of(home.best_below(k, below))),
        }
    }

    /// The best on channel `k` of those that a duty is to wake.
    pub(crate) fn first_roused(&self, k: ChanId, duty: Duty) -> Result<Option<ThreadId>, Part>
        ensures { Asks (Sleepers (k.0 % 64)) self.now.slots result (option_map number) (λ h. option_map id_of (find_below key_in (rouse_key duty) (list_in h (Sleeps k)))) }
    {
        self.first_below(k, rouse_key(duty))
    }

    /// The greatest effective priority of the waiters of lock `l`, on both sides.
    pub(crate) fn greatest(&self, l: LockId) -> Result<Option<u8>, Part>
        ensures { Asks (Chain (l.0 % 64)) self.now.slots result (λ n. n) (λ h. highest rank_of (list_in h (Waits l Writer) ++ list_in h (Waits l Reader))) }
    {
        match self.home(home_of_lock(l)) {
            Err(q) => Err(q),
            Ok(home) => Ok(home.greatest(l)),
        }
    }

    /// The same of all but thread `u`.
    pub(crate) fn greatest_but(&self, l: LockId, u: ThreadId) -> Result<Option<u8>, Part>
        ensures { Asks (Chain (l.0 % 64)) self.now.slots result (λ n. n) (λ h. highest rank_of (drop_id id_of u.0 (list_in h (Waits l Writer)) ++ drop_id id_of u.0 (list_in h (Waits l Reader)))) }
    {
        match self.home(home_of_lock(l)) {
            Err(q) => Err(q),
            Ok(home) => Ok(home.greatest_but(l, u)),
        }
    }

    /// The marks, the set and the bindings of processor `c`.
    #[inline(always)]
    pub(crate) fn view(&self, c: CpuId) -> Result<CpuView, Part>
        ensures { Asks (Cpu c) self.now.slots result Some view_in }
    {
        match self.home(HomeId::Cpu(c)) {
            Err(q) => Err(q),
            Ok(home) => {
                let view = home.view();
                known(view.is_some());
                match view {
                    None => unreachable!(),
                    Some(view) => Ok(view),
                }
            }
        }
    }

    /// The state of lock `l`.
    #[inline(always)]
    pub(crate) fn lock(&self, l: LockId) -> Result<LockState, Part>
        ensures { Asks (Chain (l.0 % 64)) self.now.slots result (λ x. x) (lock_in l.0) }
    {
        match self.home(home_of_lock(l)) {
            Err(q) => Err(q),
            Ok(home) => Ok(home.lock(l)),
        }
    }

    /// The count of channel `k`.
    pub(crate) fn tokens(&self, k: ChanId) -> Result<u32, Part>
        ensures { Asks (Sleepers (k.0 % 64)) self.now.slots result (λ n. n) (tokens_in k.0) }
    {
        match self.home(home_of_chan(k)) {
            Err(q) => Err(q),
            Ok(home) => Ok(home.tokens(k)),
        }
    }

    /// The open processors of set `p`, in rising order: at most 64.
    #[inline(always)]
    pub(crate) fn open_cpus(&self, p: SetId) -> Result<&[CpuId], Part>
        ensures value { Asks (RealTime p) self.now.slots result (λ r. r.now) open_in }
        ensures fits { IfOk result (λ r. length r.now ≤ most_processors) }
    {
        match self.home(HomeId::RealTime(p)) {
            Err(q) => Err(q),
            Ok(home) => Ok(home.open_cpus()),
        }
    }

    /// The better of the best of processor `c` and the best real-time thread of partition `p`: the latter, where priorities
    /// are equal.
    #[inline(always)]
    pub(crate) fn better(&self, c: CpuId, p: SetId) -> Result<Option<ThreadId>, Part>
        ensures { AsksTwo (Cpu c) (RealTime p) self.now.slots result (option_map number) (λ h g. option_map id_of (better (slice_get (list_in h (Queues c)) 0) (slice_get (list_in g (Urgent p)) 0))) }
    {
        match self.better_record(c, p) {
            Err(q) => Err(q),
            Ok(found) => Ok(number_of(found)),
        }
    }

    /// The record of that thread, where it stands.
    #[inline(always)]
    pub(crate) fn better_record(&self, c: CpuId, p: SetId) -> Result<Option<&Record>, Part>
        ensures { AsksTwo (Cpu c) (RealTime p) self.now.slots result (λ r. option_copied r) (λ h g. better (slice_get (list_in h (Queues c)) 0) (slice_get (list_in g (Urgent p)) 0)) }
    {
        match self.home(HomeId::Cpu(c)) {
            Err(q) => Err(q),
            Ok(home) => match self.home(HomeId::RealTime(p)) {
                Err(q) => Err(q),
                Ok(urgent) => Ok(better(
                    home.first(ListId::Queues(c)),
                    urgent.first(ListId::Urgent(p)),
                )),
            },
        }
    }
}

/// The better of two that are the best of a processor and of the real-time queue: the latter, where priorities are equal.
#[inline(always)]
fn better<'a>(own: Option<&'a Record>, urgent: Option<&'a Record>) -> Option<&'a Record>
    ensures { option_copied result ≡ better (option_copied own.entry) (option_copied urgent.entry) }
{
    match (own, urgent) {
        (None, None) => None,
        (Some(r), None) => Some(r),
        (None, Some(q)) => Some(q),
        (Some(r), Some(q)) => {
            if q.effective() < r.effective() {
                Some(r)
            } else {
                Some(q)
            }
        }
    }
}
