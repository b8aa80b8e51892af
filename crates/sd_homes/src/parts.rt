//! What a home tells and keeps beside the order of its threads.

ghost use Rattle.std.specs.Prelude.{◌≡◌, ◌≤◌, [], ◌++◌, length, option_map, IfErr, IfOk, MatchOption};
ghost use Rattle.std.specs.Option.{option_copied};
ghost use Rattle.sd_boxq.specs.Order.{drop_id, find_below, find_first};
ghost use Rattle.sd_homes.specs.declared.list_id.ListId.TheVariants.{Ends, Queues, Sleeps, Waits};
ghost use Rattle.sd_homes.specs.Standing.{id_of, is_unbound, key_in, least_to_age, rank_of};
ghost use Rattle.sd_types.specs.declared.numbers.Side.TheVariants.{Writer, Reader};
ghost use Rattle.sd_types.specs.Limits.{most_processors};
ghost use Rattle.sd_turnstile.specs.Waiters.{highest};
ghost use Rattle.sd_homes.specs.Families.{counting, list_in, lock_in, locking, open_in, opened, shut, tokens_in, view_in, viewing};

use crate::home::Home;
use crate::real_time::IsFull;
use sd_boxq::BoxQueue;
use sd_record::Record;
use sd_state::LockState;
use sd_store::CpuView;
use sd_types::{ChanId, CpuId, LockId, ThreadId};

impl Home {
    /// The best thread on the queue of processor `c` that is bound to no processor.
    #[inline(always)]
    pub fn best_unbound(&self, c: CpuId) -> Option<&Record>
        ensures { option_copied result ≡ find_first is_unbound (list_in self.now (Queues c)) }
    {
        match self {
            Home::Cpu(h) => h.get().best_unbound(),
            _ => None,
        }
    }

    /// The least number, from `u` on, of a time-sharing thread on the queue of processor `c`.
    pub fn next_to_age(&self, c: CpuId, u: ThreadId) -> Option<ThreadId>
        ensures { option_map (λ t. t.0) result ≡ least_to_age u.0 (list_in self.now (Queues c)) }
    {
        match self {
            Home::Cpu(h) => h.get().next_to_age(u),
            _ => None,
        }
    }

    /// The threads that have ended on processor `c`. `None` only where there is none.
    pub fn ended(&self, c: CpuId) -> Option<&BoxQueue<Record>>
        ensures { MatchOption result (list_in self.now (Ends c) ≡ []) (λ threads. threads.now ≡ list_in self.now (Ends c)) }
    {
        match self {
            Home::Cpu(h) => Some(h.get().ended()),
            _ => None,
        }
    }

    /// The greatest effective priority of the waiters of a lock, on both sides.
    pub fn greatest(&self, l: LockId) -> Option<u8>
        ensures { result ≡ highest rank_of (list_in self.now (Waits l Writer) ++ list_in self.now (Waits l Reader)) }
    {
        match self {
            Home::Chain(h) => {
                if h.get().is_of(l) {
                    h.get().greatest(l)
                } else {
                    None
                }
            }
            _ => None,
        }
    }

    /// The same of all but thread `u`.
    pub fn greatest_but(&self, l: LockId, u: ThreadId) -> Option<u8>
        ensures { result ≡ highest rank_of (drop_id id_of u.0 (list_in self.now (Waits l Writer)) ++ drop_id id_of u.0 (list_in self.now (Waits l Reader))) }
    {
        match self {
            Home::Chain(h) => {
                if h.get().is_of(l) {
                    h.get().greatest_but(l, u)
                } else {
                    None
                }
            }
            _ => None,
        }
    }

    /// The best that sleeps on a channel with a key below a number.
    pub fn best_below(&self, k: ChanId, below: i64) -> Option<&Record>
        ensures { option_copied result ≡ find_below key_in below (list_in self.now (Sleeps k)) }
    {
        match self {
            Home::Sleepers(h) => {
                if h.get().is_of(k) {
                    h.get().best_below(k, below)
                } else {
                    None
                }
            }
            _ => None,
        }
    }

    /// The marks, the set and the bindings of a processor, where the home is that of one.
    #[inline(always)]
    pub fn view(&self) -> Option<CpuView>
        ensures { result ≡ view_in self.now }
    {
        match self {
            Home::Cpu(h) => Some(h.get().view()),
            _ => None,
        }
    }

    /// Changes the marks, the set and the bindings of a processor.
    #[inline(always)]
    pub fn set_view(&mut self, view: CpuView)
        ensures { self.new ≡ viewing view self.old }
    {
        match self {
            Home::Cpu(h) => h.get_mut().set_view(view),
            _ => {}
        }
    }

    /// The open processors of a set, in rising order: at most 64.
    #[inline(always)]
    pub fn open_cpus(&self) -> &[CpuId]
        ensures value { result.now ≡ open_in self.now }
        ensures fits { length result.now ≤ most_processors }
    {
        match self {
            Home::RealTime(h) => h.get().open_cpus(),
            _ => &[],
        }
    }

    /// Processor `c` is one of the open ones of a set from now on, unless their list is full.
    pub fn open(&mut self, c: CpuId) -> Result<(), IsFull>
        ensures opened { IfOk result (λ _. self.new ≡ opened c self.old) }
        ensures full { IfErr result (λ _. (length (open_in self.old) ≡ most_processors) × (self.new ≡ self.old)) }
    {
        match self {
            Home::RealTime(h) => h.get_mut().open(c),
            _ => Ok(()),
        }
    }

    /// Processor `c` is no more one of the open ones of a set.
    pub fn close(&mut self, c: CpuId)
        ensures shut { self.new ≡ shut c self.old }
    {
        match self {
            Home::RealTime(h) => h.get_mut().close(c),
            _ => {}
        }
    }

    /// The state of a lock.
    pub fn lock(&self, l: LockId) -> LockState
        ensures { result ≡ lock_in l.0 self.now }
    {
        match self {
            Home::Chain(h) => {
                if h.get().is_of(l) {
                    h.get().lock(l)
                } else {
                    LockState::Free
                }
            }
            _ => LockState::Free,
        }
    }

    /// Changes a lock.
    pub fn set_lock(&mut self, l: LockId, x: LockState)
        ensures { self.new ≡ locking l.0 x self.old }
    {
        match self {
            Home::Chain(h) => {
                if h.get().is_of(l) {
                    h.get_mut().set_lock(l, x);
                }
            }
            _ => {}
        }
    }

    /// The count of a channel.
    pub fn tokens(&self, k: ChanId) -> u32
        ensures { result ≡ tokens_in k.0 self.now }
    {
        match self {
            Home::Sleepers(h) => {
                if h.get().is_of(k) {
                    h.get().tokens(k)
                } else {
                    0
                }
            }
            _ => 0,
        }
    }

    /// Changes the count of a channel.
    pub fn set_tokens(&mut self, k: ChanId, n: u32)
        ensures { self.new ≡ counting k.0 n self.old }
    {
        match self {
            Home::Sleepers(h) => {
                if h.get().is_of(k) {
                    h.get_mut().set_tokens(k, n);
                }
            }
            _ => {}
        }
    }
}
