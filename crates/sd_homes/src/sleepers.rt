//! The home of the channels of one chain of sleep queues.

ghost use Rattle.std.specs.Prelude.{◌≡◌, ◌+◌, ◌/◌, ◌<◌, true, false, get_or, length, set, slice_get, MatchOption};
ghost use Rattle.std.specs.Option.{option_copied};
ghost use Rattle.sd_boxq.specs.Order.{find_below, find_id, drop_id, insert_ranked};
ghost use Rattle.sd_sleepq.specs.Sleepers.{sleepers_of, with_sleepers};
ghost use Rattle.sd_homes.specs.Standing.{id_of, key_in, rank_of};
ghost use Rattle.sd_types.specs.declared.numbers.HomeId.TheVariants.{Sleepers};
ghost use Rattle.sd_homes.specs.Kinds.{IsListed, asleep_has, asleep_list};
ghost use Rattle.sd_homes.specs.Homes.{OfSleepers, empty_sleepers, is_chan_of, with_asleep, with_counts};

use crate::ListId;
use crate::traveller::{Traveller, equipped};
use sd_boxq::Four;
use sd_record::Record;
use sd_sleepq::SleepChain;
use sd_turnstile::Rack;
use sd_types::{ChanId, ThreadId};
use std::marker::Model;

/// A chain of sleep queues, and the counts of its channels, with a spare turnstile for each sleeper.
///
/// Source: Solaris Internals (sleep queues).
#[derive(Drop)]
pub struct SleepersHome {
    sleepers: SleepChain<Record>,
    counts: Four<u32>,
    rack: Rack<Record>,
}

impl Model for SleepersHome {
    ghost use Rattle.std.specs.Prelude.{◌≡◌, length};
    ghost use Rattle.sd_homes.specs.Homes.{OfSleepers, all_asleep};

    ghost Value = { OfSleepers };

    ghost view = { λ h. record { sleepers = h.sleepers; counts = h.counts } };

    ghost invariant = { λ h. (length h.sleepers.queues ≡ 4) × (length h.counts ≡ 4) × (h.rack ≡ all_asleep h.sleepers.queues) };
}

impl SleepersHome {
    /// The home of a chain of this number without sleepers, whose channels have these counts.
    pub fn new(chain: u8, counts: Four<u32>) -> SleepersHome
        requires number { chain < 64 }
        requires counts { length counts ≡ 4 }
        ensures { result ≡ empty_sleepers chain counts }
    {
        SleepersHome {
            sleepers: SleepChain::new(chain),
            counts,
            rack: Rack::new(),
        }
    }

    /// A law, which does nothing: a chain has four channels.
    pub fn has_four_channels(&self)
        ensures { length self.now.sleepers.queues ≡ 4 }
    {
        self.sleepers.has_four_channels();
    }

    /// The number of the chain, below 64.
    #[inline(always)]
    pub fn number(&self) -> u8
        ensures value { result ≡ self.now.sleepers.chain }
        ensures below { result < 64 }
    {
        self.sleepers.number()
    }

    /// Whether the channel is one of this chain.
    #[inline(always)]
    pub fn is_of(&self, k: ChanId) -> bool
        ensures { result ≡ is_chan_of self.now.sleepers k.0 }
    {
        k.0 < 256 && k.0 % 64 == u16::from(self.sleepers.number())
    }

    /// The list in which the thread stands. `None` exactly where it stands in none of this home.
    pub fn where_is(&self, t: ThreadId) -> Option<ListId>
        ensures { MatchOption result (asleep_has t.0 self.now ≡ false) (IsListed t.0 (Sleepers self.now.sleepers.chain) (asleep_list self.now) (asleep_has t.0 self.now)) }
    {
        match self.sleepers.place_of(u32::from(t.0)) {
            None => None,
            Some(k) => Some(ListId::Sleeps(k)),
        }
    }

    /// The count of a channel of this chain.
    #[inline(always)]
    pub fn tokens(&self, k: ChanId) -> u32
        requires { is_chan_of self.now.sleepers k.0 ≡ true }
        ensures { result ≡ get_or self.now.counts (k.0 / 64) 0 }
    {
        *self.counts.at(k.0 as usize / 64)
    }

    /// Changes the count of a channel of this chain.
    pub fn set_tokens(&mut self, k: ChanId, n: u32)
        requires { is_chan_of self.old.sleepers k.0 ≡ true }
        ensures { self.new ≡ with_counts (set self.old.counts (k.0 / 64) n) self.old }
    {
        let count = self.counts.at_mut(k.0 as usize / 64);
        *count = n;
    }

    pub fn best(&self, k: ChanId) -> Option<&Record>
        requires { is_chan_of self.now.sleepers k.0 ≡ true }
        ensures { option_copied result ≡ slice_get (sleepers_of self.now.sleepers k.0) 0 }
    {
        self.sleepers.first(k)
    }

    /// The best sleeper on a channel of this chain with a key below a number.
    pub fn best_below(&self, k: ChanId, below: i64) -> Option<&Record>
        requires { is_chan_of self.now.sleepers k.0 ≡ true }
        ensures { option_copied result ≡ find_below key_in below (sleepers_of self.now.sleepers k.0) }
    {
        self.sleepers.best(k, below)
    }

    pub fn find_sleeper(&self, k: ChanId, t: ThreadId) -> Option<&Record>
        requires { is_chan_of self.now.sleepers k.0 ≡ true }
        ensures { option_copied result ≡ find_id id_of t.0 (sleepers_of self.now.sleepers k.0) }
    {
        self.sleepers.find_at(k, u32::from(t.0))
    }

    /// Takes the first sleeper with this number on a channel of this chain.
    pub fn take_sleeper(&mut self, k: ChanId, t: ThreadId) -> Option<Traveller>
        requires { is_chan_of self.old.sleepers k.0 ≡ true }
        ensures taken { result ≡ find_id id_of t.0 (sleepers_of self.old.sleepers k.0) }
        ensures rest { self.new ≡ with_asleep (with_sleepers self.old.sleepers k.0 (drop_id id_of t.0 (sleepers_of self.old.sleepers k.0))) self.old }
    {
        match self.sleepers.take_at(k, u32::from(t.0)) {
            None => None,
            Some(node) => Some(equipped(node, &mut self.rack)),
        }
    }

    /// Puts the thread on a channel of this chain, by its priority and key.
    pub fn put_sleeper(&mut self, k: ChanId, t: Traveller)
        requires { is_chan_of self.old.sleepers k.0 ≡ true }
        ensures { self.new ≡ with_asleep (with_sleepers self.old.sleepers k.0 (insert_ranked rank_of key_in t (sleepers_of self.old.sleepers k.0))) self.old }
    {
        let (node, own) = t.into_parts();
        self.sleepers.sleep(k, node);
        self.rack.put(own);
    }
}
