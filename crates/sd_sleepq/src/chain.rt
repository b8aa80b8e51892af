//! The chain: its number, and a ranked queue for each of its four channels.
ghost use Rattle.std.specs.Prelude.{◌≡◌, ◌<◌, [], ◌∷◌, length, slice_get, int_lt, IfSome, MatchOption, None};
ghost use Rattle.std.specs.Option.{option_copied};
ghost use Rattle.sd_boxq.specs.Order.{precedes, insert_ranked, find_id, drop_id, find_below, drop_below, IsBest};
ghost use Rattle.sd_sleepq.specs.Among.{find_among, AreRanked, IsHolder};
ghost use Rattle.sd_sleepq.specs.Sleepers.{IsOfChain, sleepers_of, with_sleepers, Leaves, SleepsThere, AreApart};

use crate::queue::SleepQueue;
use sd_boxq::{Four, Node, Ranked};
use sd_types::ChanId;
use std::marker::Model;

/// The sleepers of the channels below 256 whose numbers modulo 64 are the chain's, each channel's in order
/// of rank and key (Solaris Internals, sleep queues). No call takes memory.
#[derive(Drop)]
pub struct SleepChain<T: Ranked> {
    chain: u8,
    queues: Four<SleepQueue<T>>,
}

impl<T: Ranked> Model for SleepChain<T> {
    ghost use Rattle.std.specs.Prelude.{◌≡◌, ◌<◌, length};
    ghost use Rattle.sd_sleepq.specs.Among.{AreRanked};
    ghost use Rattle.sd_sleepq.specs.Sleepers.{Sleepers};

    ghost Value = { Sleepers T };

    ghost view = { λ a. record { chain = a.chain; queues = a.queues } };

    ghost invariant = { λ a. (a.chain < 64) × (length a.queues ≡ 4) × (AreRanked T.rank T.key a.queues) };
}

// The index of the first queue that has an item with this id.
fn holder_of<T: Ranked>(queues: &Four<SleepQueue<T>>, id: u32) -> Option<usize>
    requires { length queues.now ≡ 4 }
    ensures { MatchOption result (find_among T.id id queues.now ≡ None) (IsHolder T.id id queues.now) }
{
    for index in 0..4 {
        if queues.at(index).find(id).is_some() {
            return Some(index);
        }
    }
    None
}

// The first item whose key is smaller than `below`.
fn first_below<T: Ranked>(queue: &SleepQueue<T>, below: i64) -> Option<&T>
    ensures { option_copied result ≡ find_below T.key below queue.now }
{
    for item in queue.items() {
        if item.key() < below {
            return Some(item);
        }
    }
    None
}

impl<T: Ranked> SleepChain<T> {
    /// A chain of this number, without sleepers.
    pub fn new(chain: u8) -> SleepChain<T>
        requires { chain < 64 }
        ensures { result ≡ record { chain = chain; queues = [] ∷ [] ∷ [] ∷ [] ∷ [] } }
    {
        SleepChain {
            chain,
            queues: Four::new(
                SleepQueue::new(),
                SleepQueue::new(),
                SleepQueue::new(),
                SleepQueue::new(),
            ),
        }
    }

    /// Puts the sleeper on the channel, by its rank and key.
    pub fn sleep(&mut self, k: ChanId, n: Node<T>)
        requires { IsOfChain self.old k.0 }
        ensures { self.new ≡ with_sleepers self.old k.0 (insert_ranked T.rank T.key n (sleepers_of self.old k.0)) }
    {
        let queue = self.queues.at_mut(k.0 as usize / 64);
        queue.insert_ranked(n);
    }

    /// The best of the channel whose key is smaller than `below`: of those the one with the greatest rank,
    /// and of equal ranks the smallest key. `None` exactly where there is none.
    pub fn best(&self, k: ChanId, below: i64) -> Option<&T>
        requires { IsOfChain self.now k.0 }
        ensures value { option_copied result ≡ find_below T.key below (sleepers_of self.now k.0) }
        ensures best { IfSome (option_copied result) (λ x. IsBest (λ y. int_lt (T.key y) below) (precedes T.rank T.key) x (sleepers_of self.now k.0)) }
    {
        first_below(self.queues.at(k.0 as usize / 64), below)
    }

    /// Takes the best of the channel whose key is smaller than `below`, as `best` names it. `None` exactly
    /// where there is none.
    pub fn take_best(&mut self, k: ChanId, below: i64) -> Option<Node<T>>
        requires { IsOfChain self.old k.0 }
        ensures taken { result ≡ find_below T.key below (sleepers_of self.old k.0) }
        ensures rest { self.new ≡ with_sleepers self.old k.0 (drop_below T.key below (sleepers_of self.old k.0)) }
        ensures best { IfSome result (λ n. IsBest (λ x. int_lt (T.key x) below) (precedes T.rank T.key) n (sleepers_of self.old k.0)) }
    {
        let queue = self.queues.at_mut(k.0 as usize / 64);
        queue.take_below(below)
    }

    /// The best of the channel. `None` exactly where nobody sleeps there.
    pub fn first(&self, k: ChanId) -> Option<&T>
        requires { IsOfChain self.now k.0 }
        ensures { option_copied result ≡ slice_get (sleepers_of self.now k.0) 0 }
    {
        self.queues.at(k.0 as usize / 64).first()
    }

    /// The first sleeper with this id on the channel. `None` exactly where there is none.
    pub fn find_at(&self, k: ChanId, id: u32) -> Option<&T>
        requires { IsOfChain self.now k.0 }
        ensures { option_copied result ≡ find_id T.id id (sleepers_of self.now k.0) }
    {
        self.queues.at(k.0 as usize / 64).find(id)
    }

    /// Takes the first sleeper with this id on the channel. `None` exactly where there is none.
    pub fn take_at(&mut self, k: ChanId, id: u32) -> Option<Node<T>>
        requires { IsOfChain self.old k.0 }
        ensures taken { result ≡ find_id T.id id (sleepers_of self.old k.0) }
        ensures rest { self.new ≡ with_sleepers self.old k.0 (drop_id T.id id (sleepers_of self.old k.0)) }
    {
        let queue = self.queues.at_mut(k.0 as usize / 64);
        queue.take_first(id)
    }

    /// The number of the chain, below 64.
    pub fn number(&self) -> u8
        ensures value { result ≡ self.now.chain }
        ensures below { result < 64 }
    {
        self.chain
    }

    /// The channel on which the first sleeper with this id sleeps, by channel. `None` exactly where there is none.
    pub fn place_of(&self, id: u32) -> Option<ChanId>
        ensures { MatchOption result (find_among T.id id self.now.queues ≡ None) (λ k. SleepsThere T.id id self.now k.0) }
    {
        match holder_of(&self.queues, id) {
            None => None,
            Some(index) => Some(ChanId(64 * index as u16 + self.chain as u16)),
        }
    }

    /// The first sleeper with this id, by channel. `None` exactly where there is none.
    pub fn find(&self, id: u32) -> Option<&T>
        ensures value { option_copied result ≡ find_among T.id id self.now.queues }
        ensures order { AreRanked T.rank T.key self.now.queues }
    {
        match holder_of(&self.queues, id) {
            None => None,
            Some(index) => self.queues.at(index).find(id),
        }
    }

    /// Takes the first sleeper with this id, by channel, and tells its channel. `None` exactly where there
    /// is none.
    pub fn take(&mut self, id: u32) -> Option<(ChanId, Node<T>)>
        ensures { MatchOption result ((find_among T.id id self.old.queues ≡ None) × (self.new ≡ self.old)) (λ r. Leaves T.id id self.old r.0.0 r.1 self.new) }
    {
        match holder_of(&self.queues, id) {
            None => None,
            Some(index) => {
                let queue = self.queues.at_mut(index);
                match queue.take_first(id) {
                    None => unreachable!(),
                    Some(n) => Some((ChanId(64 * index as u16 + self.chain as u16), n)),
                }
            }
        }
    }

    /// A law, which does nothing: the number of a chain is below 64, and it has four channels, each in order
    /// of rank and key.
    pub fn has_four_channels(&self)
        ensures number { self.now.chain < 64 }
        ensures four { length self.now.queues ≡ 4 }
        ensures order { AreRanked T.rank T.key self.now.queues }
    {
        let _ = &self.chain;
    }

    /// A law, which does nothing: what is put on one channel stands there, and on no other.
    pub fn channels_are_apart(&self)
        ensures { AreApart self.now }
    {
        let _ = &self.chain;
    }
}
