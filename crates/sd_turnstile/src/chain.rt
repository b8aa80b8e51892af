//! The chain of turnstiles: its number, the turnstile that serves each lock, and the free ones.
ghost use Rattle.std.specs.Prelude.{◌≡◌, ◌<◌, ◌^◌, [], ◌∷◌, length, slice_get, drop, IfSome, MatchOption, None, true};
ghost use Rattle.std.specs.Option.{option_copied, option_map};
ghost use Rattle.sd_boxq.specs.Order.{precedes, insert_ranked, find_id, drop_id, IsRanked, IsBest};
ghost use Rattle.sd_turnstile.specs.Waiters.{nobody, IsIdle, IsOfChain, of_lock, waiters_at, with_waiters, waiter_count, highest_waiter, without_id, find_among, Leaves, WaitsThere, AreRanked, AreApart};
ghost use Rattle.sd_turnstile.specs.Serving.{all_served, IsHolder};

use crate::rack::Rack;
use crate::serving::{blocked, fill, released};
use crate::turnstile::Turnstile;
use sd_boxq::{Four, Node, Ranked};
use sd_types::{LockId, Side};
use std::marker::Model;

/// The waiters of the locks below 256 whose numbers modulo 64 are the chain's, each side's in order of
/// rank and key (Solaris Internals, turnstiles). No call takes memory.
///
/// The chain has as many turnstiles as waiters: the first waiter's serves its lock, later ones are free,
/// and each waiter that leaves takes one along (this project's own).
#[derive(Drop)]
pub struct TurnstileChain<T: Ranked> {
    chain: u8,
    locks: Four<Option<Turnstile<T>>>,
    free: Rack<T>,
}

impl<T: Ranked> Model for TurnstileChain<T> {
    ghost use Rattle.std.specs.Prelude.{◌≡◌, ◌<◌, ◌+◌, length};
    ghost use Rattle.sd_turnstile.specs.Waiters.{Blocked};
    ghost use Rattle.sd_turnstile.specs.Serving.{all_served, AreServed, all_held, all_waiting};

    ghost Value = { Blocked T };

    ghost view = { λ a. record { chain = a.chain; locks = all_served a.locks } };

    ghost invariant = { λ a. (a.chain < 64) × (length a.locks ≡ 4) × (AreServed T.rank T.key a.locks) × (all_held a.locks + a.free ≡ all_waiting a.locks) };
}

// The lock and the side at which the first waiter with this id waits.
fn holder_of<T: Ranked>(locks: &Four<Option<Turnstile<T>>>, id: u32) -> Option<(usize, Side)>
    requires { length locks.now ≡ 4 }
    ensures { MatchOption result (find_among T.id id (all_served locks.now) ≡ None) (λ r. IsHolder T.id id locks.now r.0 r.1) }
{
    for index in 0..4 {
        if let Some(turnstile) = locks.at(index) {
            if let Some(side) = turnstile.side_of(id) {
                return Some((index, side));
            }
        }
    }
    None
}

impl<T: Ranked> TurnstileChain<T> {
    /// A chain of this number, without waiters.
    pub fn new(chain: u8) -> TurnstileChain<T>
        requires { chain < 64 }
        ensures { result ≡ record { chain = chain; locks = nobody ∷ nobody ∷ nobody ∷ nobody ∷ [] } }
    {
        TurnstileChain {
            chain,
            locks: Four::new(None, None, None, None),
            free: Rack::new(),
        }
    }

    /// Puts the waiter on its side of the lock, by its rank and key. Its turnstile serves the lock, or goes
    /// to the free ones where one serves it already.
    pub fn block(&mut self, l: LockId, side: Side, n: Node<T>, own: Turnstile<T>)
        requires of_chain { IsOfChain self.old l.0 }
        requires idle { IsIdle own }
        ensures { self.new ≡ with_waiters self.old l.0 side (insert_ranked T.rank T.key n (waiters_at self.old l.0 side)) }
    {
        let slot = self.locks.at_mut(l.0 as usize / 64);
        let turnstile = blocked(slot.take(), &mut self.free, side, n, own);
        fill(slot, Some(turnstile));
    }

    /// The number of waiters of the lock, on both sides.
    pub fn waiters(&self, l: LockId) -> usize
        requires of_chain { IsOfChain self.now l.0 }
        requires count { waiter_count (of_lock self.now l.0) < 2 ^ 32 }
        ensures { result ≡ waiter_count (of_lock self.now l.0) }
    {
        match self.locks.at(l.0 as usize / 64) {
            None => 0,
            Some(turnstile) => turnstile.len(),
        }
    }

    /// The greatest rank of the waiters of the lock. `None` exactly where there is no waiter.
    pub fn greatest(&self, l: LockId) -> Option<u8>
        requires { IsOfChain self.now l.0 }
        ensures { result ≡ highest_waiter T.rank (of_lock self.now l.0) }
    {
        match self.locks.at(l.0 as usize / 64) {
            None => None,
            Some(turnstile) => turnstile.greatest(),
        }
    }

    /// The greatest rank of the waiters of the lock once the first one with this id has left each side. `None` exactly
    /// where nobody else waits.
    pub fn greatest_but(&self, l: LockId, id: u32) -> Option<u8>
        requires { IsOfChain self.now l.0 }
        ensures { result ≡ highest_waiter T.rank (without_id T.id id (of_lock self.now l.0)) }
    {
        match self.locks.at(l.0 as usize / 64) {
            None => None,
            Some(turnstile) => turnstile.greatest_but(id),
        }
    }

    /// The best waiter at a side of the lock: the greatest rank, and of equal ranks the smallest key. `None`
    /// exactly where there is none.
    pub fn best(&self, l: LockId, side: Side) -> Option<&T>
        requires { IsOfChain self.now l.0 }
        ensures value { option_copied result ≡ slice_get (waiters_at self.now l.0 side) 0 }
        ensures order { IsRanked T.rank T.key (waiters_at self.now l.0 side) }
        ensures best { IfSome (option_copied result) (λ x. IsBest (λ _. true) (precedes T.rank T.key) x (waiters_at self.now l.0 side)) }
    {
        match self.locks.at(l.0 as usize / 64) {
            None => None,
            Some(turnstile) => turnstile.first(side),
        }
    }

    /// Takes the best waiter at a side of the lock, with a turnstile whose queues are empty. `None` exactly
    /// where there is none.
    pub fn take_best(&mut self, l: LockId, side: Side) -> Option<(Node<T>, Turnstile<T>)>
        requires { IsOfChain self.old l.0 }
        ensures taken { option_map (λ r. r.0) result ≡ slice_get (waiters_at self.old l.0 side) 0 }
        ensures rest { self.new ≡ with_waiters self.old l.0 side (drop 1 (waiters_at self.old l.0 side)) }
        ensures turnstile { IfSome result (λ r. IsIdle r.1) }
        ensures best { IfSome result (λ r. IsBest (λ _. true) (precedes T.rank T.key) r.0 (waiters_at self.old l.0 side)) }
    {
        let slot = self.locks.at_mut(l.0 as usize / 64);
        match slot.take() {
            None => None,
            Some(mut turnstile) => match turnstile.pop(side) {
                None => {
                    fill(slot, Some(turnstile));
                    None
                }
                Some(n) => {
                    let (serving, own) = released(turnstile, &mut self.free);
                    fill(slot, serving);
                    Some((n, own))
                }
            },
        }
    }

    /// Takes the first waiter with this id at a side of the lock, with a turnstile whose queues are empty. `None`
    /// exactly where there is none.
    pub fn take_at(&mut self, l: LockId, side: Side, id: u32) -> Option<(Node<T>, Turnstile<T>)>
        requires { IsOfChain self.old l.0 }
        ensures taken { option_map (λ r. r.0) result ≡ find_id T.id id (waiters_at self.old l.0 side) }
        ensures rest { self.new ≡ with_waiters self.old l.0 side (drop_id T.id id (waiters_at self.old l.0 side)) }
        ensures turnstile { IfSome result (λ r. IsIdle r.1) }
    {
        let slot = self.locks.at_mut(l.0 as usize / 64);
        match slot.take() {
            None => None,
            Some(mut turnstile) => match turnstile.take_first(side, id) {
                None => {
                    fill(slot, Some(turnstile));
                    None
                }
                Some(n) => {
                    let (serving, own) = released(turnstile, &mut self.free);
                    fill(slot, serving);
                    Some((n, own))
                }
            },
        }
    }

    /// The first waiter with this id at a side of the lock. `None` exactly where there is none.
    pub fn find_at(&self, l: LockId, side: Side, id: u32) -> Option<&T>
        requires { IsOfChain self.now l.0 }
        ensures { option_copied result ≡ find_id T.id id (waiters_at self.now l.0 side) }
    {
        match self.locks.at(l.0 as usize / 64) {
            None => None,
            Some(turnstile) => turnstile.find(side, id),
        }
    }

    /// The number of the chain, below 64.
    pub fn number(&self) -> u8
        ensures value { result ≡ self.now.chain }
        ensures below { result < 64 }
    {
        self.chain
    }

    /// The lock and the side at which the first waiter with this id waits, by lock, and of one lock the writers before
    /// the readers. `None` exactly where there is none.
    pub fn place_of(&self, id: u32) -> Option<(LockId, Side)>
        ensures { MatchOption result (find_among T.id id self.now.locks ≡ None) (λ r. WaitsThere T.id id self.now r.0.0 r.1) }
    {
        match holder_of(&self.locks, id) {
            None => None,
            Some((index, side)) => Some((LockId(64 * index as u16 + self.chain as u16), side)),
        }
    }

    /// The first waiter with this id, by lock, and of one lock the writers before the readers. `None` exactly
    /// where there is none.
    pub fn find(&self, id: u32) -> Option<&T>
        ensures { option_copied result ≡ find_among T.id id self.now.locks }
    {
        match holder_of(&self.locks, id) {
            None => None,
            Some((index, side)) => match self.locks.at(index) {
                None => None,
                Some(turnstile) => turnstile.find(side, id),
            },
        }
    }

    /// Takes the first waiter with this id, with its lock, its side, and a turnstile whose queues are empty.
    /// `None` exactly where there is none.
    pub fn take(&mut self, id: u32) -> Option<(LockId, Side, Node<T>, Turnstile<T>)>
        ensures taken { MatchOption result ((find_among T.id id self.old.locks ≡ None) × (self.new ≡ self.old)) (λ r. Leaves T.id id self.old r.0.0 r.1 r.2 self.new) }
        ensures turnstile { IfSome result (λ r. IsIdle r.3) }
    {
        match holder_of(&self.locks, id) {
            None => None,
            Some((index, side)) => {
                let slot = self.locks.at_mut(index);
                match slot.take() {
                    None => unreachable!(),
                    Some(mut turnstile) => match turnstile.take_first(side, id) {
                        None => unreachable!(),
                        Some(n) => {
                            let (serving, own) = released(turnstile, &mut self.free);
                            fill(slot, serving);
                            let lock = LockId(64 * index as u16 + self.chain as u16);
                            Some((lock, side, n, own))
                        }
                    },
                }
            }
        }
    }

    /// A law, which does nothing: the number of a chain is below 64, it has four locks, and each side of
    /// each is in order of rank and key.
    pub fn has_four_locks(&self)
        ensures number { self.now.chain < 64 }
        ensures four { length self.now.locks ≡ 4 }
        ensures order { AreRanked T.rank T.key self.now }
    {
        let _ = &self.chain;
    }

    /// A law, which does nothing: who is put at a side of a lock waits there, and nowhere else.
    pub fn locks_are_apart(&self)
        ensures { AreApart self.now }
    {
        let _ = &self.chain;
    }
}
