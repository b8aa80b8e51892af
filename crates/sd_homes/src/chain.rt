//! The home of the locks of one chain of turnstiles.

ghost use Rattle.std.specs.Prelude.{◌≡◌, ◌/◌, ◌<◌, true, false, get_or, length, set, slice_get, MatchOption};
ghost use Rattle.std.specs.Option.{option_copied};
ghost use Rattle.sd_boxq.specs.Order.{find_id, drop_id, insert_ranked};
ghost use Rattle.sd_state.specs.declared.states.LockState.TheVariants.{Free};
ghost use Rattle.sd_turnstile.specs.Waiters.{highest_waiter, of_lock, waiters_at, with_waiters, without_id};
ghost use Rattle.sd_homes.specs.Standing.{id_of, key_in, rank_of};
ghost use Rattle.sd_types.specs.declared.numbers.HomeId.TheVariants.{Chain};
ghost use Rattle.sd_homes.specs.Kinds.{IsListed, chain_has, chain_list};
ghost use Rattle.sd_homes.specs.Homes.{OfChain, empty_chain, is_of, with_states, with_turnstiles};

use crate::ListId;
use crate::traveller::Traveller;
use sd_boxq::Four;
use sd_record::Record;
use sd_state::LockState;
use sd_turnstile::TurnstileChain;
use sd_types::{LockId, Side, ThreadId};
use std::marker::Model;

/// A chain of turnstiles, and the states of its locks. The spare turnstiles are the chain's own.
///
/// Source: Solaris Internals (turnstiles).
#[derive(Drop)]
pub struct ChainHome {
    turnstiles: TurnstileChain<Record>,
    states: Four<LockState>,
}

impl Model for ChainHome {
    ghost use Rattle.std.specs.Prelude.{◌≡◌, length};
    ghost use Rattle.sd_homes.specs.Homes.{OfChain};

    ghost Value = { OfChain };

    ghost view = { λ h. record { turnstiles = h.turnstiles; states = h.states } };

    ghost invariant = { λ h. length h.states ≡ 4 };
}

impl ChainHome {
    /// The home of a chain of this number without waiters, whose locks are free.
    pub fn new(chain: u8) -> ChainHome
        requires { chain < 64 }
        ensures { result ≡ empty_chain chain }
    {
        ChainHome {
            turnstiles: TurnstileChain::new(chain),
            states: Four::new(
                LockState::Free,
                LockState::Free,
                LockState::Free,
                LockState::Free,
            ),
        }
    }

    /// A law, which does nothing: a chain has four locks.
    pub fn has_four_locks(&self)
        ensures { length self.now.turnstiles.locks ≡ 4 }
    {
        self.turnstiles.has_four_locks();
    }

    /// The number of the chain, below 64.
    #[inline(always)]
    pub fn number(&self) -> u8
        ensures value { result ≡ self.now.turnstiles.chain }
        ensures below { result < 64 }
    {
        self.turnstiles.number()
    }

    /// Whether the lock is one of this chain.
    #[inline(always)]
    pub fn is_of(&self, l: LockId) -> bool
        ensures { result ≡ is_of self.now.turnstiles l.0 }
    {
        l.0 < 256 && l.0 % 64 == u16::from(self.turnstiles.number())
    }

    /// The list in which the thread stands. `None` exactly where it stands in none of this home.
    pub fn where_is(&self, t: ThreadId) -> Option<ListId>
        ensures { MatchOption result (chain_has t.0 self.now ≡ false) (IsListed t.0 (Chain self.now.turnstiles.chain) (chain_list self.now) (chain_has t.0 self.now)) }
    {
        match self.turnstiles.place_of(u32::from(t.0)) {
            None => None,
            Some((l, side)) => Some(ListId::Waits(l, side)),
        }
    }

    /// The state of a lock of this chain.
    #[inline(always)]
    pub fn lock(&self, l: LockId) -> LockState
        requires { is_of self.now.turnstiles l.0 ≡ true }
        ensures { result ≡ get_or self.now.states (l.0 / 64) Free }
    {
        *self.states.at(l.0 as usize / 64)
    }

    /// Changes a lock of this chain.
    pub fn set_lock(&mut self, l: LockId, x: LockState)
        requires { is_of self.old.turnstiles l.0 ≡ true }
        ensures { self.new ≡ with_states (set self.old.states (l.0 / 64) x) self.old }
    {
        let state = self.states.at_mut(l.0 as usize / 64);
        *state = x;
    }

    /// The best waiter at a side of a lock of this chain.
    pub fn best(&self, l: LockId, side: Side) -> Option<&Record>
        requires { is_of self.now.turnstiles l.0 ≡ true }
        ensures { option_copied result ≡ slice_get (waiters_at self.now.turnstiles l.0 side) 0 }
    {
        self.turnstiles.best(l, side)
    }

    /// The greatest effective priority of the waiters of a lock of this chain.
    pub fn greatest(&self, l: LockId) -> Option<u8>
        requires { is_of self.now.turnstiles l.0 ≡ true }
        ensures { result ≡ highest_waiter rank_of (of_lock self.now.turnstiles l.0) }
    {
        self.turnstiles.greatest(l)
    }

    /// The same of all but thread `u`.
    pub fn greatest_but(&self, l: LockId, u: ThreadId) -> Option<u8>
        requires { is_of self.now.turnstiles l.0 ≡ true }
        ensures { result ≡ highest_waiter rank_of (without_id id_of u.0 (of_lock self.now.turnstiles l.0)) }
    {
        self.turnstiles.greatest_but(l, u32::from(u.0))
    }

    /// Takes the first thread with this number at a side of a lock of this chain.
    pub fn take_waiter(&mut self, l: LockId, side: Side, t: ThreadId) -> Option<Traveller>
        requires { is_of self.old.turnstiles l.0 ≡ true }
        ensures taken { result ≡ find_id id_of t.0 (waiters_at self.old.turnstiles l.0 side) }
        ensures rest { self.new ≡ with_turnstiles (with_waiters self.old.turnstiles l.0 side (drop_id id_of t.0 (waiters_at self.old.turnstiles l.0 side))) self.old }
    {
        match self.turnstiles.take_at(l, side, u32::from(t.0)) {
            None => None,
            Some((node, own)) => Some(Traveller::of_parts(node, own)),
        }
    }

    /// Puts the thread at a side of a lock of this chain, by its priority and key.
    pub fn put_waiter(&mut self, l: LockId, side: Side, t: Traveller)
        requires { is_of self.old.turnstiles l.0 ≡ true }
        ensures { self.new ≡ with_turnstiles (with_waiters self.old.turnstiles l.0 side (insert_ranked rank_of key_in t (waiters_at self.old.turnstiles l.0 side))) self.old }
    {
        let (node, own) = t.into_parts();
        self.turnstiles.block(l, side, node, own);
    }

    pub fn find_waiter(&self, l: LockId, side: Side, t: ThreadId) -> Option<&Record>
        requires { is_of self.now.turnstiles l.0 ≡ true }
        ensures { option_copied result ≡ find_id id_of t.0 (waiters_at self.now.turnstiles l.0 side) }
    {
        self.turnstiles.find_at(l, side, u32::from(t.0))
    }
}
