//! Spare turnstiles.
ghost use Rattle.std.specs.Prelude.{◌≡◌, ◌+◌, ◌<◌, ◌^◌, MatchOption};
ghost use Rattle.sd_turnstile.specs.Waiters.{IsIdle};

use crate::turnstile::{Sides, Turnstile};
use sd_boxq::{BoxQueue, Boxed};
use std::marker::Model;

/// A list of spare turnstiles, whose queues are empty. Contracts see it as their number.
#[derive(Drop)]
pub struct Rack<T> {
    spares: BoxQueue<Boxed<Sides<T>>>,
    // How many there are, modulo 2^64, so that no count has to fit.
    count: usize,
}

impl<T> Model for Rack<T> {
    ghost use Rattle.std.specs.Prelude.{◌≡◌, ◌%◌, ◌^◌, ℕ, length};
    ghost use Rattle.sd_turnstile.specs.Serving.{AreIdle};

    ghost Value = { ℕ };

    ghost view = { λ r. length r.spares };

    ghost invariant = { λ r. (AreIdle r.spares) × (r.count ≡ length r.spares % 2 ^ 64) };
}

impl<T> Rack<T> {
    /// An empty rack.
    pub fn new() -> Rack<T>
        ensures { result ≡ 0 }
    {
        Rack {
            spares: BoxQueue::new(),
            count: 0,
        }
    }

    /// Puts a turnstile by.
    pub fn put(&mut self, t: Turnstile<T>)
        requires { IsIdle t }
        ensures { self.new ≡ self.old + 1 }
    {
        self.spares.push_front(t.into_sides());
        self.count = self.count.wrapping_add(1);
    }

    /// Takes a turnstile. `None` exactly where the rack is empty.
    pub fn take(&mut self) -> Option<Turnstile<T>>
        ensures { MatchOption result ((self.old ≡ 0) × (self.new ≡ 0)) (λ t. (self.old ≡ self.new + 1) × (IsIdle t)) }
    {
        match self.spares.pop_front() {
            None => None,
            Some(sides) => {
                self.count = self.count.wrapping_sub(1);
                Some(Turnstile::from_sides(sides))
            }
        }
    }

    /// The number of turnstiles.
    pub fn len(&self) -> usize
        requires { self.now < 2 ^ 32 }
        ensures { result ≡ self.now }
    {
        self.count
    }
}
