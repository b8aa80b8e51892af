//! A walk along the items of a queue, which moves from step to step.
ghost use Rattle.std.specs.Prelude.{◌≡◌, [], ◌∷◌, MatchOption};

use super::Nodes;
use super::cursor::Cursor;
use std::alloc::Allocator;
use std::marker::Model;

/// The items from one box on, which contracts see as their list. A step hands on what is left, and changes nothing in its place: a
/// loop of such steps keeps the next box and whether there is one, and tests once at each box. The compiled loop over an iterator tests
/// twice.
#[derive(Drop)]
pub struct Walk<'a, T> {
    more: bool,
    rest: Cursor<'a, T>,
}

impl<'a, T> Model for Walk<'a, T> {
    ghost use Rattle.std.specs.Prelude.{◌≡◌, List};
    ghost use Rattle.sd_boxq.specs.Links.{has_some};

    ghost Value = { List T };

    ghost view = { λ w. w.rest.rest };

    ghost invariant = { λ w. w.more ≡ has_some w.rest.rest };
}

impl<T, A: Allocator> Nodes<T, A> {
    pub(crate) fn walk(&self) -> Walk<'_, T>
        ensures { result ≡ self.now.items }
    {
        Walk {
            more: self.is_any(),
            rest: self.cursor(),
        }
    }
}

impl<'a, T> Walk<'a, T> {
    /// The first item, and those behind it. `None` exactly where there is none.
    #[inline(always)]
    pub fn step(self) -> Option<(&'a T, Walk<'a, T>)>
        ensures { MatchOption result (self.entry ≡ []) (λ r. self.entry ≡ r.0.now ∷ r.1) }
    {
        let Walk { more, rest } = self;
        if more {
            let (_, item, more, rest) = rest.step();
            Some((item, Walk { more, rest }))
        } else {
            None
        }
    }
}
