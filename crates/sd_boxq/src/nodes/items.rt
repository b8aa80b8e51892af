//! The items of a queue, in order.
ghost use Rattle.std.specs.Prelude.{◌≡◌};
ghost use Rattle.std.specs.Iterator.{YieldsFirstRef, item_count};

use super::Nodes;
use super::walk::Walk;
use std::alloc::Allocator;
use std::iter::{FusedIterator, Iterator};
use std::marker::Model;

/// The items from one box on, in order, which contracts see as their list. Each step takes a bounded
/// number of steps.
#[derive(Drop)]
pub struct Items<'a, T> {
    rest: Option<Walk<'a, T>>,
}

impl<'a, T> Model for Items<'a, T> {
    ghost use Rattle.std.specs.Prelude.{List, []};
    ghost use Rattle.std.specs.Option.{unwrap_or};

    ghost Value = { List T };

    ghost view = { λ i. unwrap_or i.rest [] };
}

impl<T, A: Allocator> Nodes<T, A> {
    pub(crate) fn items(&self) -> Items<'_, T>
        ensures { result ≡ self.now.items }
    {
        Items {
            rest: Some(self.walk()),
        }
    }
}

impl<'a, T> Iterator for Items<'a, T> {
    type Item = &'a T;

    ghost next_gives = { YieldsFirstRef (λ i. i) };

    ghost remaining = { item_count (λ i. i) };

    fn next(&mut self) -> Option<&'a T> {
        let (item, rest) = self.rest.take()?.step()?;
        self.rest = Some(rest);
        Some(item)
    }
}

impl<'a, T> FusedIterator for Items<'a, T> {}
