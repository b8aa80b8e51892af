//! The items of the levels, in order.
ghost use Rattle.std.specs.Prelude.{◌≡◌, ◌∷◌, [], MatchOption};
ghost use Rattle.std.specs.Iterator.{YieldsFirstRef, item_count};
ghost use Rattle.sd_dispq.specs.Levels.{all_of};

use crate::levels::Levels;
use sd_boxq::Walk;
use std::iter::{FusedIterator, Iterator};
use std::marker::Model;

// What is left of one level, and the levels from `from` on.
#[derive(Drop)]
struct Rest<'a, T> {
    levels: &'a Levels<T>,
    from: usize,
    here: Walk<'a, T>,
}

impl<'a, T> Model for Rest<'a, T> {
    ghost use Rattle.std.specs.Prelude.{List, ◌++◌, drop};
    ghost use Rattle.sd_dispq.specs.Levels.{all_of};

    ghost Value = { List T };

    ghost view = { λ i. i.here ++ all_of (drop i.from i.levels.now) };
}

impl<'a, T> Rest<'a, T> {
    // The first item, and those behind it.
    fn step(self) -> Option<(&'a T, Rest<'a, T>)>
        ensures { MatchOption result (self.entry ≡ []) (λ r. self.entry ≡ r.0.now ∷ r.1) }
    {
        let Rest { levels, from, here } = self;
        if let Some((item, here)) = here.step() {
            return Some((item, Rest { levels, from, here }));
        }
        match levels.next_busy(from) {
            None => None,
            Some(index) => match levels.level(index).walk().step() {
                None => None,
                Some((item, here)) => {
                    let from = index + 1;
                    Some((item, Rest { levels, from, here }))
                }
            },
        }
    }
}

/// The items of a dispatch queue from one on, which contracts see as their list.
///
/// A step goes to the next item of the level, or by the bitmap to the first of the next level that is not
/// empty, so it takes a bounded number of steps.
#[derive(Drop)]
pub struct Items<'a, T> {
    rest: Option<Rest<'a, T>>,
}

impl<'a, T> Model for Items<'a, T> {
    ghost use Rattle.std.specs.Prelude.{List, []};
    ghost use Rattle.std.specs.Option.{unwrap_or};

    ghost Value = { List T };

    ghost view = { λ i. unwrap_or i.rest [] };
}

impl<T> Levels<T> {
    /// The items of all levels.
    pub(crate) fn items(&self) -> Items<'_, T>
        ensures { result ≡ all_of self.now }
    {
        let rest = Rest {
            levels: self,
            from: 1,
            here: self.level(0).walk(),
        };
        Items { rest: Some(rest) }
    }
}

impl<'a, T> Iterator for Items<'a, T> {
    type Item = &'a T;

    ghost next_gives = { YieldsFirstRef (λ i. i) };

    ghost remaining = { item_count (λ i. i) };

    fn next(&mut self) -> Option<&'a T> {
        let (item, rest) = self.rest.take()?.step()?;
        self.rest = Some(rest);
        Some(item)
    }
}

impl<'a, T> FusedIterator for Items<'a, T> {}
