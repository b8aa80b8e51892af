//! Four values of one type, by number: a chain has four channels or locks.
ghost use Rattle.std.specs.Prelude.{◌≡◌, ◌<◌, slice_get, Some, [], ◌∷◌};
ghost use Rattle.std.specs.Borrow.{sem};

use std::marker::Model;

/// Four values, which contracts see as the list of them.
#[derive(Drop)]
pub struct Four<Q> {
    first: Q,
    second: Q,
    third: Q,
    fourth: Q,
}

impl<Q> Model for Four<Q> {
    ghost use Rattle.std.specs.Prelude.{List, [], ◌∷◌};
    ghost use Rattle.std.specs.Coded.{coded_list};

    ghost Value = { List Q };

    ghost coded = { coded_list Q.code };

    ghost view = { λ a. a.first ∷ a.second ∷ a.third ∷ a.fourth ∷ [] };
}

impl<Q> Four<Q> {
    ghost use Rattle.sd_boxq.specs.LendsAt.{lends_at};

    /// The four values in order.
    pub fn new(first: Q, second: Q, third: Q, fourth: Q) -> Four<Q>
        ensures { result ≡ first ∷ second ∷ third ∷ fourth ∷ [] }
    {
        Four {
            first,
            second,
            third,
            fourth,
        }
    }

    /// The value at this index, counted from 0.
    pub fn at(&self, index: usize) -> &Q
        requires { index < 4 }
        ensures { slice_get self.now index ≡ Some result.now }
    {
        match index {
            0 => &self.first,
            1 => &self.second,
            2 => &self.third,
            _ => &self.fourth,
        }
    }

    /// The value at this index, counted from 0, to be changed.
    pub fn at_mut(&mut self, index: usize) -> &mut Q
        requires { index < 4 }
        ensures* writes_back { sem 𝓛 (lends_at Q.row self.entry index result) }
        ensures value { slice_get self.old index ≡ Some result.now }
    {
        match index {
            0 => &mut self.first,
            1 => &mut self.second,
            2 => &mut self.third,
            _ => &mut self.fourth,
        }
    }
}
