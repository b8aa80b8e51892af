//! Numbers that stand at the end of a longer list.

ghost use Rattle.std.specs.Prelude.{◌≡◌, ◌≤◌, drop, length};

use std::marker::Model;

/// The numbers from a place on.
#[derive(Drop)]
pub(crate) struct Spelled {
    all: Vec<u64>,
    from: usize,
}

impl Model for Spelled {
    ghost use Rattle.std.specs.Prelude.{ℕ, List, ◌≤◌, drop, length};

    ghost Value = { List ℕ };

    ghost view = { λ s. drop s.from s.all.items };

    ghost invariant = { λ s. s.from ≤ length s.all.items };
}

impl Spelled {
    pub(crate) fn new(all: Vec<u64>, from: usize) -> Spelled
        requires { from ≤ length all.items }
        ensures { result ≡ drop from all.items }
    {
        Spelled { all, from }
    }

    pub(crate) fn numbers(&self) -> &[u64]
        ensures { result.now ≡ self.now }
    {
        &self.all[self.from..]
    }
}
