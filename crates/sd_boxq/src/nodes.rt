//! The boxes of a queue, each of which points to the next one.
ghost use Rattle.std.specs.Prelude.{◌≡◌, List, length};
ghost use Rattle.sd_boxq.specs.Links.{Link, links_of, has_some, IsChained};
ghost use Rattle.sd_boxq.specs.Owned.{nodes_own, nodes_lent};

use std::alloc::Allocator;
use std::marker::{Model, Send, Sync};

pub(crate) mod cursor;
pub(crate) mod items;
pub(crate) mod links;
pub(crate) mod walk;

/// One box. `next` of the last box means nothing, and `more` says whether another box follows.
pub struct Cell<T, A> {
    next: *const Cell<T, A>,
    more: bool,
    item: T,
    alloc: A,
}

/// The boxes of a queue, from the first one at `head` to the last one at `tail`. With no box, both
/// dangle.
///
/// `blocks` says of each box where it lies, its `next` and its `more`, and its handle.
pub struct Nodes<T, A: Allocator> {
    head: *const Cell<T, A>,
    tail: *const Cell<T, A>,
    any: bool,
    ghost items: { List T },
    ghost blocks: { List (Link × A) },
    ghost ok: { (any ≡ has_some items) × (length items ≡ length blocks) },
    ghost chained: { ∥ IsChained head tail (links_of blocks) ∥₁ },
}

impl<T, A: Allocator> Model for Nodes<T, A> {
    ghost also_owns = { λ n. nodes_own T.row A.row A.dealloc_token n.blocks n.items };

    ghost also_shares = { λ n _ κ. nodes_lent T.row (links_of n.blocks) n.items κ };
}

// It frees nothing: the queue takes each box out first.
impl<T, A: Allocator> Drop for Nodes<T, A> {
    fn drop(self) {
        let Nodes {
            head: _,
            tail: _,
            any: _,
        } = self;
    }
}

// A `&` to it reaches no handle.
unsafe impl<T: Send, A: Allocator + Send> Send for Nodes<T, A> {}

unsafe impl<T: Sync, A: Allocator> Sync for Nodes<T, A> {}
