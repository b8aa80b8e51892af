//! Where a box lies, and the boxes that are read through a `&`.
ghost use Rattle.std.specs.Prelude.{◌≡◌, ℕ, List, [], ◌∷◌, length, false, true};
ghost use Rattle.sd_boxq.specs.Links.{Link, links_of, has_some, LeadsOn};
ghost use Rattle.sd_boxq.specs.Owned.{nodes_lent};
ghost use Rattle.sd_boxq.specs.Boxes.{boxes_from};

use super::Nodes;
use std::alloc::Allocator;
use std::marker::{Model, PhantomData};

/// What a box begins with. Fields lie in order.
pub struct Front<T> {
    next: *const Front<T>,
    more: bool,
    item: T,
}

/// Where a box lies, and its index.
#[derive(Drop)]
pub struct Spot<T> {
    pub(super) at: *const Front<T>,
    ghost index: { ℕ },
}

// It owns nothing.
impl<T> Model for Spot<T> {
    ghost use base.Fml.{ftrue};

    ghost also_owns = { λ _. ftrue };
}

/// The boxes from one on, which are lent for `'a`.
pub struct Cursor<'a, T> {
    at: *const Front<T>,
    mark: PhantomData<&'a T>,
    ghost index: { ℕ },
    ghost rest: { List T },
    ghost links: { List Link },
    ghost ok: { length rest ≡ length links },
    ghost leads: { ∥ LeadsOn at links ∥₁ },
}

impl<'a, T> Model for Cursor<'a, T> {
    ghost also_owns = { λ c. nodes_lent T.row c.links c.rest 'a };
}

impl<T> Drop for Cursor<'_, T> {
    fn drop(self) {
        let Self { at: _, mark: _ } = self;
    }
}

impl<T, A: Allocator> Nodes<T, A> {
    /// Whether there is a box.
    pub(crate) fn is_any(&self) -> bool
        ensures { (result ≡ self.now.any) × (result ≡ has_some self.now.items) × (result ≡ false → self.now.items ≡ []) }
    {
        self.any
    }

    /// The boxes from the first one on.
    pub(crate) fn cursor(&self) -> Cursor<'_, T>
        ensures { (result.index ≡ 0) × (result.rest ≡ self.now.items) × (result.links ≡ links_of self.now.blocks) × (length result.rest ≡ length result.links) }
    {
        Cursor {
            at: self.head as *const Front<T>,
            mark: PhantomData,
        }
    }
}

impl<'a, T> Cursor<'a, T> {
    /// The first box, its item, whether others follow, and the boxes behind it.
    pub(crate) fn step(self) -> (Spot<T>, &'a T, bool, Cursor<'a, T>)
        requires { has_some self.rest ≡ true }
        ensures { (boxes_from self.entry.index self.entry.links self.entry.rest ≡ (result.0.at, result.0.index, result.1.now) ∷ boxes_from result.3.index result.3.links result.3.rest) × (self.entry.rest ≡ result.1.now ∷ result.3.rest) × (result.2 ≡ has_some result.3.rest) }
    {
        let Cursor { at, mark } = self;
        unsafe {
            let next = (*at).next;
            let more = (*at).more;
            (Spot { at }, &(*at).item, more, Cursor { at: next, mark })
        }
    }
}
