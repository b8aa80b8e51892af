//! Where in a queue the first item stands that passes a test, and what is done there.
ghost use Rattle.std.specs.Prelude.{◌≡◌, [], ◌∷◌, ◌++◌, MatchOption, option_map, slice_get, slice_set};
ghost use Rattle.std.specs.List.{insert, remove};
ghost use Rattle.std.specs.Option.{option_copied};
ghost use Rattle.sd_boxq.specs.Order.{find_id};
ghost use Rattle.sd_boxq.specs.Links.{links_of};
ghost use Rattle.sd_boxq.specs.Boxes.{count_before};
ghost use Rattle.sd_boxq.specs.Search.{is_wanted, index_behind, IsBefore, IsFound};

use crate::nodes::cursor::Spot;
use crate::nodes::{Cell, Nodes};
use crate::ranked::{Ranked, precedes, precedes_keyed};
use std::alloc::Allocator;
use std_alloc::room::Vacant;

/// Which items are looked for.
#[derive(Drop)]
pub(crate) enum Wanted<'a, T> {
    /// Those that an item of this rank and key precedes. The two are read before the search and not at each box, since an
    /// item may have to work its rank out.
    BehindRanked(u8, i64),
    /// Those with a greater key than this one.
    BehindKey(&'a T),
    /// Those that this one precedes by key and id.
    BehindKeyed(&'a T),
    /// Those with this id.
    Id(u32),
    /// Those with a key smaller than this.
    Below(i64),
}

impl<'a, T: Ranked> Wanted<'a, T> {
    #[inline(always)]
    fn passes(&self, item: &T) -> bool
        ensures { result ≡ is_wanted T.rank T.key T.id self.now item.now }
    {
        match self {
            Wanted::BehindRanked(rank, key) => precedes(*rank, *key, item),
            Wanted::BehindKey(x) => x.key() < item.key(),
            Wanted::BehindKeyed(x) => precedes_keyed(*x, item),
            Wanted::Id(id) => item.id() == *id,
            Wanted::Below(key) => item.key() < *key,
        }
    }
}

/// Where the first wanted item stands.
#[derive(Drop)]
pub(crate) struct Gap<T> {
    /// The box before it, or the last one where no item is wanted.
    pub(crate) before: Option<Spot<T>>,
    /// Its box.
    pub(crate) found: Option<Found<T>>,
}

/// A box that was found.
#[derive(Drop)]
pub(crate) struct Found<T> {
    pub(crate) spot: Spot<T>,
    /// Whether no box is behind it.
    pub(crate) is_last: bool,
}

impl<T: Ranked, A: Allocator> Nodes<T, A> {
    /// Where the first wanted item stands. The search steps from box to box itself, since the compiled loop over an iterator
    /// takes more instructions at each box: it keeps and tests once more whether there is a box to give.
    #[inline(always)]
    pub(crate) fn gap(&self, wanted: &Wanted<'_, T>) -> Gap<T>
        ensures index { index_behind result.before ≡ count_before (is_wanted T.rank T.key T.id wanted.now) self.now.items }
        ensures before { IsBefore (links_of self.now.blocks) result.before }
        ensures found { IsFound (links_of self.now.blocks) self.now.items (index_behind result.before) result.found }
    {
        let mut before = None;
        let mut more = self.is_any();
        let mut rest = self.cursor();
        while more {
            let (spot, item, follows, behind) = rest.step();
            if wanted.passes(item) {
                return Gap {
                    before,
                    found: Some(Found {
                        spot,
                        is_last: !follows,
                    }),
                };
            }
            before = Some(spot);
            more = follows;
            rest = behind;
        }
        Gap {
            before,
            found: None,
        }
    }

    /// The first item with this id. `None` exactly where there is none. It steps from box to box as `gap` does.
    pub(crate) fn find(&self, id: u32) -> Option<&T>
        ensures { option_copied result ≡ find_id T.id id self.now.items }
    {
        let mut more = self.is_any();
        let mut rest = self.cursor();
        while more {
            let (_, item, follows, behind) = rest.step();
            if item.id() == id {
                return Some(item);
            }
            more = follows;
            rest = behind;
        }
        None
    }
}

impl<T, A: Allocator> Nodes<T, A> {
    /// Links a box in before all others.
    pub(crate) fn put_front(&mut self, room: Vacant<Cell<T, A>, A>, item: T)
        ensures { self.new.items ≡ item ∷ self.old.items }
    {
        if self.is_any() {
            self.link_front(room, item);
        } else {
            self.link_first(room, item);
        }
    }

    /// Links a box in behind all others.
    pub(crate) fn put_back(&mut self, room: Vacant<Cell<T, A>, A>, item: T)
        ensures { self.new.items ≡ self.old.items ++ item ∷ [] }
    {
        if self.is_any() {
            self.link_back(room, item);
        } else {
            self.link_first(room, item);
        }
    }

    /// Takes the first box out. `None` exactly where there is none.
    pub(crate) fn take_front(&mut self) -> Option<(T, Vacant<Cell<T, A>, A>)>
        ensures { MatchOption result ((self.old.items ≡ []) × (self.new.items ≡ [])) (λ n. self.old.items ≡ n.0 ∷ self.new.items) }
    {
        if self.is_any() {
            Some(self.unlink_front())
        } else {
            None
        }
    }

    /// Links a box in before the one that was found, and at the back where there is none.
    #[tactic(auto, using(crate::proofs::Counts::insert_end))]
    pub(crate) fn put(&mut self, gap: Gap<T>, room: Vacant<Cell<T, A>, A>, item: T)
        requires before { IsBefore (links_of self.old.blocks) gap.before }
        requires found { IsFound (links_of self.old.blocks) self.old.items (index_behind gap.before) gap.found }
        ensures { self.new.items ≡ insert self.old.items (index_behind gap.before) item }
    {
        let Gap { before, found } = gap;
        match (before, found) {
            (None, _) => self.put_front(room, item),
            (Some(spot), Some(_)) => self.link_behind(spot, room, item),
            (Some(_), None) => self.put_back(room, item),
        }
    }

    /// Takes the box that was found out.
    #[tactic(auto, using(crate::proofs::Counts::get_end, crate::proofs::Counts::remove_end))]
    pub(crate) fn take(&mut self, gap: Gap<T>) -> Option<(T, Vacant<Cell<T, A>, A>)>
        requires before { IsBefore (links_of self.old.blocks) gap.before }
        requires found { IsFound (links_of self.old.blocks) self.old.items (index_behind gap.before) gap.found }
        ensures taken { option_map (λ n. n.0) result ≡ slice_get self.old.items (index_behind gap.before) }
        ensures rest { self.new.items ≡ remove self.old.items (index_behind gap.before) }
    {
        let Gap { before, found } = gap;
        let Found { spot: _, is_last } = found?;
        match before {
            None => self.take_front(),
            Some(spot) if is_last => Some(self.unlink_last(spot)),
            Some(spot) => Some(self.unlink_behind(spot)),
        }
    }

    /// Puts `item` into the box that was found, and returns the one that was there. Where no box was
    /// found, `item` is dropped.
    #[tactic(auto, using(crate::proofs::Counts::get_end, crate::proofs::Counts::set_end))]
    pub(crate) fn exchange_found(&mut self, gap: Gap<T>, item: T) -> Option<T>
    where
        T: Drop,
        requires { IsFound (links_of self.old.blocks) self.old.items (index_behind gap.before) gap.found }
        ensures old { result ≡ slice_get self.old.items (index_behind gap.before) }
        ensures rest { self.new.items ≡ slice_set self.old.items (index_behind gap.before) item }
    {
        let Gap { before: _, found } = gap;
        match found {
            Some(Found { spot, is_last: _ }) => Some(self.exchange(spot, item)),
            None => None,
        }
    }
}
