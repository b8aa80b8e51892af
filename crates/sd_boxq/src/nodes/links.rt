//! The steps that link a box in, and that take one out.
ghost use Rattle.std.specs.Prelude.{◌≡◌, suc, ◌<◌, [], ◌∷◌, ◌++◌, true, false, length, slice_get, slice_set, Some};
ghost use Rattle.std.specs.List.{insert, remove};
ghost use Rattle.sd_boxq.specs.Links.{links_of};
ghost use Rattle.sd_boxq.specs.Boxes.{LiesAt};

use super::cursor::Spot;
use super::{Cell, Nodes};
use std::alloc::Allocator;
use std_alloc::room::Vacant;

impl<T, A: Allocator> Nodes<T, A> {
    /// No boxes.
    pub(crate) fn new() -> Nodes<T, A>
        ensures { result.items ≡ [] }
    {
        let none: [u8; 0] = [];
        let nowhere = &raw const none as *const Cell<T, A>;
        Nodes {
            head: nowhere,
            tail: nowhere,
            any: false,
        }
    }

    /// Links the only box in.
    pub(crate) fn link_first(&mut self, room: Vacant<Cell<T, A>, A>, item: T)
        requires { self.old.any ≡ false }
        ensures { (self.old.items ≡ []) × (self.new.items ≡ item ∷ []) }
    {
        let Vacant { ptr, alloc } = room;
        unsafe {
            ptr.write(Cell {
                next: ptr,
                more: false,
                item,
                alloc,
            });
        }
        self.head = ptr;
        self.tail = ptr;
        self.any = true;
    }

    /// Links a box in before the first one.
    pub(crate) fn link_front(&mut self, room: Vacant<Cell<T, A>, A>, item: T)
        requires { self.old.any ≡ true }
        ensures { self.new.items ≡ item ∷ self.old.items }
    {
        let Vacant { ptr, alloc } = room;
        let next = self.head;
        unsafe {
            ptr.write(Cell {
                next,
                more: true,
                item,
                alloc,
            });
        }
        self.head = ptr;
    }

    /// Links a box in behind the last one.
    pub(crate) fn link_back(&mut self, room: Vacant<Cell<T, A>, A>, item: T)
        requires { self.old.any ≡ true }
        ensures { self.new.items ≡ self.old.items ++ item ∷ [] }
    {
        let Vacant { ptr, alloc } = room;
        let tail = self.tail.cast_mut();
        unsafe {
            ptr.write(Cell {
                next: ptr,
                more: false,
                item,
                alloc,
            });
            (*tail).next = ptr;
            (*tail).more = true;
        }
        self.tail = ptr;
    }

    /// Takes the first box out.
    pub(crate) fn unlink_front(&mut self) -> (T, Vacant<Cell<T, A>, A>)
        requires { self.old.any ≡ true }
        ensures { self.old.items ≡ result.0 ∷ self.new.items }
    {
        let ptr = self.head.cast_mut();
        unsafe {
            self.head = (*ptr).next;
            self.any = (*ptr).more;
            let item = (&raw const (*ptr).item).read();
            let alloc = (&raw const (*ptr).alloc).read();
            (item, Vacant { ptr, alloc })
        }
    }

    /// Links a box in behind one that is not the last.
    pub(crate) fn link_behind(&mut self, spot: Spot<T>, room: Vacant<Cell<T, A>, A>, item: T)
        requires { (LiesAt (links_of self.old.blocks) spot.index spot.at) × (suc spot.index < length self.old.items) }
        ensures { self.new.items ≡ insert self.old.items (suc spot.index) item }
    {
        let Vacant { ptr, alloc } = room;
        let Spot { at } = spot;
        let at = at as *mut Cell<T, A>;
        unsafe {
            ptr.write(Cell {
                next: (*at).next,
                more: true,
                item,
                alloc,
            });
            (*at).next = ptr;
        }
    }

    /// Takes out the box behind this one, where it is not the last.
    pub(crate) fn unlink_behind(&mut self, spot: Spot<T>) -> (T, Vacant<Cell<T, A>, A>)
        requires { (LiesAt (links_of self.old.blocks) spot.index spot.at) × (suc (suc spot.index) < length self.old.items) }
        ensures { (slice_get self.old.items (suc spot.index) ≡ Some result.0) × (self.new.items ≡ remove self.old.items (suc spot.index)) }
    {
        let Spot { at } = spot;
        let at = at as *mut Cell<T, A>;
        unsafe {
            let ptr = (*at).next.cast_mut();
            (*at).next = (*ptr).next;
            let item = (&raw const (*ptr).item).read();
            let alloc = (&raw const (*ptr).alloc).read();
            (item, Vacant { ptr, alloc })
        }
    }

    /// Takes out the box behind this one, where it is the last.
    pub(crate) fn unlink_last(&mut self, spot: Spot<T>) -> (T, Vacant<Cell<T, A>, A>)
        requires { (LiesAt (links_of self.old.blocks) spot.index spot.at) × (suc (suc spot.index) ≡ length self.old.items) }
        ensures { (slice_get self.old.items (suc spot.index) ≡ Some result.0) × (self.new.items ≡ remove self.old.items (suc spot.index)) }
    {
        let Spot { at } = spot;
        let at = at as *mut Cell<T, A>;
        self.tail = at;
        unsafe {
            (*at).more = false;
            let ptr = (*at).next.cast_mut();
            let item = (&raw const (*ptr).item).read();
            let alloc = (&raw const (*ptr).alloc).read();
            (item, Vacant { ptr, alloc })
        }
    }

    /// Puts an item into a box, and returns the one that was there.
    pub(crate) fn exchange(&mut self, spot: Spot<T>, item: T) -> T
        requires { LiesAt (links_of self.old.blocks) spot.index spot.at }
        ensures { (slice_get self.old.items spot.index ≡ Some result) × (self.new.items ≡ slice_set self.old.items spot.index item) }
    {
        let Spot { at } = spot;
        let at = at as *mut Cell<T, A>;
        unsafe {
            let place = &raw mut (*at).item;
            let old = place.read();
            place.write(item);
            old
        }
    }
}
