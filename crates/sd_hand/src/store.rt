//! Changing a state by a hand: each change is made in the homes that are held, and by the processor that acts.

use crate::acting::Acting;
use crate::changes::{marked, unmarked};
use crate::steps::{Step, is_there, list_by, list_put};
use crate::walks::{next_walk_at, walk_at};
use sd_flat::duty_after;
use sd_homes::{ListId, home_at};
use sd_state::LockState;
use sd_store::{
    BodyChange, Chore, Destination, Part, Store, duty_of, place_by, place_put, rouse, walk,
};
use sd_types::{ChanId, ClassState, CpuId, LockId, Put, Side, ThreadId, Work};

impl Store for Acting {
    fn set_duty(&mut self, c: CpuId, chore: Chore) -> Result<(), Part> {
        self.give(c, duty_of(chore))
    }

    fn begin_rouse(&mut self, number: u64, c: CpuId, k: ChanId) -> Result<(), Part> {
        match self.give(c, rouse(number, k)) {
            Err(q) => Err(q),
            Ok(()) => Ok(()),
        }
    }

    fn begin_walk(&mut self, c: CpuId, t: ThreadId) -> Result<(), Part> {
        let (at, thread) = match self.hand.found(t) {
            Err(q) => return Err(q),
            Ok(found) => found,
        };
        match walk_at(t, at, thread) {
            None => Ok(()),
            Some(duty) => match self.give(c, duty) {
                Err(q) => Err(q),
                Ok(()) => Ok(()),
            },
        }
    }

    fn walk_on(&mut self, c: CpuId, o: ThreadId) -> Result<(), Part> {
        if c.0 != self.actor.cpu.0 {
            return Err(Part::Actor(c));
        }
        let at = match self.hand.where_is(o) {
            Err(q) => return Err(q),
            Ok(at) => at,
        };
        let duty = next_walk_at(self.actor.duty, o, at, self.hand.waiting(o, at));
        match self.give(c, duty) {
            Err(q) => Err(q),
            Ok(()) => Ok(()),
        }
    }

    #[inline(always)]
    fn count_tick(&mut self, work: &Work, c: CpuId) -> Result<(), Part> {
        if c.0 != self.actor.cpu.0 {
            return Err(Part::Actor(c));
        }
        if self.actor.count < work.limit {
            let count = self.actor.count + 1;
            self.actor.duty = duty_after(work, count, self.actor.duty);
            self.actor.count = count;
        }
        Ok(())
    }

    fn clear_marks(&mut self, c: CpuId) -> Result<(), Part> {
        match self.hand.view(c) {
            Err(q) => Err(q),
            Ok(view) => {
                self.set_view(c, unmarked(view));
                Ok(())
            }
        }
    }

    fn set_mark(&mut self, c: CpuId, m: u8) -> Result<(), Part> {
        match self.hand.view(c) {
            Err(q) => Err(q),
            Ok(view) => {
                self.set_view(c, marked(m, view));
                Ok(())
            }
        }
    }

    #[inline(always)]
    fn change_body(&mut self, work: &Work, t: ThreadId, change: BodyChange) -> Result<(), Part> {
        match self.hand.change(work, self.actor.cpu, t, &change) {
            Err(q) => Err(q),
            Ok(()) => Ok(()),
        }
    }

    fn run_on(&mut self, t: ThreadId, c: CpuId) -> Result<(), Part> {
        match self.hand.first(ListId::Runs(c)) {
            Err(q) => Err(q),
            // None of the states that are shown asks for this.
            Ok(Some(_other)) => Ok(()),
            Ok(None) => match self.relocate_found(t, Step::Arrive(c), ListId::Runs(c)) {
                Err(q) => Err(q),
                Ok(()) => Ok(()),
            },
        }
    }

    fn leave(&mut self, number: u64, c: CpuId, t: ThreadId, to: Destination) -> Result<(), Part> {
        if c.0 != self.actor.cpu.0 {
            return Err(Part::Actor(c));
        }
        let view = match self.hand.view(c) {
            Err(q) => return Err(q),
            Ok(view) => view,
        };
        let list = list_by(c, to);
        match self.hand.home(home_at(list)) {
            Err(q) => Err(q),
            Ok(_) => {
                if is_there(list) {
                    let step = Step::Depart(self.actor.count, place_by(number, c, to));
                    self.relocate(t, ListId::Runs(c), step, list);
                    self.unmark(c, view);
                }
                Ok(())
            }
        }
    }

    fn block(
        &mut self,
        number: u64,
        c: CpuId,
        t: ThreadId,
        l: LockId,
        side: Side,
    ) -> Result<(), Part> {
        if c.0 != self.actor.cpu.0 {
            return Err(Part::Actor(c));
        }
        match self.leave(number, c, t, Destination::Turnstile(l, side)) {
            Err(q) => Err(q),
            Ok(()) => {
                // The processor is the one that acts, so that it gets the duty.
                let _given = self.give(c, walk(number, l, t));
                Ok(())
            }
        }
    }

    fn enqueue(&mut self, work: &Work, number: u64, t: ThreadId, at: Put) -> Result<(), Part> {
        let to = list_put(work, t, at);
        match self.hand.home(home_at(to)) {
            Err(q) => Err(q),
            Ok(_) => {
                let place = place_put(work, number, t, at);
                match self.relocate_found(t, Step::Move(place), to) {
                    Err(q) => Err(q),
                    Ok(()) => Ok(()),
                }
            }
        }
    }

    fn enqueue_as(
        &mut self,
        work: &Work,
        number: u64,
        t: ThreadId,
        class: ClassState,
        at: Put,
    ) -> Result<(), Part> {
        let queue = list_put(work, t, at);
        match self.hand.home(home_at(queue)) {
            Err(q) => Err(q),
            Ok(_) => {
                let place = place_put(work, number, t, at);
                match self.relocate_found(t, Step::MoveAs(class, place), queue) {
                    Err(q) => Err(q),
                    Ok(()) => Ok(()),
                }
            }
        }
    }

    fn set_lock(&mut self, l: LockId, lock: LockState) -> Result<(), Part> {
        match self.hand.lock(l) {
            Err(q) => Err(q),
            Ok(_) => {
                self.hand.set_lock(l, lock);
                Ok(())
            }
        }
    }
}
