//! A table is closed: its homes and the logs of its seats are one run again.

ghost use Rattle.std.specs.Prelude.{◌≡◌, ◌++◌, ◌∷◌, [], ◌<◌, ◌≤◌, List, length, map, IfOk, OnOk, vec_capacity};
ghost use Rattle.sd_types.specs.declared.events.Entry.{Entry as EntryOf};
ghost use Rattle.sd_machine.specs.Runs.{IsRun};
ghost use Rattle.sd_world.specs.Plain.{Stands};
ghost use Rattle.sd_shared_rule.specs.declared.views.View.TheVariants.{Gathers};
ghost use Rattle.sd_shared_rule.specs.Ledgers.{Since};
ghost use Rattle.sd_shared_rule.specs.Places.{home_count};
ghost use Rattle.sd_shared_table.specs.declared.seat.Seat.{Seat as SeatOf};
ghost use Rattle.sd_shared_table.specs.Seats.{desk, id_of, work_of};
ghost use Rattle.sd_shared_table.specs.Whole.{AreLogged, AreSeats, HasEnded, IsGathered, IsSeatOf};

use crate::history::in_order;
use crate::rule::{Gathering, Sitting};
use crate::seat::Seat;
use crate::shared::Shared;
use atomic_table::Seat as Place;
use sd_hand::{Acting, Actor, Guide, Hand};
use sd_homes::Home;
use sd_shared_rule::View;
use sd_types::{Entry, Work};
use sd_world::PlainWorld;
use std::alloc::{AllocError, Global};

/// Seats that were gathered into one: that seat, and of each the processor and the log.
#[derive(Drop)]
pub(crate) struct Gathered {
    pub(crate) place: Place<Option<Home>, View>,
    pub(crate) actors: Vec<Actor>,
    pub(crate) logs: Vec<Vec<Entry>>,
}

/// What was left of a table: the number of entries, and the homes in their slots.
#[derive(Drop)]
pub(crate) struct Ended {
    pub(crate) count: u64,
    pub(crate) slots: Vec<Option<Home>>,
}

impl Shared {
    /// The run of all processors: their entries, in the order of their numbers, and the homes, which stand for the state to which
    /// these led. It takes all seats back, none of which holds a home. `Err` only where memory runs out; then the table and the
    /// seats are gone.
    pub fn close<'a>(
        self,
        alloc: Global,
        work: &'a Work,
        seats: Vec<Seat>,
    ) -> Result<PlainWorld<'a>, AllocError>
        requires work { work.now ≡ work_of self }
        requires seats { AreSeats (id_of self) (work_of self) seats.items }
        ensures stands { IfOk result (λ x. Stands work.now x) }
        ensures work { IfOk result (λ x. x.work.now ≡ work.now) }
        ensures logs { IfOk result (λ x. AreLogged x.entries.items seats.items) }
    {
        let slots = Vec::with_capacity(alloc, self.homes)?;
        let gathered = self.gather(alloc, seats)?;
        let Gathered {
            place,
            actors,
            logs,
        } = gathered;
        let ended = self.end(place, slots);
        let Ended { count, slots } = ended;
        let entries = in_order(alloc, count as usize, logs)?;
        let sets = work.sets.items().len() + 1;
        let guide = Guide::of(work.cpus as usize, sets, Vec::new(alloc));
        let actor = actors[0];
        Ok(PlainWorld {
            work,
            acting: Acting {
                hand: Hand::of(slots, guide),
                actor,
            },
            actors,
            entries,
        })
    }

    /// A seat that has gathered none.
    fn sit(&self) -> Place<Option<Home>, View>
        ensures table { result.table_id ≡ id_of self.now }
        ensures view { result.me ≡ (Gathers [], []) }
    {
        self.table.shared.load_new_seat::<Sitting>(0).1
    }

    /// Takes all seats back.
    fn gather(&self, alloc: Global, seats: Vec<Seat>) -> Result<Gathered, AllocError>
        requires seats { AreSeats (id_of self.now) (work_of self.now) seats.items }
        ensures { IfOk result (λ g. IsGathered (id_of self.now) seats.items g) }
    {
        let mut gathered = Gathered {
            place: self.sit(),
            actors: Vec::new(alloc),
            logs: Vec::new(alloc),
        };
        for seat in seats {
            self.take_back(&mut gathered, seat)?;
        }
        Ok(gathered)
    }

    /// Takes the seat of the next processor back.
    fn take_back(&self, gathered: &mut Gathered, seat: Seat) -> Result<(), AllocError>
        requires before { (done : List SeatOf) × IsGathered (id_of self.now) done gathered.old × IsSeatOf (id_of self.now) (work_of self.now) (length done) seat }
        ensures { OnOk result ((done : List SeatOf) → IsGathered (id_of self.now) done gathered.old → IsGathered (id_of self.now) (done ++ seat ∷ []) gathered.new) }
    {
        let Seat {
            place,
            acting,
            order: _,
            log,
        } = seat;
        self.table
            .shared
            .join_seat::<Gathering>(&mut gathered.place, place);
        gathered.actors.push(acting.actor)?;
        gathered.logs.push(log)?;
        Ok(())
    }

    /// The homes and the number of entries of a table that nobody shares any more. There is room for the homes.
    fn end(self, place: Place<Option<Home>, View>, mut slots: Vec<Option<Home>>) -> Ended
        requires place { place.table_id ≡ id_of self }
        requires gathered { (seens : List (List EntryOf)) × (place.me.0 ≡ Gathers seens) × (length seens ≡ (work_of self).cpus) }
        requires room { (slots.items ≡ []) × (self.homes ≤ vec_capacity slots) }
        ensures { (seens : List (List EntryOf)) → place.me.0 ≡ Gathers seens → HasEnded (work_of self) seens result }
    {
        let Shared { table, homes, .. } = self;
        let mut closed = table.close_with(place);
        let count = closed.word(homes);
        for i in 0..homes {
            slots.push_reserved(closed.take(i));
        }
        closed.free();
        Ended { count, slots }
    }
}
