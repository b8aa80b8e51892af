//! A table is opened: the homes of a work lie in its slots, and each processor has a seat.

ghost use Rattle.std.specs.Prelude.{◌≡◌, ◌+◌, ◌<◌, [], length, IfOk, OnOk};
ghost use Rattle.atomic_table.specs.Table.{opening as table_opening};
ghost use Rattle.sd_hand.specs.Hands.{IsHeld};
ghost use Rattle.sd_world.specs.Told.{AreActorsOf, IsActorOf};
ghost use Rattle.sd_types.specs.declared.numbers.HomeId.{HomeId as HomeIdOf};
ghost use Rattle.sd_world.specs.Homes.{IsNumber};
ghost use Rattle.sd_shared_rule.specs.declared.views.View.TheVariants.{Maker};
ghost use Rattle.sd_shared_rule.specs.Places.{home_count, now, sizes};
ghost use Rattle.sd_shared_rule.specs.Rule.{Kept};
ghost use Rattle.sd_shared_rule.specs.Words.{word_count};
ghost use Rattle.sd_shared_table.specs.Seats.{id_of, work_of};
ghost use Rattle.sd_shared_table.specs.Whole.{AreLaid, AreNew, AreSeats, IsSeatOf};

use crate::indices::{home_count, number_in};
use crate::rule::Cutting;
use crate::seat::Seat;
use crate::shared::Shared;
use crate::words::words_of;
use arrayvec::ArrayVec;
use atomic_table::{Seat as Place, Table};
use sd_hand::{Acting, Actor, Hand};
use sd_homes::Home;
use sd_shared_rule::View;
use sd_types::Work;
use sd_world::PlainWorld;
use std::alloc::{AllocError, Global};

/// The homes of a hand that has all, each in the slot of its index.
fn slots_of(alloc: Global, work: &Work, hand: &mut Hand) -> Result<Vec<Option<Home>>, AllocError>
    requires all { (k : HomeIdOf) → IsNumber (sizes work.now) k → IsHeld k hand.old.slots }
    ensures { IfOk result (λ v. AreLaid (sizes work.now) hand.old.slots (home_count work.now) v.items) }
{
    let mut slots = Vec::new(alloc);
    for i in 0..home_count(work) {
        match hand.release(number_in(work, i)) {
            Some(home) => slots.push(Some(home))?,
            None => unreachable!(),
        }
    }
    Ok(slots)
}

impl Shared {
    /// The homes of a work at its opening, behind locks, and a seat for each of its processors, in rising order. `Err` only where
    /// memory runs out.
    pub fn open(alloc: Global, work: &Work) -> Result<(Shared, Vec<Seat>), AllocError>
        ensures work { IfOk result (λ r. work_of r.0 ≡ work.now) }
        ensures seats { IfOk result (λ r. AreSeats (id_of r.0) work.now r.1.items) }
        ensures fresh { IfOk result (λ r. AreNew r.1.items) }
    {
        let mut world = PlainWorld::new(alloc, work)?;
        let words = words_of(alloc, work, &world)?;
        let slots = slots_of(alloc, work, &mut world.acting.hand)?;
        let (shared, maker) = Shared::of_parts(alloc, work, words, slots)?;
        let seats = shared.seats(alloc, maker, &world.actors)?;
        Ok((shared, seats))
    }

    /// A table with these words and slots, and the seat from which the others are cut.
    fn of_parts(
        alloc: Global,
        work: &Work,
        words: Vec<u64>,
        slots: Vec<Option<Home>>,
    ) -> Result<(Shared, Place<Option<Home>, View>), AllocError>
        requires kept { Kept work.now (table_opening words.items slots.items (Maker 0)) }
        requires counts { (length words.items ≡ word_count work.now) × (length slots.items ≡ home_count work.now) }
        ensures work { IfOk result (λ r. work_of r.0 ≡ work.now) }
        ensures maker { IfOk result (λ r. (r.1.table_id ≡ id_of r.0) × (r.1.me ≡ (Maker 0, []))) }
    {
        let homes = slots.len();
        match Table::new(alloc, words.as_slice(), slots, work) {
            Err(_) => Err(AllocError),
            Ok((table, maker)) => {
                let shared = Shared {
                    table,
                    homes,
                    threads: work.threads.items().len(),
                    cpus: work.cpus as usize,
                };
                Ok((shared, maker))
            }
        }
    }

    /// A seat for each processor, in rising order.
    fn seats(
        &self,
        alloc: Global,
        mut maker: Place<Option<Home>, View>,
        actors: &[Actor],
    ) -> Result<Vec<Seat>, AllocError>
        requires maker { (maker.table_id ≡ id_of self.now) × (maker.me ≡ (Maker 0, [])) }
        requires actors { AreActorsOf (now (work_of self.now) []) actors.now }
        ensures seats { IfOk result (λ v. AreSeats (id_of self.now) (work_of self.now) v.items) }
        ensures fresh { IfOk result (λ v. AreNew v.items) }
    {
        let mut seats = Vec::new(alloc);
        for c in 0..actors.len() {
            seats.push(self.seat(alloc, &mut maker, actors[c])?)?;
        }
        Ok(seats)
    }

    /// The seat of the next processor, which has its count and its duty.
    fn seat(
        &self,
        alloc: Global,
        maker: &mut Place<Option<Home>, View>,
        actor: Actor,
    ) -> Result<Seat, AllocError>
        requires maker { (maker.old.table_id ≡ id_of self.now) × (maker.old.me ≡ (Maker actor.cpu.0, [])) }
        requires inside { actor.cpu.0 < (work_of self.now).cpus }
        requires actor { IsActorOf (now (work_of self.now) []) actor.cpu.0 actor }
        ensures maker { OnOk result ((maker.new.table_id ≡ id_of self.now) × (maker.new.me ≡ (Maker (actor.cpu.0 + 1), []))) }
        ensures seat { IfOk result (λ s. IsSeatOf (id_of self.now) (work_of self.now) actor.cpu.0 s) }
        ensures fresh { IfOk result (λ s. s.log.items ≡ []) }
    {
        let hand = Hand::new(alloc)?;
        let place = self.table.shared.split_seat::<Cutting>(maker);
        Ok(Seat {
            place,
            acting: Acting { hand, actor },
            order: ArrayVec::new(),
            log: Vec::new(alloc),
        })
    }
}
