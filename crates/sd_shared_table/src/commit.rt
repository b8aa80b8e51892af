//! The entry that a processor makes at the table, and what it publishes of it.

ghost use Rattle.std.specs.Prelude.{◌≡◌, ℕ, ◌+◌, ◌++◌, ◌<◌, ◌^◌, List, [], ◌∷◌, vec_capacity, vec_len};
ghost use Rattle.sd_hand.specs.Acting.{has_part};
ghost use Rattle.sd_world.specs.Worlds.{CanCommit, Commits};
ghost use Rattle.sd_shared_rule.specs.Movers.{mover};
ghost use Rattle.sd_shared_table.specs.Seats.{AreMoved, Fits, FitsAs, HasMade, HasWritten, IsMoved, MayMake, Publishes, Shows, ShowsCount, desk, id_of, seat_meaning, work_of};

use crate::seat::Seat;
use crate::shared::Shared;
use sd_homes::home_at;
use sd_step::after;
use sd_types::{Entry, Event, Hints, ThreadId, Work};
use std::marker::Brand;

/// The thread that the event may move to another place.
fn mover(event: Event) -> Option<ThreadId>
    ensures { result ≡ mover event }
{
    match event {
        Event::Dispatch { t, .. }
        | Event::Steal { t, .. }
        | Event::Preempt { t, .. }
        | Event::Away { t, .. }
        | Event::Yield { t }
        | Event::Done { t }
        | Event::Nap { t }
        | Event::Napend { t, .. }
        | Event::Sleep { t, .. }
        | Event::Block { t, .. }
        | Event::Age { t, .. }
        | Event::CvWait { t, .. }
        | Event::SemaWait { t, .. }
        | Event::Move { t, .. } => Some(t),
        Event::Unblock { u, .. }
        | Event::Grant { u, .. }
        | Event::Prio { u, .. }
        | Event::SemaVWake { u, .. }
        | Event::Bind { u, .. } => Some(u),
        Event::Will { o, .. } => Some(o),
        Event::Wake { woken: Some(u), .. } | Event::Rouse { woken: Some(u), .. } => Some(u.0),
        Event::Wake { woken: None, .. } | Event::Rouse { woken: None, .. } => None,
        Event::Tick { .. }
        | Event::Spin { .. }
        | Event::Idle
        | Event::Wakeall { .. }
        | Event::Enter { .. }
        | Event::Read { .. }
        | Event::Write { .. }
        | Event::End { .. }
        | Event::Exit { .. }
        | Event::Passed { .. }
        | Event::SemaP { .. }
        | Event::SemaVCount { .. }
        | Event::Assign { .. }
        | Event::Joined { .. } => None,
    }
}

impl Seat {
    /// Makes the event as entry `number` on the hand, and adds it to the log, which has room.
    fn make(&mut self, work: &Work, number: u64, event: Event, hints: Option<Hints>)
        requires small { number < 2 ^ 48 }
        requires room { vec_len self.old.log < vec_capacity self.old.log }
        requires may { MayMake work.now number event hints self.old.acting }
        ensures made { HasMade work.now number event hints self.old.acting self.new.acting }
        ensures has { has_part self.new.acting ≡ has_part self.old.acting }
        ensures cpu { self.new.acting.actor.cpu ≡ self.old.acting.actor.cpu }
        ensures log { self.new.log.items ≡ self.old.log.items ++ record { number = number; cpu = self.old.acting.actor.cpu; event = event; hints = hints } ∷ [] }
        ensures rest { (self.new.place ≡ self.old.place) × (self.new.order ≡ self.old.order) }
    {
        let cpu = self.acting.actor.cpu;
        match after(work, &mut self.acting, number, cpu, event) {
            Ok(()) => {}
            Err(_) => unreachable!(),
        }
        self.log.push_reserved(Entry {
            number,
            cpu,
            event,
            hints,
        });
    }
}

impl Shared {
    /// Makes the event as the next entry of the run, and answers its number. The hints are numbers that this seat read since its last entry.
    /// The word of the thread that moved, the hints of the processors whose homes are held and the own count are published.
    pub fn commit(&self, work: &Work, seat: &mut Seat, event: Event, hints: Option<Hints>) -> u64
        requires work { work.now ≡ work_of self.now }
        requires fits { Fits (id_of self.now) (work_of self.now) seat.old }
        requires can { CanCommit (seat_meaning (work_of self.now) seat.old) work.now event hints }
        ensures fits { Fits (id_of self.now) (work_of self.now) seat.new }
        ensures commits { Commits (seat_meaning (work_of self.now) seat.old) (seat_meaning (work_of self.now) seat.new) result event hints }
        ensures shows { Shows (work_of self.now) seat.new }
    {
        let number = self.draw::<Brand>(&mut seat.place, &event, &hints);
        seat.make(work, number, event, hints);
        self.publish(seat, event);
        number
    }

    /// Publishes what the event has changed.
    fn publish(&self, seat: &mut Seat, event: Event)
        requires fits { (ts : List ℕ) × FitsAs (id_of self.now) (work_of self.now) ts (desk seat.old) seat.old × AreMoved event seat.old.acting ts }
        ensures fits { Fits (id_of self.now) (work_of self.now) seat.new }
        ensures publishes { Publishes seat.old seat.new }
        ensures shows { Shows (work_of self.now) seat.new }
    {
        self.publish_mover(seat, event);
        self.publish_hints(seat);
        self.publish_count(seat);
    }

    /// The word of the thread that the event has moved names its home.
    fn publish_mover(&self, seat: &mut Seat, event: Event)
        requires fits { (ts : List ℕ) × FitsAs (id_of self.now) (work_of self.now) ts (desk seat.old) seat.old × AreMoved event seat.old.acting ts }
        ensures fits { Fits (id_of self.now) (work_of self.now) seat.new }
        ensures publishes { Publishes seat.old seat.new }
    {
        match mover(event) {
            None => {}
            Some(t) => self.publish_thread(seat, t),
        }
    }

    /// The word of a thread in the hand names its home.
    fn publish_thread(&self, seat: &mut Seat, t: ThreadId)
        requires fits { (ts : List ℕ) × FitsAs (id_of self.now) (work_of self.now) ts (desk seat.old) seat.old × IsMoved t.0 seat.old.acting ts }
        ensures fits { Fits (id_of self.now) (work_of self.now) seat.new }
        ensures publishes { Publishes seat.old seat.new }
    {
        match seat.acting.hand.where_is(t) {
            Err(_) => {}
            Ok(at) => {
                let index = self.index(home_at(at));
                self.name::<Brand>(&mut seat.place, t.0 as usize, index as u64);
            }
        }
    }

    /// The word of the own ticks is the own count.
    fn publish_count(&self, seat: &mut Seat)
        requires fits { Fits (id_of self.now) (work_of self.now) seat.old }
        ensures fits { Fits (id_of self.now) (work_of self.now) seat.new }
        ensures written { HasWritten seat.old seat.new }
        ensures shows { ShowsCount (work_of self.now) seat.new }
    {
        let cpu = seat.acting.actor.cpu.0 as usize;
        let count = u64::from(seat.acting.actor.count);
        self.write_count::<Brand>(&mut seat.place, cpu, count);
    }
}
