//! How a thread goes from list to list, and changes on the way or where it stands.

ghost use Rattle.std.specs.Prelude.{◌≡◌, ℕ, Some, false, is_some, true, IfErr, IfSome};
ghost use Rattle.sd_types.specs.declared.numbers.HomeId.{HomeId as HomeIdOf};
ghost use Rattle.sd_record.specs.Records.{ThreadRecord};
ghost use Rattle.sd_store.specs.Bodies.{changed};
ghost use Rattle.sd_homes.specs.Standing.{home_at};
ghost use Rattle.sd_homes.specs.Bodies.{CanChangeThread};
ghost use Rattle.sd_homes.specs.Families.{putting, taken_from, taking};
ghost use Rattle.sd_homes.specs.Homes.{with_body_of};
ghost use Rattle.sd_hand.specs.Hands.{AreApart, Seeks, edit, has_thread, held};
ghost use Rattle.sd_hand.specs.Shown.{IsListThere};
ghost use Rattle.sd_hand.specs.Steps.{HasChanged, HasGone, GoesBack, Relocated, RunsFromQueue, list_by, list_put, stepped};

use crate::hand::Hand;
use sd_homes::{ListId, Traveller};
use sd_state::Place;
use sd_store::{BodyChange, Destination, Part, set_of};
use sd_types::{ClassState, CpuId, MOST_OBJECTS, Put, ThreadId, Work};

/// What becomes of a thread on its way: it runs on a processor, leaves one that has counted so many ticks for a place,
/// goes to a place, or goes there with another class state.
#[derive(Clone, Copy)]
pub enum Step {
    Arrive(CpuId),
    Depart(u32, Place),
    Move(Place),
    MoveAs(ClassState, Place),
}

#[inline(always)]
fn take_step(traveller: &mut Traveller, step: &Step)
    ensures { traveller.new ≡ stepped step.now traveller.old }
{
    match step {
        Step::Arrive(c) => {
            traveller.arrive(*c);
            traveller.set_place(Place::Running(*c));
        }
        Step::Depart(count, place) => {
            traveller.depart(*count);
            traveller.set_place(*place);
        }
        Step::Move(place) => traveller.set_place(*place),
        Step::MoveAs(class, place) => {
            traveller.set_class(*class);
            traveller.set_place(*place);
        }
    }
}

/// The processor from whose queue a thread goes to run there, where that is its way.
#[inline(always)]
fn run_from_queue(from: ListId, step: &Step, to: ListId) -> Option<CpuId>
    ensures { IfSome result (λ c. RunsFromQueue c from step.now to) }
{
    match (from, step, to) {
        (ListId::Queues(c), Step::Arrive(d), ListId::Runs(e)) => {
            if c.0 == d.0 && c.0 == e.0 {
                Some(c)
            } else {
                None
            }
        }
        _ => None,
    }
}

/// The processor to whose queue a thread goes back from there with another class state and key, where that is its way.
#[inline(always)]
fn back_to_queue(from: ListId, step: &Step, to: ListId) -> Option<(CpuId, ClassState, i64)>
    ensures { IfSome result (λ r. GoesBack r.0 r.1 r.2 from step.now to) }
{
    match (from, step, to) {
        (ListId::Queues(c), Step::MoveAs(class, Place::Queued(d, key)), ListId::Queues(e)) => {
            if c.0 == d.0 && c.0 == e.0 {
                Some((c, *class, *key))
            } else {
                None
            }
        }
        _ => None,
    }
}

impl Hand {
    /// Thread `t`, if it stands there, goes to another list, and changes on the way. Tells whether it stands there; where it does not, all
    /// stays as it was.
    #[inline(always)]
    pub(crate) fn relocate(&mut self, t: ThreadId, from: ListId, step: &Step, to: ListId) -> bool
        ensures { Relocated t.0 from step.now to self.old.slots self.new.slots result }
    {
        match self.take(t, from) {
            None => false,
            Some(mut traveller) => {
                take_step(&mut traveller, step);
                self.put(traveller, to);
                true
            }
        }
    }

    /// The same, where a thread that stays in its home goes within it.
    #[inline(always)]
    fn relocate_within(&mut self, t: ThreadId, from: ListId, step: &Step, to: ListId) -> bool
        ensures { Relocated t.0 from step.now to self.old.slots self.new.slots result }
    {
        if let Some(c) = run_from_queue(from, step, to) {
            return self.run_queued(t, c);
        }
        if let Some((c, class, key)) = back_to_queue(from, step, to) {
            return self.requeue(t, c, class, key);
        }
        self.relocate(t, from, step, to)
    }

    /// The same from wherever the thread stands, which is told, by a search of all homes.
    #[inline(never)]
    fn relocate_searched(&mut self, t: ThreadId, step: Step, to: ListId) -> Result<ListId, Part>
        ensures gone { Seeks t self.old.slots result (HasGone t step to self.old.slots self.new.slots) }
        ensures kept { IfErr result (λ _. self.new.slots ≡ self.old.slots) }
    {
        match self.where_found(t) {
            Err(q) => Err(q),
            Ok(from) => {
                self.relocate(t, from, &step, to);
                Ok(from)
            }
        }
    }

    /// Thread `t` goes from the list in which it stands, which is told, to another one, and changes on the way. The thread is lacking where no
    /// held home has it.
    pub(crate) fn relocate_found(
        &mut self,
        t: ThreadId,
        step: &Step,
        to: ListId,
    ) -> Result<ListId, Part>
        ensures gone { Seeks t self.old.slots result (HasGone t step.now to self.old.slots self.new.slots) }
        ensures kept { IfErr result (λ _. self.new.slots ≡ self.old.slots) }
    {
        if let Some(at) = self.guide_of(t) {
            if self.relocate_within(t, at, step, to) {
                return Ok(at);
            }
        }
        self.relocate_searched(t, *step, to)
    }

    /// The body of thread `t`, if it stands there, changes on a way out of its list and back into it. Tells whether it stands there; where it
    /// does not, all stays as it was.
    fn change_moved(&mut self, work: &Work, t: ThreadId, at: ListId, change: BodyChange) -> bool
        ensures stood { result ≡ is_some (taken_from t.0 at (held (home_at at) self.old.slots)) }
        ensures untouched { result ≡ false → self.new.slots ≡ self.old.slots }
        ensures moved { (r : ThreadRecord) → Some r ≡ taken_from t.0 at (held (home_at at) self.old.slots) → CanChangeThread work.now t.0 change r.body
            → self.new.slots ≡ edit (home_at at) (putting (with_body_of (changed work.now t.0 change r.body) r) at) (edit (home_at at) (taking t.0 at) self.old.slots) }
        ensures held { (k : HomeIdOf) → is_some (held k self.new.slots) ≡ is_some (held k self.old.slots) }
        ensures apart { AreApart self.old.slots → AreApart self.new.slots }
        ensures has { (u : ℕ) → has_thread u self.new.slots ≡ has_thread u self.old.slots }
    {
        match self.take(t, at) {
            None => false,
            Some(mut traveller) => {
                traveller.change(work, t, change);
                self.put(traveller, at);
                true
            }
        }
    }

    /// The body of thread `t`, if it stands there, changes, where it can be changed so. Tells whether it stands there; where it does not, all
    /// stays as it was.
    fn change_at(&mut self, work: &Work, t: ThreadId, at: ListId, change: BodyChange) -> bool
        ensures stood { result ≡ is_some (taken_from t.0 at (held (home_at at) self.old.slots)) }
        ensures untouched { result ≡ false → self.new.slots ≡ self.old.slots }
        ensures moved { (r : ThreadRecord) → Some r ≡ taken_from t.0 at (held (home_at at) self.old.slots) → CanChangeThread work.now t.0 change r.body
            → self.new.slots ≡ edit (home_at at) (putting (with_body_of (changed work.now t.0 change r.body) r) at) (edit (home_at at) (taking t.0 at) self.old.slots) }
        ensures held { (k : HomeIdOf) → is_some (held k self.new.slots) ≡ is_some (held k self.old.slots) }
        ensures apart { AreApart self.old.slots → AreApart self.new.slots }
        ensures has { (u : ℕ) → has_thread u self.new.slots ≡ has_thread u self.old.slots }
    {
        match at {
            ListId::Runs(c) => self.change_running(work, t, c, change),
            _ => self.change_moved(work, t, at, change),
        }
    }

    /// The body of thread `t` changes, where it can be changed so, by a search of all homes. The thread is lacking where no held home has it.
    #[inline(never)]
    fn change_searched(&mut self, work: &Work, t: ThreadId, change: BodyChange) -> Result<(), Part>
        ensures changed { Seeks t self.old.slots result (λ _. HasChanged work.now t change self.old.slots self.new.slots) }
        ensures kept { IfErr result (λ _. self.new.slots ≡ self.old.slots) }
    {
        match self.where_found(t) {
            Err(q) => Err(q),
            Ok(at) => {
                self.change_at(work, t, at, change);
                Ok(())
            }
        }
    }

    /// The same, where the thread may well stand where it came last.
    #[inline(never)]
    fn change_found(&mut self, work: &Work, t: ThreadId, change: &BodyChange) -> Result<(), Part>
        ensures changed { Seeks t self.old.slots result (λ _. HasChanged work.now t change.now self.old.slots self.new.slots) }
        ensures kept { IfErr result (λ _. self.new.slots ≡ self.old.slots) }
    {
        if let Some(at) = self.guide_of(t) {
            if self.change_at(work, t, at, *change) {
                return Ok(());
            }
        }
        self.change_searched(work, t, *change)
    }

    /// The same, where the thread may well run on processor `c`: then it is found and changed at once.
    #[inline(always)]
    pub(crate) fn change(
        &mut self,
        work: &Work,
        c: CpuId,
        t: ThreadId,
        change: &BodyChange,
    ) -> Result<(), Part>
        ensures changed { Seeks t self.old.slots result (λ _. HasChanged work.now t change.now self.old.slots self.new.slots) }
        ensures kept { IfErr result (λ _. self.new.slots ≡ self.old.slots) }
    {
        if self.change_running(work, t, c, *change) {
            return Ok(());
        }
        self.change_found(work, t, change)
    }

    /// Thread `t`, which stands there, is bound to a processor, or to none.
    pub(crate) fn bind_at(&mut self, t: ThreadId, at: ListId, bound: Option<CpuId>)
        ensures moved { (r : ThreadRecord) → Some r ≡ taken_from t.0 at (held (home_at at) self.old.slots)
            → self.new.slots ≡ edit (home_at at) (putting (with_body_of (record r.body { bound = bound }) r) at) (edit (home_at at) (taking t.0 at) self.old.slots) }
        ensures held { (k : HomeIdOf) → is_some (held k self.new.slots) ≡ is_some (held k self.old.slots) }
        ensures apart { AreApart self.old.slots → AreApart self.new.slots }
        ensures has { (u : ℕ) → has_thread u self.new.slots ≡ has_thread u self.old.slots }
    {
        if let Some(mut traveller) = self.take(t, at) {
            traveller.set_bound(bound);
            self.put(traveller, at);
        }
    }
}

/// The list to which a thread goes when it leaves processor `c`.
pub(crate) fn list_by(c: CpuId, to: Destination) -> ListId
    ensures { result ≡ list_by c to }
{
    match to {
        Destination::Queue(d, _) => ListId::Queues(d),
        Destination::RealTime(p, _) => ListId::Urgent(p),
        Destination::Turnstile(l, side) => ListId::Waits(l, side),
        Destination::SleepQueue(k) => ListId::Sleeps(k),
        Destination::Nap(_) => ListId::Naps(c),
        Destination::Nowhere => ListId::Ends(c),
    }
}

/// The list to which a thread is put.
pub(crate) fn list_put(work: &Work, t: ThreadId, at: Put) -> ListId
    ensures { result ≡ list_put work.now t at }
{
    match at {
        Put::Cpu(x) => ListId::Queues(x),
        Put::RealTime(_) => ListId::Urgent(set_of(work, t)),
    }
}

/// A lock or a channel of a chain has a number below the most of them.
pub(crate) fn is_there(at: ListId) -> bool
    ensures yes { result ≡ true → IsListThere at }
    ensures no { IsListThere at → result ≡ true }
{
    match at {
        ListId::Waits(l, _) => (l.0 as usize) < MOST_OBJECTS,
        ListId::Sleeps(k) => (k.0 as usize) < MOST_OBJECTS,
        _ => true,
    }
}
