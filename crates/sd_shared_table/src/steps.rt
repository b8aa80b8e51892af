//! The single steps of a seat, each with what it tells.

ghost use Rattle.std.specs.Prelude.{◌≡◌, ℕ, suc, ◌+◌, ◌*◌, ◌<◌, true, false, List, Some, [], ◌∷◌, length};
ghost use mathlib.Core.Option as M;
ghost use Rattle.atomic_table.specs.Table.{step, rest};
ghost use Rattle.sd_types.specs.declared.events.Entry.{Entry as EntryOf};
ghost use Rattle.sd_state.specs.States.{cpu_of};
ghost use Rattle.sd_machine.specs.Hints.{hint_shown};
ghost use Rattle.sd_homes.specs.declared.home.Home.{Home as HomeOf};
ghost use Rattle.sd_types.specs.Limits.{most_entries};
ghost use Rattle.sd_shared_rule.specs.Ledgers.{by};
ghost use Rattle.sd_shared_rule.specs.Places.{Stands, holds, home_count, now, place_home};
ghost use Rattle.sd_shared_rule.specs.Plays.{Committed, Counted, Gave, Hinted, Looked, MayCommit, Published, Sees, Took, desk_of, writing};
ghost use Rattle.sd_shared_rule.specs.declared.views.View.TheVariants.{Works};
ghost use Rattle.sd_shared_rule.specs.Words.{hint_word, thread_count, thread_word, tick_word};
ghost use Rattle.sd_shared_table.specs.Intents.{IsDesk};
ghost use Rattle.sd_shared_table.specs.Seats.{id_of, work_of};

use crate::rule::{
    Committing, Counting, Giving, Hinting, Intent, Looking, Naming, Taking, Writing,
};
use crate::shared::Shared;
use atomic_table::Seat as Place;
use sd_homes::Home;
use sd_shared_rule::View;
use sd_types::{CpuId, Event, Hints, Which};

impl Shared {
    /// One exchange of the lock of a home: 0 for the processor's own number plus 1.
    pub fn grab<I: Intent>(&self, place: &mut Place<Option<Home>, View>, k: usize, mine: u64) -> u64
        requires about { I.about ≡ Some (work_of self.now) }
        requires table { place.old.table_id ≡ id_of self.now }
        requires desk { IsDesk place.old.me }
        requires inside { k < home_count (work_of self.now) }
        requires mine { mine ≡ suc (desk_of place.old.me.0).cpu }
        requires fresh { holds k (desk_of place.old.me.0).held ≡ false }
        ensures table { place.new.table_id ≡ place.old.table_id }
        ensures told { Took (work_of self.now) (step (id_of self.now).slots k 0 mine M.none) place.old.me result place.new.me }
    {
        self.table
            .shared
            .compare_exchange::<Taking<I>>(place, k, 0, mine)
    }

    /// The lock of the home that was taken last is free again; the home lies in its slot.
    pub fn lay<I: Intent>(&self, place: &mut Place<Option<Home>, View>, k: usize)
        requires about { I.about ≡ Some (work_of self.now) }
        requires table { place.old.table_id ≡ id_of self.now }
        requires desk { IsDesk place.old.me }
        requires inside { k < home_count (work_of self.now) }
        requires held { holds k (desk_of place.old.me.0).held ≡ true }
        requires settled { (desk_of place.old.me.0).stray ≡ [] }
        requires home { (x : HomeOf) × (place.old.me.1 ≡ (k, Some x) ∷ rest place.old.me.1) × Stands (work_of self.now) k (desk_of place.old.me.0).seen x }
        ensures table { place.new.table_id ≡ place.old.table_id }
        ensures told { Gave (work_of self.now) (step (id_of self.now).slots k 0 0 M.none) place.old.me 0 place.new.me }
    {
        self.table.shared.store::<Giving<I>>(place, k, 0);
    }

    /// Reads the word of a thread.
    pub fn look<I: Intent>(&self, place: &mut Place<Option<Home>, View>, t: usize) -> u64
        requires about { (I.about ≡ Some (work_of self.now)) × (I.number ≡ t) }
        requires table { place.old.table_id ≡ id_of self.now }
        requires desk { IsDesk place.old.me }
        requires inside { t < thread_count (work_of self.now) }
        ensures table { place.new.table_id ≡ place.old.table_id }
        ensures told { Looked (work_of self.now) t (step (id_of self.now).slots (thread_word (work_of self.now) t) 0 0 M.none) place.old.me result place.new.me }
    {
        self.table
            .shared
            .load::<Looking<I>>(place, self.homes + 1 + t)
    }

    /// Writes the word of a thread that stands in a home of the seat.
    pub(crate) fn name<I: Intent>(&self, place: &mut Place<Option<Home>, View>, t: usize, k: u64)
        requires about { (I.about ≡ Some (work_of self.now)) × (I.number ≡ t) }
        requires table { place.old.table_id ≡ id_of self.now }
        requires desk { IsDesk place.old.me }
        requires inside { t < thread_count (work_of self.now) }
        requires here { (h : List EntryOf) → Sees (work_of self.now) (desk_of place.old.me.0) h
            → (place_home (work_of self.now) (now (work_of self.now) h) t ≡ k) × (holds k (desk_of place.old.me.0).held ≡ true) }
        ensures table { place.new.table_id ≡ place.old.table_id }
        ensures told { Published (work_of self.now) t (step (id_of self.now).slots (thread_word (work_of self.now) t) k 0 M.none) place.old.me k place.new.me }
    {
        self.table
            .shared
            .store::<Naming<I>>(place, self.homes + 1 + t, k);
    }

    /// Reads the count of a processor.
    pub(crate) fn read_count<I: Intent>(
        &self,
        place: &mut Place<Option<Home>, View>,
        c: usize,
    ) -> u64
        requires about { (I.about ≡ Some (work_of self.now)) × (I.number ≡ c) }
        requires table { place.old.table_id ≡ id_of self.now }
        requires desk { IsDesk place.old.me }
        requires inside { c < (work_of self.now).cpus }
        ensures table { place.new.table_id ≡ place.old.table_id }
        ensures told { Counted (work_of self.now) c (step (id_of self.now).slots (tick_word (work_of self.now) c) 0 0 M.none) place.old.me result place.new.me }
    {
        self.table
            .shared
            .load::<Counting<I>>(place, self.homes + 1 + self.threads + 2 * self.cpus + c)
    }

    /// Writes the own count.
    pub(crate) fn write_count<I: Intent>(
        &self,
        place: &mut Place<Option<Home>, View>,
        c: usize,
        count: u64,
    )
        requires about { I.about ≡ Some (work_of self.now) }
        requires table { place.old.table_id ≡ id_of self.now }
        requires desk { IsDesk place.old.me }
        requires inside { (c < (work_of self.now).cpus) × (c ≡ (desk_of place.old.me.0).cpu) }
        requires own { count ≡ (cpu_of (now (work_of self.now) (desk_of place.old.me.0).seen) c).count }
        ensures table { place.new.table_id ≡ place.old.table_id }
        ensures told { place.new.me ≡ (Works (writing (desk_of place.old.me.0) (record { word = tick_word (work_of self.now) c; number = count })), place.old.me.1) }
    {
        self.table.shared.store::<Writing<I>>(
            place,
            self.homes + 1 + self.threads + 2 * self.cpus + c,
            count,
        );
    }

    /// The index of the word of a hint.
    fn hint_at(&self, c: usize, which: Which) -> usize
        requires inside { c < (work_of self.now).cpus }
        ensures index { result ≡ hint_word (work_of self.now) c which }
        ensures inside { result < (id_of self.now).words }
    {
        let first = self.homes + 1 + self.threads + 2 * c;
        match which {
            Which::Running => first,
            Which::Queued => first + 1,
        }
    }

    /// Reads a hint of a processor.
    pub(crate) fn read_hint<I: Intent>(
        &self,
        place: &mut Place<Option<Home>, View>,
        c: usize,
        which: Which,
    ) -> u64
        requires about { (I.about ≡ Some (work_of self.now)) × (I.number ≡ c) × (I.which ≡ which) }
        requires table { place.old.table_id ≡ id_of self.now }
        requires desk { IsDesk place.old.me }
        requires inside { c < (work_of self.now).cpus }
        ensures table { place.new.table_id ≡ place.old.table_id }
        ensures told { Hinted (work_of self.now) c which (step (id_of self.now).slots (hint_word (work_of self.now) c which) 0 0 M.none) place.old.me result place.new.me }
    {
        let word = self.hint_at(c, which);
        self.table.shared.load::<Hinting<I>>(place, word)
    }

    /// Writes the number that a processor shows, whatever entries others have made.
    pub(crate) fn write_hint<I: Intent>(
        &self,
        place: &mut Place<Option<Home>, View>,
        c: CpuId,
        which: Which,
        hint: u8,
    )
        requires about { I.about ≡ Some (work_of self.now) }
        requires shown { (h : List EntryOf) → Sees (work_of self.now) (desk_of place.old.me.0) h → hint ≡ hint_shown (now (work_of self.now) h) which c }
        requires table { place.old.table_id ≡ id_of self.now }
        requires desk { IsDesk place.old.me }
        requires inside { c.0 < (work_of self.now).cpus }
        ensures table { place.new.table_id ≡ place.old.table_id }
        ensures told { place.new.me ≡ (Works (writing (desk_of place.old.me.0) (record { word = hint_word (work_of self.now) c.0 which; number = hint })), place.old.me.1) }
    {
        let word = self.hint_at(c.0 as usize, which);
        self.table
            .shared
            .store::<Writing<I>>(place, word, u64::from(hint));
    }

    /// Draws the number of an entry.
    pub(crate) fn draw<I: Intent>(
        &self,
        place: &mut Place<Option<Home>, View>,
        event: &Event,
        hints: &Option<Hints>,
    ) -> u64
        requires about { I.about ≡ Some (work_of self.now) }
        requires event { I.event ≡ event.now }
        requires hints { I.hints ≡ hints.now }
        requires table { place.old.table_id ≡ id_of self.now }
        requires desk { IsDesk place.old.me }
        requires may { (h : List EntryOf) → Sees (work_of self.now) (desk_of place.old.me.0) h → MayCommit (work_of self.now) (desk_of place.old.me.0) event.now hints.now h }
        requires room { length (by (desk_of place.old.me.0).cpu (desk_of place.old.me.0).seen) < most_entries }
        ensures table { place.new.table_id ≡ place.old.table_id }
        ensures told { Committed (work_of self.now) event.now hints.now (step (id_of self.now).slots (home_count (work_of self.now)) 1 0 M.none) place.old.me result place.new.me }
    {
        self.table
            .shared
            .fetch_add::<Committing<I>>(place, self.homes, 1)
    }
}
