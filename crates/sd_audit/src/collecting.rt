//! What may be kept of the entries of a journal while it is judged, so that no journal is read twice.

use sd_homes_replay::step;
use sd_types::{Entry, Work};
use sd_world::PlainWorld;
use std::alloc::{AllocError, Global};

/// Makes the entries of a journal, one after another, and keeps something of the run that they are.
pub trait Collector {
    ghost use Rattle.std.specs.Prelude.{◌≡◌, ◌+◌, ◌<◌, ◌^◌, ◌↔◌, List as Items, IfOk, IsTrue, length};
    ghost use Rattle.std.specs.Bool.{OnFalse, OnTrue};
    ghost use Rattle.sd_types.specs.declared.events.Entry.{Entry as EntryValue};
    ghost use Rattle.sd_types.specs.declared.works.Work.{Work as WorkValue};
    ghost use Rattle.sd_machine.specs.Events.{after};
    ghost use Rattle.sd_machine.specs.Runs.{IsStep};
    ghost use Rattle.sd_world.specs.Plain.{Stands, told};
    ghost use Rattle.sd_audit.specs.Collecting.{IsAfter, Takes};

    /// The first became the second as it took in these entries, which are a run from its first entry on.
    ghost became: { WorkValue → Items EntryValue → Self → Self → Type 0 };

    /// True exactly where the entry, whose number is that of the entries so far, is a step from the state to which they led, which is
    /// then made on the homes; and takes the entry in. With false the state is as before.
    fn enter(
        &mut self,
        alloc: Global,
        work: &Work,
        world: &mut PlainWorld<'_>,
        entry: &Entry,
    ) -> Result<bool, AllocError>
        requires stands { Stands work.now world.old }
        requires work { world.old.work.now ≡ work.now }
        requires counted { entry.now.number ≡ length world.old.entries.items }
        requires follows { IsAfter work.now entry.now.number (told work.now world.old) (λ es. (first : Self) × became work.now es first self.old) }
        requires number { entry.now.number < 2 ^ 31 }
        ensures stands { Stands work.now world.new }
        ensures work { world.new.work ≡ world.old.work }
        ensures step { IfOk result (λ is_step. IsTrue is_step ↔ IsStep work.now (told work.now world.old) entry.now) }
        ensures made { IfOk result (λ is_step. OnTrue is_step (told work.now world.new ≡ after work.now (told work.now world.old) entry.now.number entry.now.cpu entry.now.event)) }
        ensures more { IfOk result (λ is_step. OnTrue is_step (length world.new.entries.items ≡ entry.now.number + 1)) }
        ensures kept { IfOk result (λ is_step. OnFalse is_step (world.new.entries.items ≡ world.old.entries.items)) }
        ensures takes { IfOk result (λ is_step. OnTrue is_step ((first : Self) → Takes work.now (told work.now world.old) entry.now (λ es. became work.now es first self.old) (λ es. became work.now es first self.new))) };
}

/// Keeps nothing.
#[derive(Drop)]
pub(crate) struct NoCollector;

impl Collector for NoCollector {
    ghost use Rattle.std.specs.Prelude.{⊤};

    ghost became = { λ w es first x. ⊤ };

    fn enter(
        &mut self,
        _alloc: Global,
        work: &Work,
        world: &mut PlainWorld<'_>,
        entry: &Entry,
    ) -> Result<bool, AllocError> {
        step(work, world, entry)
    }
}
