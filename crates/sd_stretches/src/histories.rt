//! The collector.

ghost use Rattle.std.specs.Prelude.{◌≡◌, ◌+◌, ◌<◌, ◌^◌, ◌∷◌, [], ◌++◌, length, List as Items, IfOk, OnOk, Some, None};
ghost use Rattle.sd_types.specs.declared.events.Entry.{Entry as EntryValue};
ghost use Rattle.sd_types.specs.declared.works.Work.{Work as WorkValue};
ghost use Rattle.sd_state.specs.Opening.{opening};
ghost use Rattle.sd_machine.specs.Runs.{final};
ghost use Rattle.sd_stretches.specs.Altered.{last_count, loads_by, onsets_by, ranks_by, sights_by};
ghost use Rattle.sd_stretches.specs.Changes.{load_if, ranks_between, onsets_between};
ghost use Rattle.sd_stretches.specs.Glimpses.{glimpse_of};
ghost use Rattle.sd_stretches.specs.Histories.{IsHistory};
ghost use Rattle.sd_stretches.specs.Sights.{sights_of};

use crate::changes::{
    HandOver, Happening, Load, Onset, Rank, Wakeup, push_load, push_load_by, push_onset,
    push_onsets, push_rank, push_ranks, set_sight, sight_at,
};
use crate::glimpses::{Glimpse, push_hand_over, push_happening, push_wakeup};
use crate::named::altered;
use crate::sights::{Sight, sights_of};
use sd_state::State;
use sd_types::{Entry, Work};
use std::alloc::{AllocError, Global};

/// What the states and entries of a run show, in order of the entries, as far as it was taken in: what each thread does, its
/// priorities, how many threads stand on dispatch queues, who hands priority on, who wakes whom, and the entries themselves. Of which entries it is the
/// history is said by `IsHistory`.
#[derive(Drop)]
pub struct History {
    pub onsets: Vec<Onset>,
    pub ranks: Vec<Rank>,
    pub loads: Vec<Load>,
    pub hand_overs: Vec<HandOver>,
    pub wakeups: Vec<Wakeup>,
    pub happenings: Vec<Happening>,
    pub(crate) sights: Vec<Sight>,
    pub entries: u64,
}

impl History {
    // Nothing is taken in yet, not even the initial state.
    fn empty(alloc: Global) -> History
        ensures onsets { result.onsets.items ≡ [] }
        ensures ranks { result.ranks.items ≡ [] }
        ensures loads { result.loads.items ≡ [] }
        ensures hand_overs { result.hand_overs.items ≡ [] }
        ensures wakeups { result.wakeups.items ≡ [] }
        ensures happenings { result.happenings.items ≡ [] }
        ensures sights { result.sights.items ≡ [] }
        ensures entries { result.entries ≡ 0 }
    {
        History {
            onsets: Vec::new(alloc),
            ranks: Vec::new(alloc),
            loads: Vec::new(alloc),
            hand_overs: Vec::new(alloc),
            wakeups: Vec::new(alloc),
            happenings: Vec::new(alloc),
            sights: Vec::new(alloc),
            entries: 0,
        }
    }

    // Takes in what is seen in the initial state.
    fn see_all(&mut self, alloc: Global, s: &State) -> Result<(), AllocError>
        ensures onsets { OnOk result (self.new.onsets.items ≡ self.old.onsets.items ++ onsets_between self.old.sights.items (sights_of s.now) 0 0) }
        ensures ranks { OnOk result (self.new.ranks.items ≡ self.old.ranks.items ++ ranks_between self.old.sights.items (sights_of s.now) 0 0) }
        ensures loads { OnOk result (self.new.loads.items ≡ self.old.loads.items ++ load_if self.old.sights.items (sights_of s.now) 0 0) }
        ensures sights { OnOk result (self.new.sights.items ≡ sights_of s.now) }
        ensures entries { self.new.entries ≡ self.old.entries }
        ensures hand_overs { self.new.hand_overs ≡ self.old.hand_overs }
        ensures wakeups { self.new.wakeups ≡ self.old.wakeups }
        ensures happenings { self.new.happenings ≡ self.old.happenings }
    {
        let sights = sights_of(alloc, s)?;
        push_onsets(&self.sights, &sights, 0, 0, &mut self.onsets)?;
        push_ranks(&self.sights, &sights, 0, 0, &mut self.ranks)?;
        push_load(&self.sights, &sights, 0, 0, &mut self.loads)?;
        self.sights = sights;
        Ok(())
    }

    // Takes in what is seen in the next state of the one thread that may be seen otherwise.
    fn see(
        &mut self,
        altered: Option<usize>,
        glimpse: &Glimpse,
        first: u64,
    ) -> Result<(), AllocError>
        ensures onsets { OnOk result (self.new.onsets.items ≡ self.old.onsets.items ++ onsets_by altered first glimpse.now.tick self.old.sights.items glimpse.now.sight) }
        ensures ranks { OnOk result (self.new.ranks.items ≡ self.old.ranks.items ++ ranks_by altered first glimpse.now.tick self.old.sights.items glimpse.now.sight) }
        ensures loads { OnOk result (self.new.loads.items ≡ self.old.loads.items ++ loads_by (last_count self.old.loads.items) altered first glimpse.now.tick self.old.sights.items glimpse.now.sight) }
        ensures sights { OnOk result (self.new.sights.items ≡ sights_by altered self.old.sights.items glimpse.now.sight) }
        ensures entries { self.new.entries ≡ self.old.entries }
        ensures hand_overs { self.new.hand_overs ≡ self.old.hand_overs }
        ensures wakeups { self.new.wakeups ≡ self.old.wakeups }
        ensures happenings { self.new.happenings ≡ self.old.happenings }
    {
        let Some(t) = altered else {
            return Ok(());
        };
        let tick = glimpse.tick;
        let old = sight_at(&self.sights, t);
        let new = glimpse.sight;
        push_onset(t, first, tick, old, new, &mut self.onsets)?;
        push_rank(t, first, tick, old, new, &mut self.ranks)?;
        push_load_by(first, tick, old, new, &mut self.loads)?;
        set_sight(&mut self.sights, t, new);
        Ok(())
    }

    /// The history of a workload's run before its first entry, from its initial state.
    pub fn new(alloc: Global, s: &State) -> Result<History, AllocError>
        ensures { IfOk result (λ h. (w : WorkValue) → s.now ≡ opening w → IsHistory w [] h) }
    {
        let mut history = History::empty(alloc);
        history.see_all(alloc, s)?;
        Ok(history)
    }

    /// Takes in the next entry, of whose state this is seen. Where memory runs out nothing is said of what is there.
    pub fn add(&mut self, glimpse: &Glimpse, entry: &Entry) -> Result<(), AllocError>
        requires { self.old.entries < 2 ^ 62 }
        ensures { OnOk result ((w : WorkValue) (es : Items EntryValue)
            → glimpse.now ≡ glimpse_of (final w (opening w) (es ++ entry.now ∷ [])) entry.now → IsHistory w es self.old → IsHistory w (es ++ entry.now ∷ []) self.new) }
    {
        let first = self.entries + 1;
        self.see(altered(&entry.event), glimpse, first)?;
        self.entries = first;
        push_hand_over(&self.sights, glimpse, entry, &mut self.hand_overs)?;
        push_wakeup(glimpse, entry, &mut self.wakeups)?;
        push_happening(glimpse, entry, &mut self.happenings)?;
        Ok(())
    }
}
