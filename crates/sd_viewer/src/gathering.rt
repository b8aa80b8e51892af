//! The history of a journal, gathered while the journal is judged.

ghost use Rattle.std.specs.Prelude.{◌≡◌, ◌<◌, ◌^◌, [], IfOk, IfErr, length};
ghost use Rattle.sd_state.specs.Opening.{opening as opening_of};
ghost use Rattle.sd_audit.specs.Audits.{IsFault};
ghost use Rattle.sd_stretches.specs.Histories.{IsHistory};
ghost use Rattle.sd_viewer.specs.Gathering.{IsGathered};

use crate::foreseen::foresee;
use crate::glimpses::glimpse_of;
use sd_audit::{AuditFault, Collector, Judged, audit_collecting};
use sd_homes_replay::step;
use sd_opening::opening;
use sd_state::State;
use sd_stretches::History;
use sd_types::{Entry, Work};
use sd_world::PlainWorld;
use std::alloc::{AllocError, Global};

/// The history of the entries that were made so far. What it takes in is looked up in the homes that the audit steps.
#[derive(Drop)]
struct Historian {
    history: History,
}

impl Collector for Historian {
    ghost became = { λ w es first historian. IsHistory w es historian.history };

    fn enter(
        &mut self,
        _alloc: Global,
        work: &Work,
        world: &mut PlainWorld<'_>,
        entry: &Entry,
    ) -> Result<bool, AllocError> {
        let foreseen = foresee(work, world, &entry.event);
        if step(work, world, entry)? {
            let glimpse = glimpse_of(work, world, entry, foreseen);
            self.history.add(&glimpse, entry)?;
            Ok(true)
        } else {
            Ok(false)
        }
    }
}

/// The history of a run before its first entry, from its initial state.
fn begin(alloc: Global, work: &Work, s: &State) -> Result<Historian, AllocError>
    requires { s.now ≡ opening_of work.now }
    ensures { IfOk result (λ h. IsHistory work.now [] h.history) }
{
    let history = History::new(alloc, s)?;
    Ok(Historian { history })
}

/// A complete legal run, as pictures and reports need it: its history, its final state with its blocking cycles, and how many entries it has.
#[derive(Drop)]
pub(crate) struct Gathered {
    pub(crate) history: History,
    pub(crate) end: State,
    pub(crate) cycles: Vec<Vec<usize>>,
    pub(crate) number: u64,
}

/// The run whose journal the text is; where it is no journal of a complete legal run, what is first at fault. The text is read once.
pub(crate) fn gather(alloc: Global, work: &Work, text: &[u8]) -> Result<Gathered, AuditFault>
    requires { length text.now < 2 ^ 31 }
    ensures gathered { IfOk result (IsGathered work.now text.now) }
    ensures fault { IfErr result (IsFault work.now text.now) }
{
    let Ok(s) = opening(alloc, work) else {
        return Err(AuditFault::Memory { number: 0 });
    };
    let Ok(mut historian) = begin(alloc, work, &s) else {
        return Err(AuditFault::Memory { number: 0 });
    };
    let Judged {
        end,
        number,
        cycles,
    } = audit_collecting(alloc, work, text, s, &mut historian)?;
    Ok(Gathered {
        history: historian.history,
        end,
        cycles,
        number,
    })
}
