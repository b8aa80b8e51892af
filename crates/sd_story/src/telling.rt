//! The story of a whole journal, told while the journal is judged.

ghost use Rattle.std.specs.Prelude.{◌≡◌, ◌<◌, ◌^◌, ◌++◌, ℕ, IfOk, IfErr, length};
ghost use Rattle.sd_state.specs.declared.states.State.{State as StateValue};
ghost use Rattle.sd_state.specs.Opening.{opening as opening_of};
ghost use Rattle.sd_audit.specs.Audits.{IsFault, IsJournal, IsMemory};
ghost use Rattle.sd_story.specs.Story.{IsTold, heading, rows_from};

use crate::rows::put_row_if;
use crate::selections::Selection;
use sd_audit::{AuditFault, Collector, audit_collecting};
use sd_homes_replay::step;
use sd_opening::opening;
use sd_types::{Entry, Work};
use sd_world::PlainWorld;
use std::alloc::{AllocError, Global};

/// The first line of a story.
const HEADING: &[u8] = b"tick    entry                         what happens\n";

/// The story of the entries that were made so far.
#[derive(Drop)]
struct Teller<'a> {
    selection: &'a Selection,
    told: Vec<u8>,
}

impl Collector for Teller<'_> {
    ghost became = { λ w es first teller. (teller.selection.now ≡ first.selection.now)
        × (teller.told.items ≡ first.told.items ++ rows_from w first.selection.now (opening_of w) es) };

    fn enter(
        &mut self,
        alloc: Global,
        work: &Work,
        world: &mut PlainWorld<'_>,
        entry: &Entry,
    ) -> Result<bool, AllocError> {
        put_row_if(alloc, work, self.selection, world, entry, &mut self.told)?;
        step(work, world, entry)
    }
}

/// The story of the run whose journal the text is, of the entries that are selected; where it is no journal of a complete legal run,
/// what is first at fault. A text that is such a journal is refused only where memory runs out.
pub fn tell(
    alloc: Global,
    work: &Work,
    text: &[u8],
    selection: &Selection,
) -> Result<Vec<u8>, AuditFault>
    requires { length text.now < 2 ^ 31 }
    ensures told { IfOk result (λ told. IsTold work.now text.now selection.now told.items) }
    ensures fault { IfErr result (IsFault work.now text.now) }
    ensures exact { IfErr result (λ fault. (s : StateValue) (n : ℕ) → IsJournal work.now text.now s n → IsMemory fault) }
{
    let Ok(s) = opening(alloc, work) else {
        return Err(AuditFault::Memory { number: 0 });
    };
    let Ok(told) = Vec::from_slice(alloc, HEADING) else {
        return Err(AuditFault::Memory { number: 0 });
    };
    let mut teller = Teller { selection, told };
    audit_collecting(alloc, work, text, s, &mut teller)?;
    Ok(teller.told)
}
