//! Of each thread the first of its entries of a kind, behind a place in a list of entries: what a walk from the last entry to the first
//! notes, so that no walk goes on from each entry to the next one of its thread.

ghost use Rattle.std.specs.Prelude.{◌≡◌, None, IfOk};
ghost use Rattle.sd_statistics.specs.Nexts.{AreNexts, Notes};

use sd_stretches::Happening;
use sd_types::ThreadId;
use std::alloc::{AllocError, Global};

/// A place for each of so many threads, which has no entry yet.
pub(crate) fn no_nexts(alloc: Global, threads: usize) -> Result<Vec<Option<Happening>>, AllocError>
    ensures { IfOk result (λ nexts. AreNexts (λ t. None) nexts.items) }
{
    let mut nexts = Vec::new(alloc);
    for _ in 0..threads {
        nexts.push(None)?;
    }
    Ok(nexts)
}

/// The entry is the next one of this thread, if the thread has a place.
pub(crate) fn note(who: Option<ThreadId>, x: &Happening, nexts: &mut Vec<Option<Happening>>)
    ensures { Notes who x.now nexts.old.items nexts.new.items }
{
    if let Some(t) = who {
        let t = t.0 as usize;
        if t < nexts.len() {
            nexts[t] = Some(*x);
        }
    }
}
