//! The state of a run as one value.

ghost use Rattle.std.specs.Prelude.{◌≡◌, ℕ, IfOk};
ghost use Rattle.sd_state.specs.declared.states.State.{State as StateOf};
ghost use Rattle.sd_machine.specs.Runs.{IsReached};
ghost use Rattle.sd_hand.specs.OneHome.{AreAllHomes};
ghost use Rattle.sd_world.specs.Told.{AreActorsOf};

use crate::parts::{counts_of, cpus_of, locks_of, open_lists};
use crate::threads::threads_of;
use sd_hand::{Actor, Hand};
use sd_state::State;
use sd_types::{List, Work};
use std::alloc::{AllocError, Global};

/// The state for which these homes stand, all of them, with the counts and the duties of its processors. `Err` only where
/// memory runs out.
pub(crate) fn state_of(
    alloc: Global,
    work: &Work,
    hand: &Hand,
    actors: &[Actor],
) -> Result<State, AllocError>
    requires { (n : ℕ) × (s : StateOf) × IsReached work.now n s × AreAllHomes n s hand.now.slots × AreActorsOf s actors.now }
    ensures { IfOk result (λ told. (n : ℕ) (s : StateOf) → IsReached work.now n s → AreAllHomes n s hand.now.slots → AreActorsOf s actors.now → told ≡ s) }
{
    let threads = work.threads.items().len() as u16;
    let locks = work.locks.items().len() as u16;
    let chans = work.chans.items().len() as u16;
    let sets = work.sets.items().len() as u8 + 1;
    Ok(State {
        threads: List::from_vec(threads_of(alloc, hand, threads, work.cpus)?),
        locks: List::from_vec(locks_of(alloc, hand, locks)?),
        cpus: List::from_vec(cpus_of(alloc, hand, actors)?),
        counts: List::from_vec(counts_of(alloc, hand, chans)?),
        open_cpus: List::from_vec(open_lists(alloc, hand, sets)?),
    })
}
