//! Whether a processor may tick, which depends on the counts of all.

use crate::Look;
use sd_types::{CpuId, Work};

/// What knows the counts of ticks of all processors: it lacks nothing for this.
pub trait Clock: Look {
    ghost use Rattle.std.specs.Prelude.{◌≡◌, ℕ};
    ghost use Rattle.sd_machine.specs.Events.{may_tick};
    ghost use Rattle.sd_state.specs.declared.states.State.{State};

    /// The count of processor `c` is below the limit, and no processor's is below it.
    fn may_tick(&self, work: &Work, c: CpuId) -> bool
        ensures { (n : ℕ) (s : State) → Self.shows self.now n s → result ≡ may_tick work.now s c.0 };
}
