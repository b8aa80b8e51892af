//! Whether a processor may tick: the counts of all processors.

ghost use Rattle.std.specs.Prelude.{◌≡◌, nat_le};
ghost use Rattle.std.specs.List.{list_all};
ghost use Rattle.sd_machine.specs.Events.{may_tick};

use crate::reads::cpu_of;
use sd_state::State;
use sd_types::{CpuId, Work};

fn is_least(s: &State, count: u32) -> bool
    ensures { result ≡ list_all (λ x. nat_le count x.count) s.now.cpus }
{
    s.cpus.items().iter().all(|x| count <= x.count)
}

/// The count of processor `c` is below the limit, and no processor's is below it.
#[tactic(auto, unfolding(sd_machine::specs::Events::may_tick))]
pub fn may_tick(work: &Work, s: &State, c: CpuId) -> bool
    ensures { result ≡ may_tick work.now s.now c.0 }
{
    let count = cpu_of(s, c).count;
    count < work.limit && is_least(s, count)
}
