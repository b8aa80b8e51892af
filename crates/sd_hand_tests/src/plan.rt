//! Troubles, each at a call.

ghost use Rattle.std.specs.Prelude.{◌≡◌};
ghost use Rattle.sd_hand_tests.specs.Plan.{trouble_at};

use sd_types::{CpuId, HomeId};

/// What happens at a call.
#[derive(Clone, Copy)]
pub enum What {
    /// Another processor holds the home.
    Busy { holder: CpuId },
    /// The thread has moved from one home to the other.
    Moved { from: HomeId, to: HomeId },
    /// No memory is left for an entry.
    NoMemory,
}

/// What happens at the call of this number. Calls are counted from 1.
#[derive(Clone, Copy)]
pub struct Trouble {
    pub call: u64,
    pub what: What,
}

/// What happens at this call: the first that the plan says of it.
pub(crate) fn trouble_at(plan: &[Trouble], call: u64) -> Option<What>
    ensures { result ≡ trouble_at plan.now call }
{
    for trouble in plan {
        if trouble.call == call {
            return Some(trouble.what);
        }
    }
    None
}
