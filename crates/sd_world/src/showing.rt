//! The number that a processor shows to others, as its home tells it.

ghost use Rattle.std.specs.Prelude.{◌≡◌, ℕ, ◌<◌, true, IfSome};
ghost use Rattle.sd_state.specs.declared.states.State.{State as StateOf};
ghost use Rattle.sd_machine.specs.Hints.{hint_shown};
ghost use Rattle.sd_machine.specs.Threads.{priority_of};
ghost use Rattle.sd_hand.specs.Acting.{IsShown, has_part};
ghost use Rattle.sd_store.specs.Parts.{cpu_part};
ghost use Rattle.sd_world.specs.Plain.{StandsInRun, thread_shown};

use sd_basics::known;
use sd_flat::hint_of;
use sd_hand::Acting;
use sd_store::Look;
use sd_types::{CpuId, Which};

/// The effective priority of the thread of which processor `d`, whose home is one of these, shows it.
#[inline(always)]
fn priority(x: &Acting, which: Which, d: CpuId) -> Option<u8>
    requires stands { StandsInRun x.now }
    requires home { has_part x.now (cpu_part d) ≡ true }
    ensures value { (n : ℕ) (s : StateOf) → IsShown x.now n s → result ≡ priority_of s (thread_shown s which d) }
    ensures below { IfSome result (λ n. n < 160) }
{
    match which {
        Which::Running => match x.running_priority(d) {
            Ok(p) => p,
            Err(_) => {
                known(false);
                unreachable!()
            }
        },
        Which::Queued => match x.unbound_priority(d) {
            Ok(p) => p,
            Err(_) => {
                known(false);
                unreachable!()
            }
        },
    }
}

/// The number that processor `d` shows, whose home is one of these.
#[inline(always)]
pub fn shown_hint(x: &Acting, which: Which, d: CpuId) -> u8
    requires stands { StandsInRun x.now }
    requires home { has_part x.now (cpu_part d) ≡ true }
    ensures { (n : ℕ) (s : StateOf) → IsShown x.now n s → result ≡ hint_shown s which d }
{
    hint_of(priority(x, which, d))
}
