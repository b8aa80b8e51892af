//! The numbers that processors show.

ghost use Rattle.std.specs.Prelude.{◌≡◌, ◌<◌, ◌≤◌, ℕ, length, map, nat_lt, true, IfSome};
ghost use Rattle.std.specs.List.{list_all};
ghost use Rattle.sd_machine.specs.Hints.{hint_of, hint_shown};
ghost use Rattle.sd_machine.specs.Threads.{priority_of};
ghost use Rattle.sd_flat.specs.Passes.{pass};
ghost use Rattle.sd_state.specs.States.{thread_of};
ghost use Rattle.sd_types.specs.Limits.{most_processors};

use crate::passes::pass;
use crate::scans::{index_of_best_unbound, index_of_runner};
use arrayvec::ArrayVec;
use sd_state::State;
use sd_types::{CpuId, Which};

/// The effective priority of the thread that a scan found, 0 to 159.
fn priority_of(s: &State, t: Option<usize>) -> Option<u8>
    requires inside { IfSome t (λ t. t < length s.now.threads) }
    requires willed { (t : ℕ) → list_all (λ n. nat_lt n.1 160) (thread_of s.now t).body.willed.items ≡ true }
    ensures value { result ≡ priority_of s.now t }
    ensures below { IfSome result (λ p. p < 160) }
{
    match t {
        None => None,
        Some(t) => Some(s.threads.items()[t].body.effective()),
    }
}

/// A priority plus 1, or 0 for none.
#[inline(always)]
pub fn hint_of(p: Option<u8>) -> u8
    requires { IfSome p (λ p. p < 160) }
    ensures { result ≡ hint_of p }
{
    match p {
        None => 0,
        Some(p) => p + 1,
    }
}

/// The number that processor `d` shows, 0 to 160: the effective priority plus 1 of its running thread, or of the best on
/// its queue that is bound to no processor; 0 for none. Inherited priorities are below 160.
#[tactic(auto, unfolding(sd_machine::specs::Hints::hint_shown))]
fn hint_shown(s: &State, which: Which, d: CpuId) -> u8
    requires { (t : ℕ) → list_all (λ n. nat_lt n.1 160) (thread_of s.now t).body.willed.items ≡ true }
    ensures { result ≡ hint_shown s.now which d }
{
    match which {
        Which::Running => hint_of(priority_of(s, index_of_runner(s, d))),
        Which::Queued => hint_of(priority_of(s, index_of_best_unbound(s, d))),
    }
}

/// The number that processor `d` shows, read from those of a pass where that has it.
fn number_at(numbers: &[u8], s: &State, which: Which, d: CpuId) -> u8
    requires willed { (t : ℕ) → list_all (λ n. nat_lt n.1 160) (thread_of s.now t).body.willed.items ≡ true }
    requires numbers { numbers.now ≡ pass which s.now.threads }
    ensures { result ≡ hint_shown s.now which d }
{
    let index = d.0 as usize;
    if index < numbers.len() {
        numbers[index]
    } else {
        hint_shown(s, which, d)
    }
}

/// The numbers that these processors show, in their order.
pub fn numbers_shown(s: &State, which: Which, cpus: &[CpuId]) -> ArrayVec<u8, 64>
    requires fits { length cpus.now ≤ most_processors }
    requires willed { (t : ℕ) → list_all (λ n. nat_lt n.1 160) (thread_of s.now t).body.willed.items ≡ true }
    ensures { result.items ≡ map (hint_shown s.now which) cpus.now }
{
    let all = pass(which, s);
    let mut numbers = ArrayVec::new();
    for d in cpus {
        numbers.push(number_at(&all, s, which, *d));
    }
    numbers
}
