//! One pass over the threads, from the last to the first.

ghost use Rattle.std.specs.Prelude.{◌≡◌, ◌<◌, ℕ, length, nat_lt, replicate, true};
ghost use Rattle.std.specs.List.{list_all};
ghost use Rattle.sd_flat.specs.Passes.{number_with, pass, running_at, shown_at, taken, unbound_at};
ghost use Rattle.sd_state.specs.States.{thread_of};

use sd_state::{Place, State, ThreadState};
use sd_types::{CpuId, Which};

fn running_at(place: Place) -> Option<CpuId>
    ensures { result ≡ running_at place }
{
    match place {
        Place::Running(c) => Some(c),
        _ => None,
    }
}

/// The processor on whose queue a thread stands that is bound to none.
fn unbound_at(place: Place, bound: Option<CpuId>) -> Option<CpuId>
    ensures { result ≡ unbound_at place bound }
{
    match (place, bound) {
        (Place::Queued(c, _), None) => Some(c),
        _ => None,
    }
}

/// The processor whose number a thread may be.
fn shown_at(which: Which, x: &ThreadState) -> Option<CpuId>
    ensures { result ≡ shown_at which x.now }
{
    match which {
        Which::Running => running_at(x.place),
        Which::Queued => unbound_at(x.place, x.body.bound),
    }
}

/// The number of a processor, which was `rest` without this thread.
fn number_with(which: Which, n: u8, rest: u8) -> u8
    ensures { result ≡ number_with which n rest }
{
    match which {
        Which::Running => n,
        Which::Queued => n.max(rest),
    }
}

/// Takes one thread more into the numbers.
fn take(which: Which, x: &ThreadState, numbers: &mut [u8])
    requires { list_all (λ n. nat_lt n.1 160) x.now.body.willed.items ≡ true }
    ensures { numbers.new ≡ taken which x.now numbers.old }
{
    let n = x.body.effective() + 1;
    if let Some(c) = shown_at(which, x) {
        let index = c.0 as usize;
        if index < numbers.len() {
            numbers[index] = number_with(which, n, numbers[index]);
        }
    }
}

/// The numbers that processors 0 to 63 show, by one pass.
pub(crate) fn pass(which: Which, s: &State) -> [u8; 64]
    requires { (t : ℕ) → list_all (λ n. nat_lt n.1 160) (thread_of s.now t).body.willed.items ≡ true }
    ensures { result ≡ pass which s.now.threads }
{
    let threads = s.threads.items();
    let mut numbers = [0; 64];
    let mut i = threads.len();
    while i > 0 {
        i -= 1;
        take(which, &threads[i], &mut numbers);
    }
    numbers
}
