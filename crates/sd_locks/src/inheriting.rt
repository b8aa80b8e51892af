//! The priorities that a thread inherits, one number for each lock, and what its effective priority would be with another
//! number for one of them.
//!
//! Source: Solaris Internals (turnstiles: priority inheritance).

ghost use Rattle.std.specs.Prelude.{◌≡◌, [], ◌∷◌, option_copied, unwrap_or};
ghost use Rattle.sd_machine.specs.Bodies.{eff_as_with};
ghost use Rattle.sd_state.specs.States.{no_body, thread_of};
ghost use Rattle.sd_store.specs.Parts.{thread_part};
ghost use Rattle.sd_store.specs.Words.{Lacks, Tells};
ghost use Rattle.sd_types.specs.Priorities.{greatest_willed};
ghost use Rattle.sd_types.specs.Willed.{changed_number, number_for, with_number};

use sd_dispatcher::willed_numbers;
use sd_flat::greatest_without;
use sd_store::Look;
use sd_types::{ClassState, LockId, ThreadBody, ThreadId};

/// The first of the numbers that is for the lock `l`.
fn number_for(l: LockId, willed: &[(LockId, u8)]) -> Option<u8>
    ensures { result ≡ number_for l willed.now }
{
    let mut first = None;
    let mut i = willed.len();
    while i > 0 {
        i -= 1;
        let (lock, number) = willed[i];
        if l.0 == lock.0 {
            first = Some(number);
        }
    }
    first
}

/// The priority that the thread of a body inherits from the waiters of lock `l`.
pub(crate) fn number_in(l: LockId, body: Option<&ThreadBody>) -> Option<u8>
    ensures { result ≡ number_for l (unwrap_or (option_copied body.entry) no_body).willed.items }
{
    number_for(l, willed_numbers(body))
}

/// The greatest of `base` and the numbers, with `n` for the lock `l` in place of the first that there is for it.
fn greatest_with(base: u8, l: LockId, n: u8, willed: &[(LockId, u8)]) -> u8
    ensures { result ≡ greatest_willed base (with_number l n willed.now) }
{
    let mut without = base;
    let mut greatest = n.max(base);
    let mut i = willed.len();
    while i > 0 {
        i -= 1;
        let (lock, number) = willed[i];
        greatest = if l.0 == lock.0 {
            n.max(without)
        } else {
            number.max(greatest)
        };
        without = number.max(without);
    }
    greatest
}

fn greatest_changed(base: u8, l: LockId, number: Option<u8>, willed: &[(LockId, u8)]) -> u8
    ensures { result ≡ greatest_willed base (changed_number l number willed.now) }
{
    match number {
        None => greatest_without(base, l, willed),
        Some(n) => greatest_with(base, l, n, willed),
    }
}

/// The effective priority that a body would have in a class state, with this inherited priority for lock `l`, or none.
pub(crate) fn eff_in_with(
    class: &ClassState,
    l: LockId,
    number: Option<u8>,
    body: Option<&ThreadBody>,
) -> u8
    ensures { result ≡ eff_as_with class.now l number (unwrap_or (option_copied body.entry) no_body) }
{
    greatest_changed(class.base(), l, number, willed_numbers(body))
}

/// The same of thread `t`.
pub fn eff_as_with<L: Look>(
    class: &ClassState,
    l: LockId,
    number: Option<u8>,
    x: &L,
    t: ThreadId,
) -> Result<u8, L::Lack>
    ensures value { Tells (L.shows x.now) result (λ s. eff_as_with class.now l number (thread_of s t.0).body) }
    ensures lack { Lacks L.part (L.shows x.now) (L.has x.now) result (λ s. thread_part t ∷ []) }
{
    Ok(eff_in_with(class, l, number, x.body(t)?))
}
