//! How the turnstile that serves a lock comes and goes.
ghost use Rattle.std.specs.Prelude.{◌≡◌, ◌+◌, ◌<◌, MatchOption, None, Some};
ghost use Rattle.sd_boxq.specs.Order.{insert_ranked};
ghost use Rattle.sd_turnstile.specs.Waiters.{IsIdle, on_side, with_side, waiter_count, find_in};
ghost use Rattle.sd_turnstile.specs.Serving.{served, held};

use crate::rack::Rack;
use crate::turnstile::Turnstile;
use sd_basics::known;
use sd_boxq::{Node, Ranked};
use sd_types::Side;
use std::mem::replace;

/// Puts a turnstile where none is.
pub(crate) fn fill<T>(slot: &mut Option<Turnstile<T>>, serving: Option<Turnstile<T>>)
    requires { slot.old ≡ None }
    ensures { slot.new ≡ serving }
{
    known(slot.is_none());
    match replace(slot, serving) {
        None => {}
        Some(_turnstile) => unreachable!(),
    }
}

/// The turnstile that serves the lock once the node has come with its own: the first waiter's serves,
/// and a later one's goes to the free ones.
pub(crate) fn blocked<T: Ranked>(
    serving: Option<Turnstile<T>>,
    free: &mut Rack<T>,
    side: Side,
    n: Node<T>,
    own: Turnstile<T>,
) -> Turnstile<T>
    requires { IsIdle own }
    ensures waiters { result ≡ with_side (served serving) side (insert_ranked T.rank T.key n (on_side (served serving) side)) }
    ensures spares { free.new ≡ free.old + held serving }
{
    match serving {
        None => {
            let mut turnstile = own;
            turnstile.insert(side, n);
            turnstile
        }
        Some(mut turnstile) => {
            turnstile.insert(side, n);
            free.put(own);
            turnstile
        }
    }
}

/// The turnstile that goes on serving the lock once a waiter has left it, and the one that the waiter
/// takes along: a free one, or the serving one from the last waiter.
pub(crate) fn released<T>(
    turnstile: Turnstile<T>,
    free: &mut Rack<T>,
) -> (Option<Turnstile<T>>, Turnstile<T>)
    requires { 0 < waiter_count turnstile → 0 < free.old }
    ensures waiters { served result.0 ≡ turnstile }
    ensures busy { held result.0 ≡ 1 → 0 < waiter_count turnstile }
    ensures own { IsIdle result.1 }
    ensures spares { free.new + held result.0 ≡ free.old }
{
    if turnstile.is_idle() {
        return (None, turnstile);
    }
    let spare = free.take();
    known(spare.is_some());
    match spare {
        None => unreachable!(),
        Some(own) => (Some(turnstile), own),
    }
}
