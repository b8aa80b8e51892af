//! What becomes of a thread whose effective priority changes where it stands.
//!
//! Source: Solaris Internals (thread_change_pri).

ghost use Rattle.std.specs.Prelude.{◌≡◌, ◌<◌, ◌^◌, ⊤};
ghost use Rattle.sd_machine.specs.Requeueing.{is_bound_to, reordered, requeue, requeue_at};
ghost use Rattle.sd_state.specs.declared.states.Place.{Place};
ghost use Rattle.sd_state.specs.States.{thread_of};
ghost use Rattle.sd_dispatcher.specs.Touched.{reordered_parts};
ghost use Rattle.sd_store.specs.Keyless.{spot_of};
ghost use Rattle.sd_store.specs.Words.{DoesBy, LacksBy};

use crate::bodies::eff_of;
use crate::marks::remark;
use crate::placing::put_where;
use sd_machine::Requeue;
use sd_store::{Spot, Store};
use sd_types::{CpuId, Put, REAL_TIME_PRIORITY, ThreadId, Work};

fn is_bound_to(d: CpuId, bound: Option<CpuId>) -> bool
    ensures { result ≡ is_bound_to d bound }
{
    match bound {
        None => false,
        Some(e) => e.0 == d.0,
    }
}

/// What becomes of a thread that stands at a spot and has a new effective priority `p`.
fn requeue_at(spot: Spot, p: u8, bound: Option<CpuId>) -> Requeue
    ensures { (place : Place) → spot ≡ spot_of place → result ≡ requeue_at place p bound }
{
    match spot {
        Spot::Queued(d) => {
            if p < REAL_TIME_PRIORITY || is_bound_to(d, bound) {
                Requeue::Behind(d)
            } else {
                Requeue::Anew
            }
        }
        Spot::RealTime(_) => Requeue::Anew,
        _ => Requeue::Stays,
    }
}

/// The same where its effective priority was `old` and is now `new`, which may be equal.
pub fn requeue(spot: Spot, old: u8, new: u8, bound: Option<CpuId>) -> Requeue
    ensures { (place : Place) → spot ≡ spot_of place → result ≡ requeue place old new bound }
{
    if old == new {
        Requeue::Stays
    } else {
        requeue_at(spot, new, bound)
    }
}

/// By entry `number`, where thread `t` had the effective priority `old` and now has its own: where it runs with a
/// smaller one, its processor is marked for what is ready there; where it is queued, it goes where the event says.
#[tactic(auto, unfolding(sd_machine::specs::Requeueing::reordered))]
pub fn reordered<S: Store>(
    work: &Work,
    x: &mut S,
    number: u64,
    t: ThreadId,
    old: u8,
    at: Option<Put>,
) -> Result<(), S::Lack>
    requires { number < 2 ^ 62 }
    ensures value { DoesBy number (S.shows x.old) (S.shows x.new) result (λ s. ⊤) (λ s. reordered work.now s number t.0 old at) }
    ensures lack { LacksBy number S.part (S.shows x.old) (S.has x.old) result (λ s. ⊤) (λ s. reordered_parts work.now s t at (thread_of s t.0).place) }
    ensures has { S.has x.new ≡ S.has x.old }
{
    match x.spot(t)? {
        Spot::Running(d) => {
            if eff_of(x, t)? < old {
                remark(x, d)?;
            }
            Ok(())
        }
        _ => put_where(work, x, number, t, at),
    }
}
