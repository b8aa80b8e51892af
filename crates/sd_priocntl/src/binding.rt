//! Threads that are bound to a processor, and whose binding ends.
//!
//! Source: pbind(1M), processor_bind(2).

ghost use Rattle.std.specs.Prelude.{◌≡◌, ◌+◌, ◌<◌, ◌^◌, [], ◌∷◌, ⊤, IfSome};
ghost use Rattle.sd_machine.specs.Needs.{CanBind, CanFinish};
ghost use Rattle.sd_machine.specs.Changes.{bind};
ghost use Rattle.sd_machine.specs.SetChanges.{bind_put, bind_to, bound_put, called_back, is_closing, is_misbound, pbound, rebound, unbound_put};
ghost use Rattle.sd_state.specs.declared.states.Place.{Place};
ghost use Rattle.sd_state.specs.States.{cpu_of, thread_of};
ghost use Rattle.sd_priocntl.specs.SetsTouched.{bind_parts, rebound_parts, runs_parts};
ghost use Rattle.sd_store.specs.Keyless.{spot_of};
ghost use Rattle.sd_store.specs.Parts.{bound_parts, cpu_part, thread_part};
ghost use Rattle.sd_store.specs.Words.{Does, DoesBy, Lacks, LacksBy, LacksIf, Tells};

use sd_dispatcher::{bound_of, eff_of, has_ended, is_privileged, put_where, uid_of};
use sd_store::{Look, Sets, Spot, finish_op, set_of};
use sd_types::{BindAnswer, CpuId, Put, REAL_TIME_PRIORITY, ThreadId, Work};

/// The processor is not of the set of thread `u`, or it is a second binding, or the end of none.
fn is_misbound<L: Look>(
    work: &Work,
    x: &L,
    u: ThreadId,
    bound: Option<CpuId>,
    d: Option<CpuId>,
) -> Result<bool, L::Lack>
    ensures value { Tells (L.shows x.now) result (λ s. is_misbound work.now s u.0 bound d) }
    ensures lack { Lacks L.part (L.shows x.now) (L.has x.now) result (λ s. bound_parts d) }
{
    Ok(match d {
        None => bound.is_none(),
        Some(d) => bound.is_some() || x.cpu(d)?.set.0 != set_of(work, u).0,
    })
}

fn is_closing<L: Look>(x: &L, d: Option<CpuId>) -> Result<bool, L::Lack>
    ensures value { Tells (L.shows x.now) result (λ s. is_closing s d) }
    ensures lack { Lacks L.part (L.shows x.now) (L.has x.now) result (λ s. bound_parts d) }
{
    Ok(match d {
        None => false,
        Some(d) => x.cpu(d)?.closing.is_some(),
    })
}

/// Where a thread goes that is bound to processor `d`.
fn bound_put(d: CpuId, spot: Spot) -> Option<Put>
    ensures { (place : Place) → spot ≡ spot_of place → result ≡ bound_put d place }
{
    match spot {
        Spot::Queued(c) => { if c.0 == d.0 { None } else { Some(Put::Cpu(d)) } }
        Spot::RealTime(_) => Some(Put::Cpu(d)),
        _ => None,
    }
}

/// Where a thread of effective priority `p` goes that is bound no more.
fn unbound_put(p: u8, bound: Option<CpuId>, spot: Spot) -> Option<Put>
    ensures { (place : Place) → spot ≡ spot_of place → result ≡ unbound_put p bound place }
{
    match (bound, spot) {
        (Some(b), Spot::Queued(_)) => {
            if p >= REAL_TIME_PRIORITY {
                Some(Put::RealTime(b))
            } else {
                None
            }
        }
        _ => None,
    }
}

fn bind_put<L: Look>(x: &L, u: ThreadId, d: Option<CpuId>) -> Result<Option<Put>, L::Lack>
    ensures value { Tells (L.shows x.now) result (λ s. bind_put s u.0 d) }
    ensures lack { Lacks L.part (L.shows x.now) (L.has x.now) result (λ s. thread_part u ∷ []) }
{
    Ok(match d {
        Some(d) => bound_put(d, x.spot(u)?),
        None => unbound_put(eff_of(x, u)?, bound_of(x, u)?, x.spot(u)?),
    })
}

/// The answer to thread `t`, which binds thread `u` or ends its binding: the first refusal that holds.
#[tactic(auto, unfolding(sd_machine::specs::SetChanges::bind_to))]
pub fn bind_to<L: Look>(
    work: &Work,
    x: &L,
    t: ThreadId,
    u: ThreadId,
    d: Option<CpuId>,
) -> Result<BindAnswer, L::Lack>
    ensures value { Tells (L.shows x.now) result (λ s. bind_to work.now s t.0 u.0 d) }
    ensures lack { Lacks L.part (L.shows x.now) (L.has x.now) result (λ s. thread_part u ∷ bound_parts d) }
{
    Ok(if has_ended(x.spot(u)?) {
        BindAnswer::ESRCH
    } else if is_misbound(work, x, u, bound_of(x, u)?, d)? {
        BindAnswer::EINVAL
    } else if !is_privileged(work, t) && uid_of(work, t) != uid_of(work, u) {
        BindAnswer::EPERM
    } else if is_closing(x, d)? {
        BindAnswer::EBUSY
    } else {
        BindAnswer::Changed {
            at: bind_put(x, u, d)?,
        }
    })
}

/// Thread `u`, where it runs on another processor than `d`, to which it is bound now, has to leave that one.
fn called_back<S: Sets>(x: &mut S, u: ThreadId, d: CpuId) -> Result<(), S::Lack>
    ensures value { Does (S.shows x.old) (S.shows x.new) result (λ s. ⊤) (λ s. called_back s d (thread_of s u.0).place) }
    ensures lack { Lacks S.part (S.shows x.old) (S.has x.old) result (λ s. thread_part u ∷ runs_parts (thread_of s u.0).place) }
    ensures has { S.has x.new ≡ S.has x.old }
{
    match x.spot(u)? {
        Spot::Running(c) if c.0 != d.0 => x.set_kernel_mark(c),
        _ => Ok(()),
    }
}

/// Thread `u` is bound to processor `d`.
#[tactic(auto, using(crate::proofs::Bound::bound_place))]
fn bound_to<S: Sets>(x: &mut S, u: ThreadId, d: CpuId) -> Result<(), S::Lack>
    ensures value { Does (S.shows x.old) (S.shows x.new) result (λ s. (cpu_of s d.0).bound + 1 < 2 ^ 16) (λ s. called_back (bind s u.0 d) d (thread_of s u.0).place) }
    ensures lack { LacksIf S.part (S.shows x.old) (S.has x.old) result (λ s. (cpu_of s d.0).bound + 1 < 2 ^ 16) (λ s. thread_part u ∷ cpu_part d ∷ runs_parts (thread_of s u.0).place) }
    ensures has { S.has x.new ≡ S.has x.old }
{
    x.bind(u, d)?;
    called_back(x, u, d)
}

/// Thread `u` is bound to a processor, or no more to the one to which it was.
fn rebound<S: Sets>(x: &mut S, u: ThreadId, d: Option<CpuId>) -> Result<(), S::Lack>
    ensures value { Does (S.shows x.old) (S.shows x.new) result (λ s. IfSome d (λ e. (cpu_of s e.0).bound + 1 < 2 ^ 16)) (λ s. rebound s u.0 d (thread_of s u.0).body.bound) }
    ensures lack { LacksIf S.part (S.shows x.old) (S.has x.old) result (λ s. IfSome d (λ e. (cpu_of s e.0).bound + 1 < 2 ^ 16)) (λ s. thread_part u ∷ rebound_parts s u d) }
    ensures has { S.has x.new ≡ S.has x.old }
{
    match d {
        Some(d) => bound_to(x, u, d),
        None => match bound_of(x, u)? {
            Some(b) => x.unbind(u, b),
            None => Ok(()),
        },
    }
}

/// By entry `number` thread `t` has asked to bind thread `u` to a processor, or to none. Where it may, the thread goes
/// where the event says.
#[tactic(auto, using(crate::proofs::Bound::rebound_inside, crate::proofs::Bound::can_bind, sd_store::proofs::Among::among_left, sd_store::proofs::Among::among_right), unfolding(sd_machine::specs::SetChanges::pbound))]
pub fn pbound<S: Sets>(
    work: &Work,
    x: &mut S,
    number: u64,
    t: ThreadId,
    u: ThreadId,
    d: Option<CpuId>,
    answer: BindAnswer,
) -> Result<(), S::Lack>
    requires { number < 2 ^ 62 }
    ensures value { DoesBy number (S.shows x.old) (S.shows x.new) result (λ s. CanFinish work.now s t × CanBind s d answer) (λ s. pbound work.now s number t.0 u.0 d answer) }
    ensures lack { LacksBy number S.part (S.shows x.old) (S.has x.old) result (λ s. CanFinish work.now s t × CanBind s d answer) (λ s. thread_part t ∷ bind_parts work.now s u d answer) }
    ensures has { S.has x.new ≡ S.has x.old }
{
    if let BindAnswer::Changed { at } = answer {
        rebound(x, u, d)?;
        put_where(work, x, number, u, at)?;
    }
    finish_op(x, work, t)
}
