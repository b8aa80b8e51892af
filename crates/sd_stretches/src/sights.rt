//! What is seen of a thread in a state: what it does, and with which priority.
//!
//! Source: Solaris Internals (thread states, global priorities, priority inheritance).

ghost use Rattle.std.specs.Prelude.{◌≡◌, ◌==◌, map, IfOk};
ghost use Rattle.sd_types.specs.Priorities.{base_of, eff};
ghost use Rattle.sd_stretches.specs.Sights.{class_of, doing_of, runs_on, does_run, same_doing, same_rank, sight_by, sight_of, sights_of, runnable, is_runnable};

use sd_state::{Place, State, ThreadState};
use sd_types::{ChanId, Class, ClassState, CpuId, LockId, ThreadBody};
use std::alloc::{AllocError, Global};

/// What a thread does: it runs on a processor, spins there for a lock, stands on a dispatch queue, waits for a lock, sleeps on a
/// channel (a condition variable or a semaphore is one), naps, or has ended. A thread that spins has the place of one that runs:
/// entries tell that it spins, and no state does.
#[derive(Clone, Copy)]
pub enum Doing {
    Running(CpuId),
    Spinning(CpuId, LockId),
    Runnable,
    Waiting(LockId),
    Asleep(ChanId),
    Napping,
    Ended,
}

/// What a thread does, its class, its effective priority (0 to 159), and whether it inherits it: whether it is above the base
/// priority of its class.
#[derive(Clone, Copy)]
pub struct Sight {
    pub doing: Doing,
    pub class: Class,
    pub priority: u8,
    pub inherited: bool,
}

fn doing_of(place: Place) -> Doing
    ensures { result ≡ doing_of place }
{
    match place {
        Place::Running(c) => Doing::Running(c),
        Place::Queued(_, _) => Doing::Runnable,
        Place::RealTime(_, _) => Doing::Runnable,
        Place::Waiting(l, _, _) => Doing::Waiting(l),
        Place::Asleep(k, _) => Doing::Asleep(k),
        Place::Napping(_, _) => Doing::Napping,
        Place::Ended => Doing::Ended,
    }
}

fn class_of(class: &ClassState) -> Class
    ensures { result ≡ class_of class.now }
{
    match class {
        ClassState::Ts(_) => Class::Ts,
        ClassState::Fx(_) => Class::Fx,
        ClassState::Sys(_) => Class::Sys,
        ClassState::Rt(_) => Class::Rt,
    }
}

/// What is seen of a thread that has this body and does this.
pub fn sight_by(body: &ThreadBody, doing: Doing) -> Sight
    ensures { result ≡ sight_by body.now doing }
{
    let priority = body.effective();
    Sight {
        doing,
        class: class_of(&body.class),
        priority,
        inherited: body.class.base() < priority,
    }
}

fn sight_of(x: &ThreadState) -> Sight
    ensures { result ≡ sight_of x.now }
{
    sight_by(&x.body, doing_of(x.place))
}

/// What is seen of each thread of the state.
#[tactic(auto, unfolding(crate::specs::Sights::sights_of))]
pub(crate) fn sights_of(alloc: Global, s: &State) -> Result<Vec<Sight>, AllocError>
    ensures { IfOk result (λ v. v.items ≡ sights_of s.now) }
{
    let mut sights = Vec::new(alloc);
    let threads = s.threads.items();
    for x in threads {
        sights.push(sight_of(x))?;
    }
    Ok(sights)
}

/// Whether it runs on some processor.
pub fn does_run(doing: Doing) -> bool
    ensures { result ≡ does_run doing }
{
    matches!(doing, Doing::Running(_))
}

pub(crate) fn runs_on(c: u16, doing: Doing) -> bool
    ensures { result ≡ runs_on c doing }
{
    match doing {
        Doing::Running(d) => d.0 == c,
        _ => false,
    }
}

pub(crate) fn same_doing(x: Doing, y: Doing) -> bool
    ensures { result ≡ same_doing x y }
{
    match (x, y) {
        (Doing::Running(c), Doing::Running(d)) => c.0 == d.0,
        (Doing::Spinning(c, l), Doing::Spinning(d, m)) => c.0 == d.0 && l.0 == m.0,
        (Doing::Runnable, Doing::Runnable) => true,
        (Doing::Waiting(l), Doing::Waiting(m)) => l.0 == m.0,
        (Doing::Asleep(k), Doing::Asleep(j)) => k.0 == j.0,
        (Doing::Napping, Doing::Napping) => true,
        (Doing::Ended, Doing::Ended) => true,
        _ => false,
    }
}

pub(crate) fn same_rank(x: &Sight, y: &Sight) -> bool
    ensures { result ≡ same_rank x.now y.now }
{
    x.priority == y.priority && x.inherited == y.inherited
}

/// Whether it stands on a dispatch queue.
pub(crate) fn is_runnable(x: &Sight) -> bool
    ensures { result ≡ is_runnable x.now }
{
    match x.doing {
        Doing::Runnable => true,
        _ => false,
    }
}

/// How many threads stand on dispatch queues.
pub(crate) fn runnable(sights: &[Sight]) -> usize
    ensures { result ≡ runnable sights.now }
{
    sights.iter().filter(|x| is_runnable(x)).count()
}
