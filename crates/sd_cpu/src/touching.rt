//! Whether a hand has all parts that an event touches.

ghost use Rattle.std.specs.Prelude.{◌≡◌, ℕ, true, [], ◌∷◌};
ghost use Rattle.sd_state.specs.States.{cpu_of, thread_of};
ghost use Rattle.sd_state.specs.declared.states.State.{State};
ghost use Rattle.sd_store.specs.Keyless.{spot_of};
ghost use Rattle.sd_hand.specs.Acting.{IsShown, has_part};
ghost use Rattle.sd_store.specs.declared.parts.Part.TheVariants.{Home};
ghost use Rattle.sd_store.specs.Parts.{bound_parts, chain_part, cpu_part, put_parts, ready_parts, real_time_part, sleepers_part, thread_part};
ghost use Rattle.sd_locks.specs.Passed.{willed_parts};
ghost use Rattle.sd_dispatcher.specs.Touched.{leaving_parts, put_parts_if, reordered_parts};
ghost use Rattle.sd_locks.specs.Released.{exited_parts, handed_parts};
ghost use Rattle.sd_priocntl.specs.Touched.{prio_parts};
ghost use Rattle.sd_sleep.specs.Touched.{woken_parts};
ghost use Rattle.sd_priocntl.specs.SetsTouched.{bind_parts, rebound_parts};
ghost use Rattle.sd_step.specs.Touched.{after_parts};
ghost use Rattle.sd_cpu.specs.Has.{Has, HasIn, ShowsOne, running_cpu};

use sd_dispatcher::bound_of;
use sd_hand::Acting;
use sd_store::{Look, Part, Spot, set_of};
use sd_types::{
    BindAnswer, ChanId, CpuId, Event, HomeId, LockId, PrioAnswer, Put, SetId, ThreadId, Work,
    home_of_chan, home_of_lock,
};

/// The home of this number is held.
fn home(x: &Acting, k: HomeId) -> Result<(), Part>
    ensures { Has x.now result (Home k ∷ []) }
{
    match x.hand.home(k) {
        Ok(_) => Ok(()),
        Err(part) => Err(part),
    }
}

fn cpu(x: &Acting, c: CpuId) -> Result<(), Part>
    ensures { Has x.now result (cpu_part c ∷ []) }
{
    home(x, HomeId::Cpu(c))
}

fn real_time(x: &Acting, p: SetId) -> Result<(), Part>
    ensures { Has x.now result (real_time_part p ∷ []) }
{
    home(x, HomeId::RealTime(p))
}

fn chain(x: &Acting, l: LockId) -> Result<(), Part>
    ensures { Has x.now result (chain_part l ∷ []) }
{
    home(x, home_of_lock(l))
}

fn sleepers(x: &Acting, k: ChanId) -> Result<(), Part>
    ensures { Has x.now result (sleepers_part k ∷ []) }
{
    home(x, home_of_chan(k))
}

/// The thread stands in a home that is held.
fn thread(x: &Acting, t: ThreadId) -> Result<(), Part>
    ensures { Has x.now result (thread_part t ∷ []) }
{
    match x.hand.where_is(t) {
        Ok(_) => Ok(()),
        Err(part) => Err(part),
    }
}

/// The set of a processor whose home is held.
fn set_on(x: &Acting, d: CpuId) -> SetId
    requires shown { ShowsOne x.now }
    requires here { has_part x.now (cpu_part d) ≡ true }
    ensures { (n : ℕ) (s : State) → IsShown x.now n s → result ≡ (cpu_of s d.0).set }
{
    match x.cpu(d) {
        Ok(view) => view.set,
        Err(_) => unreachable!(),
    }
}

fn running_cpu(spot: Spot) -> Option<CpuId>
    ensures { result ≡ running_cpu spot }
{
    match spot {
        Spot::Running(d) => Some(d),
        _ => None,
    }
}

/// The processor on which a thread runs whose home is held.
fn running_on(x: &Acting, t: ThreadId) -> Option<CpuId>
    requires shown { ShowsOne x.now }
    requires here { has_part x.now (thread_part t) ≡ true }
    ensures { (n : ℕ) (s : State) → IsShown x.now n s → result ≡ running_cpu (spot_of (thread_of s t.0).place) }
{
    match x.spot(t) {
        Ok(spot) => running_cpu(spot),
        Err(_) => unreachable!(),
    }
}

/// The processor to which a thread is bound whose home is held.
fn bound_to(x: &Acting, u: ThreadId) -> Option<CpuId>
    requires shown { ShowsOne x.now }
    requires here { has_part x.now (thread_part u) ≡ true }
    ensures { (n : ℕ) (s : State) → IsShown x.now n s → result ≡ (thread_of s u.0).body.bound }
{
    match bound_of(x, u) {
        Ok(bound) => bound,
        Err(_) => unreachable!(),
    }
}

fn cpu_if(x: &Acting, c: Option<CpuId>) -> Result<(), Part>
    ensures { Has x.now result (bound_parts c) }
{
    match c {
        None => Ok(()),
        Some(c) => cpu(x, c),
    }
}

/// The processor and the real-time queue of its set.
fn ready(x: &Acting, d: CpuId) -> Result<(), Part>
    requires shown { ShowsOne x.now }
    ensures { HasIn x.now result (λ s. ready_parts s d) }
{
    cpu(x, d)?;
    real_time(x, set_on(x, d))
}

/// Where a thread is put: its home now, the processor, and the real-time queue where it goes there.
fn put(work: &Work, x: &Acting, t: ThreadId, at: Put) -> Result<(), Part>
    ensures { Has x.now result (put_parts work.now t at) }
{
    thread(x, t)?;
    match at {
        Put::Cpu(d) => cpu(x, d),
        Put::RealTime(d) => {
            cpu(x, d)?;
            real_time(x, set_of(work, t))
        }
    }
}

fn put_if(work: &Work, x: &Acting, t: ThreadId, at: Option<Put>) -> Result<(), Part>
    ensures { Has x.now result (put_parts_if work.now t at) }
{
    match at {
        None => Ok(()),
        Some(at) => put(work, x, t, at),
    }
}

fn woken(work: &Work, x: &Acting, woken: Option<(ThreadId, Put)>) -> Result<(), Part>
    ensures { Has x.now result (woken_parts work.now woken) }
{
    match woken {
        None => Ok(()),
        Some((u, at)) => put(work, x, u, at),
    }
}

/// A thread that leaves the processor for a queue.
fn leaving(work: &Work, x: &Acting, t: ThreadId, c: CpuId) -> Result<(), Part>
    requires { c ≡ x.now.actor.cpu }
    ensures { Has x.now result (leaving_parts work.now t c) }
{
    thread(x, t)?;
    cpu(x, c)?;
    real_time(x, set_of(work, t))
}

/// A thread whose priority changes where it stands.
fn reordered(work: &Work, x: &Acting, t: ThreadId, at: Option<Put>) -> Result<(), Part>
    requires shown { ShowsOne x.now }
    ensures { HasIn x.now result (λ s. reordered_parts work.now s t at (thread_of s t.0).place) }
{
    thread(x, t)?;
    match running_on(x, t) {
        Some(d) => ready(x, d),
        None => put_if(work, x, t, at),
    }
}

/// A thread that is bound to a processor, or let free.
fn rebound(x: &Acting, u: ThreadId, d: Option<CpuId>) -> Result<(), Part>
    requires shown { ShowsOne x.now }
    requires here { has_part x.now (thread_part u) ≡ true }
    ensures { HasIn x.now result (λ s. rebound_parts s u d) }
{
    match d {
        Some(d) => {
            cpu(x, d)?;
            cpu_if(x, running_on(x, u))
        }
        None => cpu_if(x, bound_to(x, u)),
    }
}

/// The answer of priocntl(2).
fn prio(work: &Work, x: &Acting, c: CpuId, u: ThreadId, answer: PrioAnswer) -> Result<(), Part>
    requires shown { ShowsOne x.now }
    requires here { c ≡ x.now.actor.cpu }
    ensures { HasIn x.now result (λ s. prio_parts work.now s c u answer) }
{
    match answer {
        PrioAnswer::Refused(_) => Ok(()),
        PrioAnswer::Changed { at, .. } => {
            thread(x, u)?;
            reordered(work, x, u, at)
        }
    }
}

/// The answer of a binding.
fn bind(
    work: &Work,
    x: &Acting,
    u: ThreadId,
    d: Option<CpuId>,
    answer: BindAnswer,
) -> Result<(), Part>
    requires shown { ShowsOne x.now }
    ensures { HasIn x.now result (λ s. bind_parts work.now s u d answer) }
{
    match answer {
        BindAnswer::Changed { at } => {
            thread(x, u)?;
            match rebound(x, u, d) {
                Ok(()) => put_if(work, x, u, at),
                Err(part) => Err(part),
            }
        }
        _ => Ok(()),
    }
}

/// The owner of a lock takes over a priority.
fn willed(
    work: &Work,
    x: &Acting,
    c: CpuId,
    l: LockId,
    o: ThreadId,
    at: Option<Put>,
) -> Result<(), Part>
    requires shown { ShowsOne x.now }
    requires here { c ≡ x.now.actor.cpu }
    ensures { HasIn x.now result (λ s. willed_parts work.now s c l o at) }
{
    chain(x, l)?;
    reordered(work, x, o, at)
}

/// A lock is given up.
fn exited(x: &Acting, c: CpuId, t: ThreadId, l: LockId) -> Result<(), Part>
    requires shown { ShowsOne x.now }
    requires here { c ≡ x.now.actor.cpu }
    ensures { HasIn x.now result (λ s. exited_parts s c t l) }
{
    chain(x, l)?;
    thread(x, t)?;
    ready(x, c)
}

/// A lock goes to a waiter.
fn handed(work: &Work, x: &Acting, c: CpuId, l: LockId, u: ThreadId, at: Put) -> Result<(), Part>
    requires { c ≡ x.now.actor.cpu }
    ensures { Has x.now result (handed_parts work.now c l u at) }
{
    chain(x, l)?;
    put(work, x, u, at)
}

/// A thread that leaves its processor and is made not runnable.
fn away(x: &Acting, c: CpuId, k: HomeId, t: ThreadId) -> Result<(), Part>
    ensures { Has x.now result (cpu_part c ∷ Home k ∷ thread_part t ∷ []) }
{
    cpu(x, c)?;
    home(x, k)?;
    thread(x, t)
}

/// A thread and a home in which it changes something.
fn both(x: &Acting, k: HomeId, t: ThreadId) -> Result<(), Part>
    ensures there { Has x.now result (Home k ∷ thread_part t ∷ []) }
    ensures here { Has x.now result (thread_part t ∷ Home k ∷ []) }
{
    home(x, k)?;
    thread(x, t)
}

/// A thread that goes to the queue of another processor.
fn sent(x: &Acting, t: ThreadId, c: CpuId, d: CpuId) -> Result<(), Part>
    ensures { Has x.now result (thread_part t ∷ cpu_part c ∷ cpu_part d ∷ []) }
{
    thread(x, t)?;
    cpu(x, c)?;
    cpu(x, d)
}

/// The best of those who sleep on a channel is woken.
fn roused(work: &Work, x: &Acting, k: ChanId, u: Option<(ThreadId, Put)>) -> Result<(), Part>
    ensures { Has x.now result (sleepers_part k ∷ woken_parts work.now u) }
{
    sleepers(x, k)?;
    woken(work, x, u)
}

/// A thread with the answer to its priocntl(2).
fn reprioritised(
    work: &Work,
    x: &Acting,
    c: CpuId,
    t: ThreadId,
    u: ThreadId,
    answer: PrioAnswer,
) -> Result<(), Part>
    requires shown { ShowsOne x.now }
    requires here { c ≡ x.now.actor.cpu }
    ensures { HasIn x.now result (λ s. thread_part t ∷ prio_parts work.now s c u answer) }
{
    thread(x, t)?;
    prio(work, x, c, u, answer)
}

/// A thread that gives up a mutex and sleeps.
fn cv_waits(x: &Acting, c: CpuId, t: ThreadId, k: ChanId, l: LockId) -> Result<(), Part>
    ensures { Has x.now result (chain_part l ∷ cpu_part c ∷ sleepers_part k ∷ thread_part t ∷ []) }
{
    chain(x, l)?;
    away(x, c, home_of_chan(k), t)
}

/// A processor that has joined a set.
fn joined(x: &Acting, c: CpuId, set: SetId) -> Result<(), Part>
    ensures { Has x.now result (cpu_part c ∷ real_time_part set ∷ []) }
{
    cpu(x, c)?;
    real_time(x, set)
}

/// A thread with the answer to its binding.
fn pbound(
    work: &Work,
    x: &Acting,
    t: ThreadId,
    u: ThreadId,
    d: Option<CpuId>,
    answer: BindAnswer,
) -> Result<(), Part>
    requires shown { ShowsOne x.now }
    ensures { HasIn x.now result (λ s. thread_part t ∷ bind_parts work.now s u d answer) }
{
    thread(x, t)?;
    bind(work, x, u, d, answer)
}

/// A thread and what is ready on a processor.
fn among_ready(x: &Acting, t: ThreadId, d: CpuId) -> Result<(), Part>
    requires shown { ShowsOne x.now }
    ensures { HasIn x.now result (λ s. thread_part t ∷ ready_parts s d) }
{
    thread(x, t)?;
    ready(x, d)
}

/// A thread and where another is put that it wakes.
fn wakes(work: &Work, x: &Acting, t: ThreadId, u: Option<(ThreadId, Put)>) -> Result<(), Part>
    ensures { Has x.now result (thread_part t ∷ woken_parts work.now u) }
{
    thread(x, t)?;
    woken(work, x, u)
}

/// The hand has all that the event touches, or lacks this part of it.
#[tactic(auto, unfolding(sd_step::specs::Touched::touched))]
pub(crate) fn touched(work: &Work, x: &Acting, c: CpuId, event: Event) -> Result<(), Part>
    requires shown { ShowsOne x.now }
    requires here { c ≡ x.now.actor.cpu }
    ensures { HasIn x.now result (λ s. after_parts work.now s c event) }
{
    match event {
        Event::Idle | Event::End { .. } => Ok(()),
        Event::Tick { t } => among_ready(x, t, c),
        Event::Spin { t, .. } => among_ready(x, t, c),
        Event::Dispatch { t, .. } | Event::Steal { t, .. } => both(x, HomeId::Cpu(c), t),
        Event::Nap { t } | Event::Age { t, .. } => both(x, HomeId::Cpu(c), t),
        Event::Preempt { t, .. } | Event::Yield { t } => leaving(work, x, t, c),
        Event::Away { t, cpu: d } => sent(x, t, c, d),
        Event::Done { .. } => cpu(x, c),
        Event::Napend { t, at } | Event::Move { t, at } => put(work, x, t, at),
        Event::Sleep { t, k } | Event::SemaWait { t, k } => away(x, c, home_of_chan(k), t),
        Event::Wake { t, woken: u, .. } => wakes(work, x, t, u),
        Event::Wakeall { t, k } => both(x, home_of_chan(k), t),
        Event::Rouse { k, woken: u } => roused(work, x, k, u),
        Event::Enter { t, l } | Event::Read { t, l } => both(x, home_of_lock(l), t),
        Event::Write { t, l } => both(x, home_of_lock(l), t),
        Event::Block { t, l } => away(x, c, home_of_lock(l), t),
        Event::Will { l, o, at, .. } => willed(work, x, c, l, o, at),
        Event::Exit { t, l } => exited(x, c, t, l),
        Event::Unblock { l, u, at } | Event::Grant { l, u, at } => { handed(work, x, c, l, u, at) }
        Event::Passed { l } => chain(x, l),
        Event::Prio { t, u, answer } => reprioritised(work, x, c, t, u, answer),
        Event::CvWait { t, k, l } => cv_waits(x, c, t, k, l),
        Event::SemaP { t, k } | Event::SemaVCount { t, k, .. } => both(x, home_of_chan(k), t),
        Event::SemaVWake { t, u, at, .. } => wakes(work, x, t, Some((u, at))),
        Event::Assign { t, cpu: d, .. } => among_ready(x, t, d),
        Event::Joined { set } => joined(x, c, set),
        Event::Bind {
            t,
            u,
            cpu: d,
            answer,
        } => pbound(work, x, t, u, d, answer),
    }
}
