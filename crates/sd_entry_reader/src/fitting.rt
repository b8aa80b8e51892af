//! Which entries have a line: their numbers name what the workload has, and they have read numbers only where their events do.

ghost use Rattle.std.specs.Prelude.{◌≡◌};
ghost use Rattle.std.specs.List.{list_all};
ghost use Rattle.sd_entries.specs.Fitting.{bind_fits, bind_reads, cpu_fits_if, entry_fits, event_fits, has_chan, has_cpu, has_lock, has_set, has_thread, are_allowed_hints, is_byte, may_read, prio_fits, prio_reads, put_fits, put_fits_if, reads_if, is_allowed_which, woken_fits, woken_reads};

use sd_types::{
    BindAnswer, ChanId, CpuId, Entry, Event, Hints, LockId, PrioAnswer, Put, SetId, ThreadId,
    Which, Work,
};

fn has_cpu(work: &Work, c: CpuId) -> bool
    ensures { result ≡ has_cpu work.now c }
{
    c.0 < work.cpus
}

fn has_thread(work: &Work, t: ThreadId) -> bool
    ensures { result ≡ has_thread work.now t }
{
    (t.0 as usize) < work.threads.items().len()
}

fn has_lock(work: &Work, l: LockId) -> bool
    ensures { result ≡ has_lock work.now l }
{
    (l.0 as usize) < work.locks.items().len()
}

fn has_chan(work: &Work, k: ChanId) -> bool
    ensures { result ≡ has_chan work.now k }
{
    (k.0 as usize) < work.chans.items().len()
}

fn has_set(work: &Work, p: SetId) -> bool
    ensures { result ≡ has_set work.now p }
{
    p.0 as usize <= work.sets.items().len()
}

fn put_fits(work: &Work, place: Put) -> bool
    ensures { result ≡ put_fits work.now place }
{
    match place {
        Put::Cpu(x) => has_cpu(work, x),
        Put::RealTime(x) => has_cpu(work, x),
    }
}

fn put_fits_if(work: &Work, place: Option<Put>) -> bool
    ensures { result ≡ put_fits_if work.now place }
{
    match place {
        None => true,
        Some(place) => put_fits(work, place),
    }
}

fn woken_fits(work: &Work, woken: Option<(ThreadId, Put)>) -> bool
    ensures { result ≡ woken_fits work.now woken }
{
    match woken {
        None => true,
        Some((u, place)) => has_thread(work, u) && put_fits(work, place),
    }
}

fn cpu_fits_if(work: &Work, c: Option<CpuId>) -> bool
    ensures { result ≡ cpu_fits_if work.now c }
{
    match c {
        None => true,
        Some(c) => has_cpu(work, c),
    }
}

fn prio_fits(work: &Work, answer: PrioAnswer) -> bool
    ensures { result ≡ prio_fits work.now answer }
{
    match answer {
        PrioAnswer::Changed { at, .. } => put_fits_if(work, at),
        PrioAnswer::Refused(_) => true,
    }
}

fn bind_fits(work: &Work, answer: BindAnswer) -> bool
    ensures { result ≡ bind_fits work.now answer }
{
    match answer {
        BindAnswer::Changed { at } => put_fits_if(work, at),
        _ => true,
    }
}

#[tactic(auto, unfolding(sd_entries::specs::Fitting::event_fits))]
fn event_fits(work: &Work, event: &Event) -> bool
    ensures { result ≡ event_fits work.now event.now }
{
    match *event {
        Event::Tick { t } => has_thread(work, t),
        Event::Spin { t, l } => has_thread(work, t) && has_lock(work, l),
        Event::Idle => true,
        Event::Dispatch { t, .. } => has_thread(work, t),
        Event::Steal { victim, t, .. } => has_cpu(work, victim) && has_thread(work, t),
        Event::Preempt { t, .. } => has_thread(work, t),
        Event::Yield { t } => has_thread(work, t),
        Event::Done { t } => has_thread(work, t),
        Event::Nap { t } => has_thread(work, t),
        Event::Napend { t, at } => has_thread(work, t) && put_fits(work, at),
        Event::Sleep { t, k } => has_thread(work, t) && has_chan(work, k),
        Event::Wake { t, k, woken } => has_thread(work, t)
            && has_chan(work, k)
            && woken_fits(work, woken),
        Event::Wakeall { t, k } => has_thread(work, t) && has_chan(work, k),
        Event::Rouse { k, woken } => has_chan(work, k) && woken_fits(work, woken),
        Event::Enter { t, l } => has_thread(work, t) && has_lock(work, l),
        Event::Read { t, l } => has_thread(work, t) && has_lock(work, l),
        Event::Write { t, l } => has_thread(work, t) && has_lock(work, l),
        Event::Block { t, l } => has_thread(work, t) && has_lock(work, l),
        Event::Will { l, o, at, .. } => has_lock(work, l)
            && has_thread(work, o)
            && put_fits_if(work, at),
        Event::End { l } => has_lock(work, l),
        Event::Exit { t, l } => has_thread(work, t) && has_lock(work, l),
        Event::Unblock { l, u, at } => has_lock(work, l)
            && has_thread(work, u)
            && put_fits(work, at),
        Event::Grant { l, u, at } => has_lock(work, l) && has_thread(work, u) && put_fits(work, at),
        Event::Passed { l } => has_lock(work, l),
        Event::Age { t, .. } => has_thread(work, t),
        Event::Prio { t, u, answer } => has_thread(work, t)
            && has_thread(work, u)
            && prio_fits(work, answer),
        Event::CvWait { t, k, l } => has_thread(work, t) && has_chan(work, k) && has_lock(work, l),
        Event::SemaP { t, k } => has_thread(work, t) && has_chan(work, k),
        Event::SemaWait { t, k } => has_thread(work, t) && has_chan(work, k),
        Event::SemaVWake { t, k, u, at } => has_thread(work, t)
            && has_chan(work, k)
            && has_thread(work, u)
            && put_fits(work, at),
        Event::SemaVCount { t, k, .. } => has_thread(work, t) && has_chan(work, k),
        Event::Assign { t, cpu, set, .. } => has_thread(work, t)
            && has_cpu(work, cpu)
            && has_set(work, set),
        Event::Move { t, at } => has_thread(work, t) && put_fits(work, at),
        Event::Joined { set } => has_set(work, set),
        Event::Bind { t, u, cpu, answer } => has_thread(work, t)
            && has_thread(work, u)
            && cpu_fits_if(work, cpu)
            && bind_fits(work, answer),
        Event::Away { t, cpu } => has_thread(work, t) && has_cpu(work, cpu),
    }
}

fn reads_if(place: Option<Put>) -> Option<Which>
    ensures { result ≡ reads_if place }
{
    match place {
        None => None,
        Some(_) => Some(Which::Running),
    }
}

fn woken_reads(woken: Option<(ThreadId, Put)>) -> Option<Which>
    ensures { result ≡ woken_reads woken }
{
    match woken {
        None => None,
        Some(_) => Some(Which::Running),
    }
}

fn prio_reads(answer: PrioAnswer) -> Option<Which>
    ensures { result ≡ prio_reads answer }
{
    match answer {
        PrioAnswer::Changed { at, .. } => reads_if(at),
        PrioAnswer::Refused(_) => None,
    }
}

fn bind_reads(answer: BindAnswer) -> Option<Which>
    ensures { result ≡ bind_reads answer }
{
    match answer {
        BindAnswer::Changed { at } => reads_if(at),
        _ => None,
    }
}

/// Which numbers the event may have read.
pub(crate) fn may_read(event: &Event) -> Option<Which>
    ensures { result ≡ may_read event.now }
{
    match *event {
        Event::Idle => Some(Which::Queued),
        Event::Steal { .. } => Some(Which::Queued),
        Event::Napend { .. } => Some(Which::Running),
        Event::Wake { woken, .. } => woken_reads(woken),
        Event::Rouse { woken, .. } => woken_reads(woken),
        Event::Will { at, .. } => reads_if(at),
        Event::Unblock { .. } => Some(Which::Running),
        Event::Grant { .. } => Some(Which::Running),
        Event::Prio { answer, .. } => prio_reads(answer),
        Event::SemaVWake { .. } => Some(Which::Running),
        Event::Move { .. } => Some(Which::Running),
        Event::Bind { answer, .. } => bind_reads(answer),
        _ => None,
    }
}

fn is_allowed_which(which: Which, may: Option<Which>) -> bool
    ensures { result ≡ is_allowed_which which may }
{
    match (which, may) {
        (Which::Running, Some(Which::Running)) => true,
        (Which::Queued, Some(Which::Queued)) => true,
        _ => false,
    }
}

fn numbers_fit(may: Option<Which>, hints: &Hints) -> bool
    ensures { result ≡ are_allowed_hints may (Rattle.std.specs.Prelude.Some hints.now) }
{
    is_allowed_which(hints.which, may) && !hints.numbers.as_slice().is_empty()
}

fn are_allowed_hints(may: Option<Which>, hints: &Option<Hints>) -> bool
    ensures { result ≡ are_allowed_hints may hints.now }
{
    match hints {
        None => true,
        Some(hints) => numbers_fit(may, hints),
    }
}

/// Whether the entry has a line of its own.
#[tactic(auto, unfolding(sd_entries::specs::Fitting::entry_fits))]
pub(crate) fn entry_fits(work: &Work, entry: &Entry) -> bool
    ensures { result ≡ entry_fits work.now entry.now }
{
    has_cpu(work, entry.cpu)
        && event_fits(work, &entry.event)
        && are_allowed_hints(may_read(&entry.event), &entry.hints)
}
