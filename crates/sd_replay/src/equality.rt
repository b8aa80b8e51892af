//! Whether two events are the same.

ghost use Rattle.std.specs.Prelude.{◌≡◌, ◌↔◌, IsTrue};

use sd_types::{BindAnswer, CpuId, Event, PrioAnswer, Put, ThreadId};

fn same_put(a: &Put, b: &Put) -> bool
    ensures { IsTrue result ↔ (a.now ≡ b.now) }
{
    match a {
        Put::Cpu(c) => matches!(b, Put::Cpu(d) if d.0 == c.0),
        Put::RealTime(c) => matches!(b, Put::RealTime(d) if d.0 == c.0),
    }
}

fn same_at(a: &Option<Put>, b: &Option<Put>) -> bool
    ensures { IsTrue result ↔ (a.now ≡ b.now) }
{
    match a {
        None => b.is_none(),
        Some(put) => match b {
            None => false,
            Some(other) => same_put(put, other),
        },
    }
}

fn same_woken(a: &Option<(ThreadId, Put)>, b: &Option<(ThreadId, Put)>) -> bool
    ensures { IsTrue result ↔ (a.now ≡ b.now) }
{
    match a {
        None => b.is_none(),
        Some((t, put)) => match b {
            None => false,
            Some((u, other)) => t.0 == u.0 && same_put(put, other),
        },
    }
}

fn same_cpu(a: &Option<CpuId>, b: &Option<CpuId>) -> bool
    ensures { IsTrue result ↔ (a.now ≡ b.now) }
{
    match a {
        None => b.is_none(),
        Some(c) => matches!(b, Some(d) if c.0 == d.0),
    }
}

fn same_prio(a: &PrioAnswer, b: &PrioAnswer) -> bool
    ensures { IsTrue result ↔ (a.now ≡ b.now) }
{
    match a {
        PrioAnswer::Changed { p, at } => match b {
            PrioAnswer::Changed { p: q, at: other } => p == q && same_at(at, other),
            PrioAnswer::Refused(_) => false,
        },
        PrioAnswer::Refused(denied) => match b {
            PrioAnswer::Changed { .. } => false,
            PrioAnswer::Refused(other) => denied == other,
        },
    }
}

fn same_bind(a: &BindAnswer, b: &BindAnswer) -> bool
    ensures { IsTrue result ↔ (a.now ≡ b.now) }
{
    match a {
        BindAnswer::Changed { at } => match b {
            BindAnswer::Changed { at: other } => same_at(at, other),
            _ => false,
        },
        BindAnswer::ESRCH => matches!(b, BindAnswer::ESRCH),
        BindAnswer::EINVAL => matches!(b, BindAnswer::EINVAL),
        BindAnswer::EPERM => matches!(b, BindAnswer::EPERM),
        BindAnswer::EBUSY => matches!(b, BindAnswer::EBUSY),
    }
}

/// The two events are the same.
pub fn same_event(a: &Event, b: &Event) -> bool
    ensures { IsTrue result ↔ (a.now ≡ b.now) }
{
    match a {
        Event::Tick { t } => matches!(b, Event::Tick { t: u } if t.0 == u.0),
        Event::Spin { t, l } => matches!(b, Event::Spin { t: u, l: m } if t.0 == u.0 && l.0 == m.0),
        Event::Idle => matches!(b, Event::Idle),
        Event::Dispatch { t, p } =>
            matches!(b, Event::Dispatch { t: u, p: r } if t.0 == u.0 && p == r),
        Event::Steal { victim, t, p } =>
            matches!(b, Event::Steal { victim: x, t: u, p: r } if victim.0 == x.0 && t.0 == u.0 && p == r),
        Event::Preempt { t, end } =>
            matches!(b, Event::Preempt { t: u, end: e } if t.0 == u.0 && end == e),
        Event::Yield { t } => matches!(b, Event::Yield { t: u } if t.0 == u.0),
        Event::Done { t } => matches!(b, Event::Done { t: u } if t.0 == u.0),
        Event::Nap { t } => matches!(b, Event::Nap { t: u } if t.0 == u.0),
        Event::Napend { t, at } =>
            matches!(b, Event::Napend { t: u, at: z } if t.0 == u.0 && same_put(at, z)),
        Event::Sleep { t, k } =>
            matches!(b, Event::Sleep { t: u, k: j } if t.0 == u.0 && k.0 == j.0),
        Event::Wake { t, k, woken } =>
            matches!(b, Event::Wake { t: u, k: j, woken: z } if t.0 == u.0 && k.0 == j.0 && same_woken(woken, z)),
        Event::Wakeall { t, k } =>
            matches!(b, Event::Wakeall { t: u, k: j } if t.0 == u.0 && k.0 == j.0),
        Event::Rouse { k, woken } =>
            matches!(b, Event::Rouse { k: j, woken: z } if k.0 == j.0 && same_woken(woken, z)),
        Event::Enter { t, l } =>
            matches!(b, Event::Enter { t: u, l: m } if t.0 == u.0 && l.0 == m.0),
        Event::Read { t, l } => matches!(b, Event::Read { t: u, l: m } if t.0 == u.0 && l.0 == m.0),
        Event::Write { t, l } =>
            matches!(b, Event::Write { t: u, l: m } if t.0 == u.0 && l.0 == m.0),
        Event::Block { t, l } =>
            matches!(b, Event::Block { t: u, l: m } if t.0 == u.0 && l.0 == m.0),
        Event::Will { l, o, p, at } =>
            matches!(b, Event::Will { l: m, o: w, p: r, at: z } if l.0 == m.0 && o.0 == w.0 && p == r && same_at(at, z)),
        Event::End { l } => matches!(b, Event::End { l: m } if l.0 == m.0),
        Event::Exit { t, l } => matches!(b, Event::Exit { t: u, l: m } if t.0 == u.0 && l.0 == m.0),
        Event::Unblock { l, u, at } =>
            matches!(b, Event::Unblock { l: m, u: v, at: z } if l.0 == m.0 && u.0 == v.0 && same_put(at, z)),
        Event::Grant { l, u, at } =>
            matches!(b, Event::Grant { l: m, u: v, at: z } if l.0 == m.0 && u.0 == v.0 && same_put(at, z)),
        Event::Passed { l } => matches!(b, Event::Passed { l: m } if l.0 == m.0),
        Event::Age { t, p } => matches!(b, Event::Age { t: u, p: r } if t.0 == u.0 && p == r),
        Event::Prio { t, u, answer } =>
            matches!(b, Event::Prio { t: x, u: v, answer: y } if t.0 == x.0 && u.0 == v.0 && same_prio(answer, y)),
        Event::CvWait { t, k, l } =>
            matches!(b, Event::CvWait { t: u, k: j, l: m } if t.0 == u.0 && k.0 == j.0 && l.0 == m.0),
        Event::SemaP { t, k } =>
            matches!(b, Event::SemaP { t: u, k: j } if t.0 == u.0 && k.0 == j.0),
        Event::SemaWait { t, k } =>
            matches!(b, Event::SemaWait { t: u, k: j } if t.0 == u.0 && k.0 == j.0),
        Event::SemaVWake { t, k, u, at } =>
            matches!(b, Event::SemaVWake { t: x, k: j, u: v, at: z } if t.0 == x.0 && k.0 == j.0 && u.0 == v.0 && same_put(at, z)),
        Event::SemaVCount { t, k, count } =>
            matches!(b, Event::SemaVCount { t: u, k: j, count: n } if t.0 == u.0 && k.0 == j.0 && count == n),
        Event::Assign {
            t,
            cpu,
            set,
            answer,
        } =>
            matches!(b, Event::Assign { t: u, cpu: d, set: q, answer: y } if t.0 == u.0 && cpu.0 == d.0 && set.0 == q.0 && answer == y),
        Event::Move { t, at } =>
            matches!(b, Event::Move { t: u, at: z } if t.0 == u.0 && same_put(at, z)),
        Event::Joined { set } => matches!(b, Event::Joined { set: q } if set.0 == q.0),
        Event::Bind { t, u, cpu, answer } =>
            matches!(b, Event::Bind { t: x, u: v, cpu: d, answer: y } if t.0 == x.0 && u.0 == v.0 && same_cpu(cpu, d) && same_bind(answer, y)),
        Event::Away { t, cpu } =>
            matches!(b, Event::Away { t: u, cpu: d } if t.0 == u.0 && cpu.0 == d.0),
    }
}
