//! The sentence on an entry, by its event.

ghost use Rattle.std.specs.Prelude.{◌≡◌, ◌++◌, OnOk};
ghost use Rattle.sd_story.specs.Sentences.{sentence};

use crate::locks::{
    put_block, put_end, put_enter, put_exit, put_grant, put_passed, put_read, put_unblock,
    put_will, put_write,
};
use crate::requests::{put_age, put_assign, put_bind, put_joined, put_move, put_prio};
use crate::running::{
    put_away, put_dispatch, put_idle, put_preempt, put_spin, put_steal, put_tick,
};
use crate::scene::Scene;
use crate::sleeping::{
    put_counted, put_cvwait, put_handed, put_nap, put_napend, put_rouse, put_semap, put_semawait,
    put_sleep, put_wake, put_wakeall,
};
use crate::words::put_thread;
use sd_types::{CpuId, Event, Work};
use std::alloc::AllocError;

/// Appends the sentence on an event that processor `c` makes in the state. Where memory runs out, a part of it may have been
/// appended.
pub fn put_sentence<S: Scene>(
    work: &Work,
    s: &S,
    c: CpuId,
    event: &Event,
    out: &mut Vec<u8>,
) -> Result<(), AllocError>
    requires good { S.good s.now }
    ensures { OnOk result (out.new.items ≡ out.old.items ++ sentence work.now (S.state s.now) c event.now) }
{
    match *event {
        Event::Tick { t } => put_tick(work, s, t, out),
        Event::Spin { t, l } => put_spin(work, s, t, l, out),
        Event::Idle => put_idle(c, out),
        Event::Dispatch { t, p } => put_dispatch(work, c, t, p, out),
        Event::Steal { victim, t, p } => put_steal(work, c, victim, t, p, out),
        Event::Preempt { t, end } => put_preempt(work, t, end, out),
        Event::Yield { t } => put_thread(
            work,
            t,
            b" yields, and goes to the back of its queue",
            out,
        ),
        Event::Done { t } => put_thread(work, t, b" comes to the end of its script", out),
        Event::Nap { t } => put_nap(work, s, c, t, out),
        Event::Napend { t, at } => put_napend(work, t, at, out),
        Event::Sleep { t, k } => put_sleep(work, t, k, out),
        Event::Wake { t, k, woken } => put_wake(work, t, k, woken, out),
        Event::Wakeall { t, k } => put_wakeall(work, c, t, k, out),
        Event::Rouse { k, woken } => put_rouse(work, c, k, woken, out),
        Event::Enter { t, l } => put_enter(work, t, l, out),
        Event::Read { t, l } => put_read(work, t, l, out),
        Event::Write { t, l } => put_write(work, t, l, out),
        Event::Block { t, l } => put_block(work, s, t, l, out),
        Event::Will { l, o, p, at } => put_will(work, s, l, o, p, at, out),
        Event::End { l } => put_end(work, s, l, out),
        Event::Exit { t, l } => put_exit(work, s, t, l, out),
        Event::Unblock { l, u, at } => put_unblock(work, c, l, u, at, out),
        Event::Grant { l, u, at } => put_grant(work, c, l, u, at, out),
        Event::Passed { l } => put_passed(work, l, out),
        Event::Age { t, p } => put_age(work, s, t, p, out),
        Event::Prio { t, u, answer } => put_prio(work, s, t, u, answer, out),
        Event::CvWait { t, k, l } => put_cvwait(work, t, k, l, out),
        Event::SemaP { t, k } => put_semap(work, s, t, k, out),
        Event::SemaWait { t, k } => put_semawait(work, t, k, out),
        Event::SemaVWake { t, k, u, at } => put_handed(work, t, k, u, at, out),
        Event::SemaVCount { t, k, count } => put_counted(work, t, k, count, out),
        Event::Assign {
            t,
            cpu,
            set,
            answer,
        } => put_assign(work, t, cpu, set, answer, out),
        Event::Move { t, at } => put_move(work, c, t, at, out),
        Event::Joined { set } => put_joined(work, c, set, out),
        Event::Bind { t, u, cpu, answer } => put_bind(work, t, u, cpu, answer, out),
        Event::Away { t, cpu } => put_away(work, t, cpu, out),
    }
}
