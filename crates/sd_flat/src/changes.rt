//! Changes of a state. A number that is out of range changes nothing.

ghost use Rattle.std.specs.Prelude.{◌≡◌, ◌<◌};
ghost use Rattle.sd_machine.specs.Changes.{clear_marks, count_tick, counted, duty_after, leave, marked, run_on, set_duty, set_kernel_mark, set_mark, with_place};
ghost use Rattle.sd_machine.specs.Threads.{with_count, with_lock};
ghost use Rattle.sd_state.specs.States.{cpu_of};

use crate::reads::{cpu_of, is_cpu, is_thread};
use sd_state::{CpuState, LockState, Place, State};
use sd_types::{ChanId, CpuId, Duty, LockId, REAL_TIME_PRIORITY, ThreadId, Work};

/// The duty after a tick: each second the time-sharing threads on the queue are looked at.
pub fn duty_after(work: &Work, count: u32, duty: Duty) -> Duty
    ensures { result ≡ duty_after work.now count duty }
{
    if count % work.hz == 0 {
        Duty::Age(ThreadId(0))
    } else {
        duty
    }
}

/// One tick more.
fn counted(work: &Work, x: CpuState) -> CpuState
    requires { x.count < work.now.limit }
    ensures { result ≡ counted work.now x }
{
    let count = x.count + 1;
    CpuState {
        count,
        duty: duty_after(work, count, x.duty),
        ..x
    }
}

/// Marked for the sake of a thread of priority `m`: the kernel's mark from 100 on, else the user's.
fn marked(m: u8, x: CpuState) -> CpuState
    ensures { result ≡ marked m x }
{
    if m >= REAL_TIME_PRIORITY {
        CpuState { kernel: true, ..x }
    } else {
        CpuState { user: true, ..x }
    }
}

/// Gives processor `c` a duty.
#[tactic(auto, using(crate::proofs::Past::past), unfolding(sd_machine::specs::Changes::set_duty))]
pub fn set_duty(s: &mut State, c: CpuId, duty: Duty)
    ensures { s.new ≡ set_duty s.old c.0 duty }
{
    if is_cpu(s, c) {
        s.cpus.items_mut()[c.0 as usize].duty = duty;
    }
}

/// Processor `c` counts a tick, where its count is below the limit.
#[tactic(auto, using(crate::proofs::Past::past), unfolding(sd_machine::specs::Changes::count_tick))]
pub fn count_tick(work: &Work, s: &mut State, c: CpuId)
    ensures { (cpu_of s.old c.0).count < work.now.limit → s.new ≡ count_tick work.now s.old c.0 }
{
    let x = cpu_of(s, c);
    if is_cpu(s, c) && x.count < work.limit {
        s.cpus.items_mut()[c.0 as usize] = counted(work, x);
    }
}

/// Clears both marks of processor `c`.
#[tactic(auto, using(crate::proofs::Past::past), unfolding(sd_machine::specs::Changes::clear_marks))]
pub fn clear_marks(s: &mut State, c: CpuId)
    ensures { s.new ≡ clear_marks s.old c.0 }
{
    if is_cpu(s, c) {
        let x = &mut s.cpus.items_mut()[c.0 as usize];
        x.user = false;
        x.kernel = false;
    }
}

/// Marks processor `c` for the sake of a thread of priority `m`.
#[tactic(auto, using(crate::proofs::Past::past), unfolding(sd_machine::specs::Changes::set_mark))]
pub fn set_mark(s: &mut State, c: CpuId, m: u8)
    ensures { s.new ≡ set_mark s.old c.0 m }
{
    let x = cpu_of(s, c);
    if is_cpu(s, c) {
        s.cpus.items_mut()[c.0 as usize] = marked(m, x);
    }
}

/// Sets the kernel's mark of processor `c`.
#[tactic(auto, using(crate::proofs::Past::past), unfolding(sd_machine::specs::Changes::set_kernel_mark))]
pub fn set_kernel_mark(s: &mut State, c: CpuId)
    ensures { s.new ≡ set_kernel_mark s.old c.0 }
{
    if is_cpu(s, c) {
        s.cpus.items_mut()[c.0 as usize].kernel = true;
    }
}

/// Thread `t` runs on processor `c`.
#[tactic(auto, using(crate::proofs::Past::past), unfolding(sd_machine::specs::Changes::run_on))]
pub fn run_on(s: &mut State, t: ThreadId, c: CpuId)
    ensures { s.new ≡ run_on s.old t.0 c }
{
    if is_thread(s, t) {
        let x = &mut s.threads.items_mut()[t.0 as usize];
        x.body.last = c;
        x.place = Place::Running(c);
    }
}

/// Thread `t` leaves processor `c` for a place: both marks and its `back` are cleared, and it notes the count.
#[tactic(auto, using(crate::proofs::Past::past), unfolding(sd_machine::specs::Changes::leave))]
pub fn leave(s: &mut State, c: CpuId, t: ThreadId, place: Place)
    ensures { s.new ≡ leave s.old c.0 t.0 place }
{
    let count = cpu_of(s, c).count;
    if is_thread(s, t) {
        let x = &mut s.threads.items_mut()[t.0 as usize];
        x.body.back = false;
        x.body.left_at = Some(count);
        x.place = place;
    }
    if is_cpu(s, c) {
        let y = &mut s.cpus.items_mut()[c.0 as usize];
        y.user = false;
        y.kernel = false;
    }
}

/// Thread `t` goes to a place.
#[tactic(auto, using(crate::proofs::Past::past))]
pub fn move_to(s: &mut State, t: ThreadId, place: Place)
    ensures { s.new ≡ with_place s.old t.0 place }
{
    if is_thread(s, t) {
        s.threads.items_mut()[t.0 as usize].place = place;
    }
}

/// Changes the state of lock `l`.
#[tactic(auto, using(crate::proofs::Past::past))]
pub fn set_lock(s: &mut State, l: LockId, lock: LockState)
    ensures { s.new ≡ with_lock s.old l.0 lock }
{
    if (l.0 as usize) < s.locks.items().len() {
        s.locks.items_mut()[l.0 as usize] = lock;
    }
}

/// The count of semaphore `k` becomes `n`.
#[tactic(auto, using(crate::proofs::Past::past))]
pub fn set_count(s: &mut State, k: ChanId, n: u32)
    ensures { s.new ≡ with_count s.old k.0 n }
{
    if (k.0 as usize) < s.counts.items().len() {
        s.counts.items_mut()[k.0 as usize] = n;
    }
}
