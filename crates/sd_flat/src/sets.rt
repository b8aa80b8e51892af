//! Processors that change their set, and threads that are bound to one.

ghost use Rattle.std.specs.Prelude.{◌≡◌, ◌∷◌, ◌++◌, ◌+◌, ◌<◌, ◌≤◌, ◌^◌, drop, length, take};
ghost use Rattle.sd_machine.specs.Changes.{bind, close, join, unbind, with_cpu_in, without_cpu};
ghost use Rattle.sd_machine.specs.Threads.{open_of};
ghost use Rattle.sd_state.specs.States.{cpu_of};
ghost use Rattle.sd_types.specs.Limits.{most_processors};

use crate::reads::{cpu_of, is_cpu, is_thread};
use arrayvec::ArrayVec;
use sd_state::State;
use sd_types::{CpuId, MOST_PROCESSORS, SetId, ThreadId};

/// A rising list of processors without processor `c`.
pub fn without_cpu(c: CpuId, cpus: &ArrayVec<CpuId, 64>) -> ArrayVec<CpuId, 64>
    ensures { result.items ≡ without_cpu c cpus.now.items }
{
    let mut rest = ArrayVec::new();
    for d in cpus.as_slice() {
        if d.0 != c.0 {
            rest.push(*d);
        }
    }
    rest
}

/// The index before which processor `c` stands in a rising list: that of the first with a greater number.
fn index_for(c: CpuId, cpus: &[CpuId]) -> usize
    ensures inside { result ≤ length cpus.now }
    ensures here { with_cpu_in c cpus.now ≡ take result cpus.now ++ c ∷ drop result cpus.now }
{
    for index in 0..cpus.len() {
        if c.0 < cpus[index].0 {
            return index;
        }
    }
    cpus.len()
}

/// A rising list of processors with processor `c`, where there is room.
pub fn with_cpu_in(c: CpuId, cpus: &mut ArrayVec<CpuId, 64>)
    ensures { length cpus.old.items < most_processors → cpus.new.items ≡ with_cpu_in c cpus.old.items }
{
    if cpus.len() < MOST_PROCESSORS {
        let index = index_for(c, cpus.as_slice());
        cpus.insert(index, c);
    }
}

/// Processor `d` leaves the open ones of its set, and is closing to another.
#[tactic(auto, using(crate::proofs::Past::past), unfolding(sd_machine::specs::Changes::close))]
pub fn close(s: &mut State, d: CpuId, to: SetId)
    ensures { s.new ≡ close s.old d to }
{
    let set = cpu_of(s, d).set.0 as usize;
    if set < s.open_cpus.items().len() {
        let rest = without_cpu(d, &s.open_cpus.items()[set]);
        s.open_cpus.items_mut()[set] = rest;
    }
    if is_cpu(s, d) {
        s.cpus.items_mut()[d.0 as usize].closing = Some(to);
    }
}

/// Processor `c` is one of the open ones of a set, where that has room for it.
#[tactic(auto, using(crate::proofs::Past::past), unfolding(sd_machine::specs::Changes::join))]
pub fn join(s: &mut State, c: CpuId, set: SetId)
    ensures { length (open_of s.old set.0) < most_processors → s.new ≡ join s.old c set }
{
    if (set.0 as usize) < s.open_cpus.items().len() {
        with_cpu_in(c, &mut s.open_cpus.items_mut()[set.0 as usize]);
    }
    if is_cpu(s, c) {
        let x = &mut s.cpus.items_mut()[c.0 as usize];
        x.set = set;
        x.closing = None;
    }
}

/// Thread `t` is bound to processor `d`, where that may count one more.
#[tactic(auto, using(crate::proofs::Past::past), unfolding(sd_machine::specs::Changes::bind))]
pub fn bind(s: &mut State, t: ThreadId, d: CpuId)
    ensures { (cpu_of s.old d.0).bound + 1 < 2 ^ 16 → s.new ≡ bind s.old t.0 d }
{
    if is_thread(s, t) {
        s.threads.items_mut()[t.0 as usize].body.bound = Some(d);
    }
    if is_cpu(s, d) {
        let x = &mut s.cpus.items_mut()[d.0 as usize];
        x.bound = x.bound.saturating_add(1);
    }
}

/// Thread `t` is bound to processor `b` no more.
#[tactic(auto, using(crate::proofs::Past::past), unfolding(sd_machine::specs::Changes::unbind))]
pub fn unbind(s: &mut State, t: ThreadId, b: CpuId)
    ensures { s.new ≡ unbind s.old t.0 b }
{
    if is_thread(s, t) {
        s.threads.items_mut()[t.0 as usize].body.bound = None;
    }
    if is_cpu(s, b) {
        let x = &mut s.cpus.items_mut()[b.0 as usize];
        x.bound = x.bound.saturating_sub(1);
    }
}
