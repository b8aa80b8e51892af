//! The threads, locks, processors and channels of the initial state.
//!
//! Source: Solaris Internals (`thread_create`, `cpu_t`); that threads are assigned round-robin to the processors of their set is this
//! project's own.

ghost use Rattle.std.specs.Prelude.{◌≡◌, ◌+◌, ◌<◌, ◌≤◌, Some, length, slice_get, IsTrue, IfOk, map, replicate};
ghost use Rattle.std.specs.List.{range_with_len};
ghost use Rattle.sd_types.specs.Works.{class_fits};
ghost use Rattle.sd_state.specs.Opening.{is_urgent, is_dealt, dealt_before, dealt_cpu, first_cpu, first_place, first_body, first_thread, first_threads, count_of, first_count, first_cpu_state, open_list, opening};
ghost use Rattle.sd_types.specs.declared.works.Work.{Work as WorkOf};
ghost use Rattle.sd_opening.specs.Dealt.{AreDealt};

use arrayvec::ArrayVec;
use sd_class::first_state;
use sd_flat::ticks_at;
use sd_rules::{cpus_of_set, set_of_cpu};
use sd_state::{CpuState, LockState, Place, State, ThreadState};
use sd_types::{ChanKind, ClassParms, CpuId, Duty, List, SetId, ThreadBody, ThreadDecl, Work};
use std::alloc::{AllocError, Global};

fn is_urgent(d: &ThreadDecl) -> bool
    ensures { result ≡ is_urgent d.now }
{
    matches!(d.class, ClassParms::Rt { .. })
}

fn is_dealt(p: SetId, d: &ThreadDecl) -> bool
    ensures { result ≡ is_dealt p.0 d.now }
{
    d.set.0 == p.0 && !is_urgent(d)
}

/// How many of the threads before thread `t` are assigned round-robin in set `p`.
fn dealt_before(work: &Work, p: SetId, t: usize) -> usize
    requires { t ≤ length work.now.threads }
    ensures { result ≡ dealt_before work.now p.0 t }
{
    work.threads.items()[..t]
        .iter()
        .filter(|d| is_dealt(p, d))
        .count()
}

/// How many threads before one are assigned round-robin in each set: a workload has eight sets at most, and set 0 beside them.
#[derive(Clone, Copy)]
struct Dealing {
    dealt: [usize; 9],
}

impl Dealing {
    /// Before the first thread.
    fn new() -> Dealing
        ensures { (w : WorkOf) → AreDealt w 0 result.dealt }
    {
        Dealing { dealt: [0; 9] }
    }

    /// The turn of thread `t` in set `p`.
    fn before(&self, work: &Work, p: SetId, t: usize) -> usize
        requires inside { t ≤ length work.now.threads }
        requires dealing { AreDealt work.now t self.now.dealt }
        ensures { result ≡ dealt_before work.now p.0 t }
    {
        let set = p.0 as usize;
        if set < 9 {
            self.dealt[set]
        } else {
            dealt_before(work, p, t)
        }
    }

    /// Thread `t` has had its turn.
    #[tactic(auto, using(crate::proofs::DealtLemmas::urgent_passes, crate::proofs::DealtLemmas::other_passes, crate::proofs::DealtLemmas::dealt_passes))]
    fn pass(&mut self, work: &Work, t: usize, d: &ThreadDecl)
        requires inside { t < length work.now.threads }
        requires there { slice_get work.now.threads t ≡ Some d.now }
        requires dealing { AreDealt work.now t self.old.dealt }
        ensures { AreDealt work.now (t + 1) self.new.dealt }
    {
        let set = d.set.0 as usize;
        if is_urgent(d) {
            return;
        }
        if set < 9 {
            self.dealt[set] += 1;
        }
    }
}

fn dealt_cpu(cpus: &[CpuId], k: usize) -> CpuId
    ensures { result ≡ dealt_cpu cpus.now k }
{
    if cpus.len() == 0 {
        CpuId(0)
    } else {
        cpus[k % cpus.len()]
    }
}

/// The processor on whose queue thread `t` stands; for an urgent one the least of its partition.
#[tactic(auto, unfolding(sd_state::specs::Opening::first_cpu))]
fn first_cpu(work: &Work, dealing: &Dealing, t: usize, d: &ThreadDecl) -> CpuId
    requires inside { t ≤ length work.now.threads }
    requires dealing { AreDealt work.now t dealing.now.dealt }
    ensures { result ≡ first_cpu work.now t d.now }
{
    let cpus = cpus_of_set(work, d.set);
    let turn = if is_urgent(d) {
        0
    } else {
        dealing.before(work, d.set, t)
    };
    dealt_cpu(cpus.as_slice(), turn)
}

/// The place of thread `t`, whose processor is `cpu`.
fn first_place(work: &Work, t: usize, d: &ThreadDecl, cpu: CpuId) -> Place
    requires inside { t ≤ length work.now.threads }
    requires cpu { cpu ≡ first_cpu work.now t d.now }
    ensures { result ≡ first_place work.now t d.now }
{
    let key = t as i64;
    if is_urgent(d) {
        Place::RealTime(d.set, key)
    } else {
        Place::Queued(cpu, key)
    }
}

/// The body of thread `t`, whose processor is `cpu`.
fn first_body(work: &Work, t: usize, d: &ThreadDecl, cpu: CpuId) -> ThreadBody
    requires class { IsTrue (class_fits d.now.class d.now.cpupri) }
    requires cpu { cpu ≡ first_cpu work.now t d.now }
    ensures { result ≡ first_body work.now t d.now }
{
    ThreadBody {
        class: first_state(&d.class, d.cpupri, work),
        willed: ArrayVec::new(),
        held: ArrayVec::new(),
        op: 0,
        run_left: ticks_at(d.script.ops().get(0).copied()),
        back: false,
        last: cpu,
        left_at: None,
        looped: false,
        bound: None,
    }
}

#[tactic(auto, unfolding(sd_state::specs::Opening::first_thread))]
fn first_thread(work: &Work, dealing: &Dealing, t: usize, d: &ThreadDecl) -> ThreadState
    requires inside { t ≤ length work.now.threads }
    requires class { IsTrue (class_fits d.now.class d.now.cpupri) }
    requires dealing { AreDealt work.now t dealing.now.dealt }
    ensures { result ≡ first_thread work.now t d.now }
{
    let cpu = first_cpu(work, dealing, t, d);
    ThreadState {
        body: first_body(work, t, d, cpu),
        place: first_place(work, t, d, cpu),
    }
}

fn first_threads(alloc: Global, work: &Work) -> Result<Vec<ThreadState>, AllocError>
    ensures { IfOk result (λ v. v.items ≡ first_threads work.now 0 work.now.threads) }
{
    let mut threads = Vec::new(alloc);
    let mut dealing = Dealing::new();
    let decls = work.threads.items();
    for t in 0..decls.len() {
        threads.push(first_thread(work, &dealing, t, &decls[t]))?;
        dealing.pass(work, t, &decls[t]);
    }
    Ok(threads)
}

fn first_locks(alloc: Global, work: &Work) -> Result<Vec<LockState>, AllocError>
    ensures { IfOk result (λ v. v.items ≡ replicate (length work.now.locks) LockState.Free) }
{
    vec![in alloc; LockState::Free; work.locks.items().len()]
}

#[tactic(auto, unfolding(sd_state::specs::Opening::first_cpu_state))]
fn first_cpu_state(work: &Work, c: u16) -> CpuState
    ensures { result ≡ first_cpu_state work.now c }
{
    CpuState {
        count: 0,
        user: false,
        kernel: false,
        duty: Duty::Nothing,
        set: set_of_cpu(work, CpuId(c)),
        closing: None,
        bound: 0,
    }
}

fn first_cpus(alloc: Global, work: &Work) -> Result<Vec<CpuState>, AllocError>
    ensures { IfOk result (λ v. v.items ≡ map (first_cpu_state work.now) (range_with_len 0 work.now.cpus)) }
{
    let mut cpus = Vec::new(alloc);
    for c in 0..work.cpus {
        cpus.push(first_cpu_state(work, c))?;
    }
    Ok(cpus)
}

fn first_count(kind: &ChanKind) -> u32
    ensures { result ≡ count_of kind.now }
{
    match kind {
        ChanKind::Chan => 0,
        ChanKind::Sema { count } => u32::from(*count),
    }
}

fn first_counts(alloc: Global, work: &Work) -> Result<Vec<u32>, AllocError>
    ensures { IfOk result (λ v. v.items ≡ map first_count work.now.chans) }
{
    let mut counts = Vec::new(alloc);
    for chan in work.chans.items() {
        counts.push(first_count(&chan.1))?;
    }
    Ok(counts)
}

fn open_lists(alloc: Global, work: &Work) -> Result<Vec<ArrayVec<CpuId, 64>>, AllocError>
    ensures { IfOk result (λ v. v.items ≡ map (open_list work.now) (range_with_len 0 (length work.now.sets + 1))) }
{
    let mut lists = Vec::new(alloc);
    let count = work.sets.items().len() + 1;
    for p in 0..count {
        lists.push(cpus_of_set(work, SetId(p as u8)))?;
    }
    Ok(lists)
}

/// The state in which a run begins. `Err` only where memory runs out.
#[tactic(auto, unfolding(sd_state::specs::Opening::opening))]
pub fn opening(alloc: Global, work: &Work) -> Result<State, AllocError>
    ensures state { IfOk result (λ s. s ≡ opening work.now) }
{
    Ok(State {
        threads: List::from_vec(first_threads(alloc, work)?),
        locks: List::from_vec(first_locks(alloc, work)?),
        cpus: List::from_vec(first_cpus(alloc, work)?),
        counts: List::from_vec(first_counts(alloc, work)?),
        open_cpus: List::from_vec(open_lists(alloc, work)?),
    })
}
