//! The order in which a processor takes its events: what it is about to do.
//!
//! Source: Solaris Internals (swtch, the clock's tick, preemption); this order is this project's own.

ghost use Rattle.std.specs.Prelude.{◌≡◌, [], ◌∷◌, Some, IsTrue, option_copied, unwrap_or};
ghost use Rattle.sd_types.specs.declared.numbers.ChanId.{ChanId as ChanIdOf};
ghost use Rattle.sd_types.specs.declared.numbers.ThreadId.{ThreadId as ThreadIdOf};
ghost use Rattle.sd_types.specs.declared.scripts.Op.TheVariants.{Prio};
ghost use Rattle.sd_types.specs.declared.scripts.Request.{Request};
ghost use Rattle.sd_types.specs.Works.{quantum_fits};
ghost use Rattle.sd_state.specs.Operations.{op_of};
ghost use Rattle.sd_state.specs.States.{cpu_of, no_body, thread_of};
ghost use Rattle.sd_machine.specs.Needs.{CanCount};
ghost use Rattle.sd_machine.specs.Plans.{ageing_plan, cpu_plan, duty_plan, first_of, free_plan_of, nap_plan, op_plan, plan, run_plan};
ghost use Rattle.sd_step.specs.Needed.{cpu_parts, op_parts, plan_parts};
ghost use Rattle.sd_step.specs.Tasks.{task_ageing, task_parts, task_plan};
ghost use Rattle.sd_store.specs.Keyless.{task_of};
ghost use Rattle.sd_store.specs.Parts.{actor_part, cpu_part, ready_parts, thread_part};
ghost use Rattle.sd_store.specs.Words.{Lacks, Tells, TellsIf};

use sd_dispatcher::{dispatch_plan, leave_in, op_in};
use sd_locks::{
    enter_event, grant_reader_plan, grant_writer_plan, read_event, unblock_plan, walk_plan,
    write_event,
};
use sd_machine::Plan;
use sd_priocntl::{age_plan, answer_to, assign_answer, bind_to, closing_plan, prio_plan};
use sd_sleep::{napend_plan, rouse_plan, sema_p_event, sema_v_plan, wake_plan};
use sd_store::{Look, Task};
use sd_types::{CpuId, Event, Op, SetId, Side, ThreadBody, ThreadId, Work};

/// What processor `c` does by a duty.
fn task_plan<L: Look>(work: &Work, x: &L, c: CpuId, task: Task) -> Result<Option<Plan>, L::Lack>
    ensures value { Tells (L.shows x.now) result (λ s. task_plan work.now s c task) }
    ensures lack { Lacks L.part (L.shows x.now) (L.has x.now) result (λ s. actor_part c ∷ task_parts s task []) }
{
    match task {
        Task::Nothing => Ok(None),
        Task::Walk { lock: l, .. } => {
            let lock = x.lock(l)?;
            Ok(Some(walk_plan(x, l, lock)?))
        }
        Task::WakeMutex(l) => {
            let waiter = x.best_waiter(l, Side::Writer)?;
            unblock_plan(work, x, l, waiter)
        }
        Task::GrantWriter(l) => {
            let writer = x.best_waiter(l, Side::Writer)?;
            grant_writer_plan(work, x, l, writer)
        }
        Task::GrantReaders(l) => {
            let reader = x.best_waiter(l, Side::Reader)?;
            Ok(Some(grant_reader_plan(work, x, l, reader)?))
        }
        Task::Rouse(k) => {
            let sleeper = x.next_to_rouse(c, k)?;
            Ok(Some(rouse_plan(work, x, k, sleeper)?))
        }
        Task::Age(_) => Ok(None),
    }
}

/// 1. What processor `c` does by its duty.
#[tactic(auto, using(crate::proofs::Duties::duty_by_task))]
fn duty_plan<L: Look>(work: &Work, x: &L, c: CpuId) -> Result<Option<Plan>, L::Lack>
    ensures value { Tells (L.shows x.now) result (λ s. duty_plan work.now s c.0) }
    ensures lack { Lacks L.part (L.shows x.now) (L.has x.now) result (λ s. actor_part c ∷ task_parts s (task_of (cpu_of s c.0).duty) []) }
{
    let task = x.duty(c)?;
    task_plan(work, x, c, task)
}

/// 2. The nap on processor `c` that is over first.
#[tactic(auto, unfolding(sd_machine::specs::Plans::nap_plan))]
fn nap_plan<L: Look>(work: &Work, x: &L, c: CpuId) -> Result<Option<Plan>, L::Lack>
    ensures value { Tells (L.shows x.now) result (λ s. nap_plan work.now s c.0) }
    ensures lack { Lacks L.part (L.shows x.now) (L.has x.now) result (λ s. actor_part c ∷ cpu_part c ∷ []) }
{
    let over = x.first_due(c)?;
    napend_plan(work, x, over)
}

/// The ageing of the queue of processor `c` by a duty.
fn task_ageing<L: Look>(work: &Work, x: &L, c: CpuId, task: Task) -> Result<Option<Plan>, L::Lack>
    ensures value { Tells (L.shows x.now) result (λ s. task_ageing work.now s c task) }
    ensures lack { Lacks L.part (L.shows x.now) (L.has x.now) result (λ s. cpu_part c ∷ []) }
{
    match task {
        Task::Age(u) => {
            let next = x.next_to_age(c, u)?;
            age_plan(work, x, next)
        }
        _ => Ok(None),
    }
}

/// 3. The ageing of the queue of processor `c`.
#[tactic(auto, using(crate::proofs::Duties::ageing_by_task))]
fn ageing_plan<L: Look>(work: &Work, x: &L, c: CpuId) -> Result<Option<Plan>, L::Lack>
    ensures value { Tells (L.shows x.now) result (λ s. ageing_plan work.now s c.0) }
    ensures lack { Lacks L.part (L.shows x.now) (L.has x.now) result (λ s. actor_part c ∷ cpu_part c ∷ []) }
{
    let task = x.duty(c)?;
    task_ageing(work, x, c, task)
}

/// What the running thread `t` does at an operation that depends on other threads.
#[tactic(auto, unfolding(sd_machine::specs::Plans::op_plan))]
fn at_op<L: Look>(work: &Work, x: &L, t: ThreadId, op: Op) -> Result<Plan, L::Lack>
    requires { (u : ThreadIdOf) (r : Request) → op ≡ Prio u r → IsTrue (quantum_fits r.quantum) }
    ensures value { TellsIf (L.shows x.now) result (λ s. (k : ChanIdOf) → CanCount s k) (λ s. op_plan work.now s t.0 (Some op)) }
    ensures lack { Lacks L.part (L.shows x.now) (L.has x.now) result (λ s. op_parts s (Some op)) }
{
    match op {
        Op::Run(_) => Ok(Plan::Make(Event::Tick { t })),
        Op::Yield => Ok(Plan::Make(Event::Yield { t })),
        Op::Nap(_) => Ok(Plan::Make(Event::Nap { t })),
        Op::Sleep(k) => Ok(Plan::Make(Event::Sleep { t, k })),
        Op::Wake(k) => wake_plan(work, x, t, k, x.best_sleeper(k)?),
        Op::WakeAll(k) => Ok(Plan::Make(Event::Wakeall { t, k })),
        Op::Enter(l) => Ok(Plan::Make(enter_event(x, t, l, x.lock(l)?)?)),
        Op::Read(l) => Ok(Plan::Make(read_event(x, t, l, x.lock(l)?)?)),
        Op::Write(l) => Ok(Plan::Make(write_event(t, l, x.lock(l)?))),
        Op::Exit(l) => Ok(Plan::Make(Event::Exit { t, l })),
        Op::Prio(u, request) => prio_plan(work, x, t, u, answer_to(work, x, t, u, &request)?),
        Op::CvWait(k, l) => Ok(Plan::Make(Event::CvWait { t, k, l })),
        Op::SemaP(k) => Ok(Plan::Make(sema_p_event(x, t, k)?)),
        Op::SemaV(k) => sema_v_plan(work, x, t, k, x.best_sleeper(k)?),
        Op::Assign(cpu, set) => Ok(Plan::Make(Event::Assign {
            t,
            cpu,
            set,
            answer: assign_answer(work, x, t, cpu, set)?,
        })),
        Op::Pbind(u, cpu) => Ok(Plan::Make(Event::Bind {
            t,
            u,
            cpu,
            answer: bind_to(work, x, t, u, cpu)?,
        })),
    }
}

/// What the running thread `t` does by its operation, and done after the last.
#[tactic(auto, unfolding(sd_machine::specs::Plans::op_plan))]
fn op_plan<L: Look>(work: &Work, x: &L, t: ThreadId, op: Option<Op>) -> Result<Plan, L::Lack>
    requires { (u : ThreadIdOf) (r : Request) → op ≡ Some (Prio u r) → IsTrue (quantum_fits r.quantum) }
    ensures value { TellsIf (L.shows x.now) result (λ s. (k : ChanIdOf) → CanCount s k) (λ s. op_plan work.now s t.0 op) }
    ensures lack { Lacks L.part (L.shows x.now) (L.has x.now) result (λ s. op_parts s op) }
{
    match op {
        None => Ok(Plan::Make(Event::Done { t })),
        Some(op) => at_op(work, x, t, op),
    }
}

/// The operation at which thread `t` of a body stands, None after the last. A request names a quantum that is in its range.
#[inline(always)]
fn wanted_in(work: &Work, t: ThreadId, body: Option<&ThreadBody>) -> Option<Op>
    ensures value { result ≡ op_of work.now t.0 (unwrap_or (option_copied body.entry) no_body) }
    ensures quantum { (u : ThreadIdOf) (r : Request) → result ≡ Some (Prio u r) → IsTrue (quantum_fits r.quantum) }
{
    op_in(work, t, body)
}

/// What the running thread `t` does by its operation, where it need not leave its processor. It is looked up once.
pub fn runner_plan<L: Look>(work: &Work, x: &L, t: ThreadId) -> Result<Plan, L::Lack>
    ensures value { TellsIf (L.shows x.now) result (λ s. (k : ChanIdOf) → CanCount s k) (λ s. op_plan work.now s t.0 (op_of work.now t.0 (thread_of s t.0).body)) }
    ensures lack { Lacks L.part (L.shows x.now) (L.has x.now) result (λ s. thread_part t ∷ op_parts s (op_of work.now t.0 (thread_of s t.0).body)) }
{
    let body = x.body(t)?;
    op_plan(work, x, t, wanted_in(work, t, body))
}

/// What processor `c` does on which thread `t` runs, which is looked up once: the thread leaves where it has to, and else does its operation.
pub fn run_plan<L: Look>(work: &Work, x: &L, c: CpuId, t: ThreadId) -> Result<Plan, L::Lack>
    ensures value { TellsIf (L.shows x.now) result (λ s. (k : ChanIdOf) → CanCount s k) (λ s. run_plan work.now s c.0 t.0) }
    ensures lack { Lacks L.part (L.shows x.now) (L.has x.now) result (λ s. thread_part t ∷ cpu_part c ∷ op_parts s (op_of work.now t.0 (thread_of s t.0).body)) }
{
    let view = x.cpu(c)?;
    let body = x.body(t)?;
    match leave_in(&view, c, t, body) {
        None => op_plan(work, x, t, wanted_in(work, t, body)),
        Some(plan) => Ok(plan),
    }
}

/// What processor `c` does on which no thread runs, and which is closing to a set, or to none.
fn free_plan_of<L: Look>(x: &L, c: CpuId, closing: Option<SetId>) -> Result<Plan, L::Lack>
    ensures value { Tells (L.shows x.now) result (λ s. free_plan_of s c.0 closing) }
    ensures lack { Lacks L.part (L.shows x.now) (L.has x.now) result (λ s. ready_parts s c) }
{
    match closing {
        None => dispatch_plan(x, x.best_ready(c)?),
        Some(to) => closing_plan(x, to, x.best_queued(c)?),
    }
}

/// 4. to 6. What processor `c` does where nothing comes before its running thread, or its lack of one.
#[tactic(auto, unfolding(sd_machine::specs::Plans::cpu_plan))]
fn cpu_plan<L: Look>(work: &Work, x: &L, c: CpuId) -> Result<Plan, L::Lack>
    ensures value { TellsIf (L.shows x.now) result (λ s. (k : ChanIdOf) → CanCount s k) (λ s. cpu_plan work.now s c.0) }
    ensures lack { Lacks L.part (L.shows x.now) (L.has x.now) result (λ s. actor_part c ∷ cpu_parts work.now s c) }
{
    match x.runner(c)? {
        None => free_plan_of(x, c, x.cpu(c)?.closing),
        Some(t) => run_plan(work, x, c, t),
    }
}

/// 2. and 3. A nap that is over, and else the ageing.
fn later_plan<L: Look>(work: &Work, x: &L, c: CpuId) -> Result<Option<Plan>, L::Lack>
    ensures value { Tells (L.shows x.now) result (λ s. first_of (nap_plan work.now s c.0) (ageing_plan work.now s c.0)) }
    ensures lack { Lacks L.part (L.shows x.now) (L.has x.now) result (λ s. actor_part c ∷ cpu_part c ∷ []) }
{
    match nap_plan(work, x, c)? {
        Some(plan) => Ok(Some(plan)),
        None => ageing_plan(work, x, c),
    }
}

/// 1. to 3. The first of the duty, a nap that is over and the ageing that gives anything.
#[tactic(auto, using(crate::proofs::Duties::within_duty))]
fn first_plan<L: Look>(work: &Work, x: &L, c: CpuId) -> Result<Option<Plan>, L::Lack>
    ensures value { Tells (L.shows x.now) result (λ s. first_of (duty_plan work.now s c.0) (first_of (nap_plan work.now s c.0) (ageing_plan work.now s c.0))) }
    ensures lack { Lacks L.part (L.shows x.now) (L.has x.now) result (λ s. plan_parts work.now s c) }
{
    match duty_plan(work, x, c)? {
        Some(plan) => Ok(Some(plan)),
        None => later_plan(work, x, c),
    }
}

/// What processor `c` is about to do: the first of its duty, a nap that is over, the ageing of its queue, and what its
/// running thread does, or the processor where none runs. Each count of a semaphore may rise once more.
#[tactic(auto, unfolding(sd_machine::specs::Plans::plan))]
pub fn plan<L: Look>(work: &Work, x: &L, c: CpuId) -> Result<Plan, L::Lack>
    ensures value { TellsIf (L.shows x.now) result (λ s. (k : ChanIdOf) → CanCount s k) (λ s. plan work.now s c.0) }
    ensures lack { Lacks L.part (L.shows x.now) (L.has x.now) result (λ s. plan_parts work.now s c) }
{
    match first_plan(work, x, c)? {
        None => cpu_plan(work, x, c),
        Some(plan) => Ok(plan),
    }
}
