//! The lines of scripts: judged, and turned into operations.

ghost use Rattle.std.specs.Prelude.{◌≡◌, true, false, None, Some, IfOk, OnOk, IfErr, option_map};
ghost use Rattle.sd_types.specs.Works.{span_fits, short_fits};
ghost use Rattle.sd_lines.specs.Said.{word_of, operation_said};
ghost use Rattle.sd_types.specs.Partitions.{cpu_of_number};
ghost use Rattle.sd_declare.specs.Causes.{least};
ghost use Rattle.sd_declare.specs.Declarations.{chan_id, lock_id, thread_id, set_id};
ghost use Rattle.sd_declare.specs.Operations.{is_request, is_cpu, request_of, span_causes, unless, is_chan_and_mutex, prio_causes, assign_causes, pbind_causes, operation_causes, op_of};
ghost use Rattle.sd_declare.specs.Kept.{declarations};

use crate::classes::{is_quantum, quantum_of};
use crate::lookups::{
    chan_of, cpu_count, lock_of, mutex_of, rwlock_of, sema_of, set_of, thread_of,
};
use crate::{Declared, WorkCause};
use sd_lines::{Operation, RequestLine};
use sd_types::{Class, CpuId, GREATEST_SPAN, Name, Op, Quantum, Request};

// Ticks of a run or a nap: 1 to 100,000.
fn span(n: u64) -> Result<u32, WorkCause>
    ensures ok { OnOk result (least (span_causes n) ≡ None) }
    ensures err { IfErr result (λ cause. least (span_causes n) ≡ Some cause) }
    ensures value { IfOk result (λ ticks. ticks ≡ n) }
{
    if 1 <= n && n <= u64::from(GREATEST_SPAN) {
        Ok(n as u32)
    } else {
        Err(WorkCause::Range)
    }
}

// Whether a request can carry the number: -32768 to 32767.
fn is_short(z: i64) -> bool
    ensures { result ≡ short_fits z }
{
    -32_768 <= z && z <= 32_767
}

fn is_request(r: RequestLine) -> bool
    ensures { result ≡ is_request r }
{
    match r {
        RequestLine::Ts { limit, pri } => is_short(limit) && is_short(pri),
        RequestLine::Fx {
            limit,
            pri,
            quantum,
        } => is_short(limit) && is_short(pri) && is_quantum(quantum),
        RequestLine::Sys { pri } => is_short(pri),
        RequestLine::Rt { pri, quantum } => is_short(pri) && is_quantum(quantum),
    }
}

// A request whose numbers are in their ranges. The fields that a class does not use are 0 and `Def`.
fn request_of(r: RequestLine) -> Request
    requires { is_request r ≡ true }
    ensures { result ≡ request_of r }
{
    match r {
        RequestLine::Ts { limit, pri } => Request {
            class: Class::Ts,
            limit: limit as i32,
            pri: pri as i32,
            quantum: Quantum::Def,
        },
        RequestLine::Fx {
            limit,
            pri,
            quantum,
        } => Request {
            class: Class::Fx,
            limit: limit as i32,
            pri: pri as i32,
            quantum: quantum_of(quantum),
        },
        RequestLine::Sys { pri } => Request {
            class: Class::Sys,
            limit: 0,
            pri: pri as i32,
            quantum: Quantum::Def,
        },
        RequestLine::Rt { pri, quantum } => Request {
            class: Class::Rt,
            limit: 0,
            pri: pri as i32,
            quantum: quantum_of(quantum),
        },
    }
}

// `priocntl THREAD CLASS ..`.
fn prio_op(d: &Declared, thread: &Name, r: RequestLine) -> Result<Op, WorkCause>
    ensures ok { OnOk result (least (prio_causes (declarations d.now) (word_of thread.now) r) ≡ None) }
    ensures err { IfErr result (λ cause. least (prio_causes (declarations d.now) (word_of thread.now) r) ≡ Some cause) }
    ensures value { IfOk result (λ op. op ≡ Op.Prio (thread_id (declarations d.now) (word_of thread.now)) (request_of r)) }
{
    let thread = thread_of(d, thread)?;
    if is_request(r) {
        Ok(Op::Prio(thread, request_of(r)))
    } else {
        Err(WorkCause::Range)
    }
}

// `cvwait CHAN MUTEX`: the wait.
fn wait_op(d: &Declared, chan: &Name, mutex: &Name) -> Result<Op, WorkCause>
    ensures ok { OnOk result (least (unless (is_chan_and_mutex (declarations d.now) (word_of chan.now) (word_of mutex.now))) ≡ None) }
    ensures err { IfErr result (λ cause. least (unless (is_chan_and_mutex (declarations d.now) (word_of chan.now) (word_of mutex.now))) ≡ Some cause) }
    ensures value { IfOk result (λ op. op ≡ Op.CvWait (chan_id (declarations d.now) (word_of chan.now)) (lock_id (declarations d.now) (word_of mutex.now))) }
{
    let chan = chan_of(d, chan)?;
    let mutex = mutex_of(d, mutex)?;
    Ok(Op::CvWait(chan, mutex))
}

// The processor of this number.
fn cpu_of(d: &Declared, cpu: u64) -> Result<CpuId, WorkCause>
    ensures ok { IfOk result (λ c. (is_cpu (declarations d.now) cpu ≡ true) × (c ≡ cpu_of_number cpu)) }
    ensures err { IfErr result (λ cause. (is_cpu (declarations d.now) cpu ≡ false) × (cause ≡ WorkCause.Range)) }
{
    if cpu < u64::from(cpu_count(d)) {
        Ok(CpuId(cpu as u16))
    } else {
        Err(WorkCause::Range)
    }
}

// `assign CPU SET`.
fn assign_op(d: &Declared, cpu: u64, set: &Option<Name>) -> Result<Op, WorkCause>
    ensures ok { OnOk result (least (assign_causes (declarations d.now) cpu (option_map word_of set.now)) ≡ None) }
    ensures err { IfErr result (λ cause. least (assign_causes (declarations d.now) cpu (option_map word_of set.now)) ≡ Some cause) }
    ensures value { IfOk result (λ op. op ≡ Op.Assign (cpu_of_number cpu) (set_id (declarations d.now) (option_map word_of set.now))) }
{
    let set = set_of(d, set)?;
    let cpu = cpu_of(d, cpu)?;
    Ok(Op::Assign(cpu, set))
}

// `pbind THREAD CPU`.
fn pbind_op(d: &Declared, thread: &Name, cpu: Option<u64>) -> Result<Op, WorkCause>
    ensures ok { OnOk result (least (pbind_causes (declarations d.now) (word_of thread.now) cpu) ≡ None) }
    ensures err { IfErr result (λ cause. least (pbind_causes (declarations d.now) (word_of thread.now) cpu) ≡ Some cause) }
    ensures value { IfOk result (λ op. op ≡ Op.Pbind (thread_id (declarations d.now) (word_of thread.now)) (option_map cpu_of_number cpu)) }
{
    let thread = thread_of(d, thread)?;
    match cpu {
        Some(cpu) => Ok(Op::Pbind(thread, Some(cpu_of(d, cpu)?))),
        None => Ok(Op::Pbind(thread, None)),
    }
}

/// The operation that a line of a script gives, or the first of the two of `cvwait`.
pub fn op_of(d: &Declared, operation: &Operation) -> Result<Op, WorkCause>
    ensures ok { OnOk result (least (operation_causes (declarations d.now) (operation_said operation.now)) ≡ None) }
    ensures err { IfErr result (λ cause. least (operation_causes (declarations d.now) (operation_said operation.now)) ≡ Some cause) }
    ensures value { IfOk result (λ op. op ≡ op_of (declarations d.now) (operation_said operation.now)) }
{
    match operation {
        Operation::Run(n) => Ok(Op::Run(span(*n)?)),
        Operation::Yield => Ok(Op::Yield),
        Operation::Nap(n) => Ok(Op::Nap(span(*n)?)),
        Operation::Sleep(chan) => Ok(Op::Sleep(chan_of(d, chan)?)),
        Operation::Wake(chan) => Ok(Op::Wake(chan_of(d, chan)?)),
        Operation::WakeAll(chan) => Ok(Op::WakeAll(chan_of(d, chan)?)),
        Operation::Enter(lock) => Ok(Op::Enter(mutex_of(d, lock)?)),
        Operation::Read(lock) => Ok(Op::Read(rwlock_of(d, lock)?)),
        Operation::Write(lock) => Ok(Op::Write(rwlock_of(d, lock)?)),
        Operation::Exit(lock) => Ok(Op::Exit(lock_of(d, lock)?)),
        Operation::Prio(thread, r) => prio_op(d, thread, *r),
        Operation::CvWait(chan, mutex) => wait_op(d, chan, mutex),
        Operation::SemaP(sema) => Ok(Op::SemaP(sema_of(d, sema)?)),
        Operation::SemaV(sema) => Ok(Op::SemaV(sema_of(d, sema)?)),
        Operation::Assign(cpu, set) => assign_op(d, *cpu, set),
        Operation::Pbind(thread, cpu) => pbind_op(d, thread, *cpu),
    }
}
