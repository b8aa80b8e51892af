//! What is said of the threads that have operations left where a run ends.

ghost use Rattle.std.specs.Prelude.{◌≡◌, ◌++◌, ℕ, OnOk, codes};
ghost use Rattle.sd_types.specs.declared.numbers.LockId.{LockId as Lock};
ghost use Rattle.sd_state.specs.Operations.{op_of, script_of};
ghost use Rattle.sd_state.specs.States.{thread_of};
ghost use Rattle.sd_state.specs.Texts.{chan_name, lock_name};
ghost use Rattle.sd_state.specs.declared.states.State.{State as StateOf};
ghost use Rattle.sd_machine.specs.Locking.{enter_event, read_event, write_event};
ghost use Rattle.sd_machine.specs.Threads.{lock_of, runs_somewhere};
ghost use Rattle.sd_search.specs.Questions.{is_left};
ghost use Rattle.sd_search_answers.specs.Lefts.{is_spin, left_line, lefts_text, line_if_left, lock_if, place_words, running_words, spun_for};

use sd_entries::{put_chan_name, put_lock_name, put_thread_name};
use sd_flat::place_of;
use sd_state::{LockState, Place, State, ThreadState};
use sd_types::{ChanId, LockId, Op, ThreadBody, ThreadId, Work};
use std::alloc::AllocError;

fn script_of(work: &Work, t: usize) -> &[Op]
    ensures { result.now ≡ script_of work.now t }
{
    match work.threads.items().get(t) {
        Some(decl) => decl.script.ops(),
        None => &[],
    }
}

fn op_of(work: &Work, t: usize, body: &ThreadBody) -> Option<Op>
    ensures { result ≡ op_of work.now t body.now }
{
    script_of(work, t).get(body.op as usize).copied()
}

fn lock_of(state: &State, l: LockId) -> LockState
    ensures { result ≡ lock_of state.now l.0 }
{
    match state.locks.items().get(l.0 as usize) {
        Some(lock) => *lock,
        None => LockState::Free,
    }
}

fn runs(state: &State, t: ThreadId) -> bool
    ensures { result ≡ runs_somewhere (thread_of state.now t.0).place }
{
    matches!(place_of(state, t), Place::Running(_))
}

/// Who comes for a mutex that is so spins.
fn enter_spins(state: &State, lock: LockState) -> bool
    ensures { (t : ℕ) (l : Lock) → result ≡ is_spin (enter_event state.now t l lock) }
{
    match lock {
        LockState::Free => false,
        LockState::Owned(owner) => runs(state, owner),
        LockState::ReadHeld(_) => false,
        LockState::Passing { .. } => true,
    }
}

/// Who comes for a readers-writer lock that is so spins.
fn rwlock_spins(lock: LockState) -> bool
    ensures read { (s : StateOf) (t : ℕ) (l : Lock) → result ≡ is_spin (read_event s t l lock) }
    ensures write { (t : ℕ) (l : Lock) → result ≡ is_spin (write_event t l lock) }
{
    matches!(lock, LockState::Passing { .. })
}

fn lock_if(spins: bool, l: LockId) -> Option<LockId>
    ensures { result ≡ lock_if spins l }
{
    if spins { Some(l) } else { None }
}

/// The lock for which a thread spins that runs and stands at this operation.
fn spun_for(state: &State, op: Option<Op>) -> Option<LockId>
    ensures { (t : ℕ) → result ≡ spun_for state.now t op }
{
    match op {
        Some(Op::Enter(l)) => lock_if(enter_spins(state, lock_of(state, l)), l),
        Some(Op::Read(l)) => lock_if(rwlock_spins(lock_of(state, l)), l),
        Some(Op::Write(l)) => lock_if(rwlock_spins(lock_of(state, l)), l),
        _ => None,
    }
}

fn put_with_lock(work: &Work, words: &[u8], l: LockId, out: &mut Vec<u8>) -> Result<(), AllocError>
    ensures { OnOk result (out.new.items ≡ out.old.items ++ (words.now ++ lock_name work.now l.0)) }
{
    out.extend_from_slice(words)?;
    put_lock_name(work, l, out)
}

fn put_asleep(work: &Work, k: ChanId, out: &mut Vec<u8>) -> Result<(), AllocError>
    ensures { OnOk result (out.new.items ≡ out.old.items ++ (codes " sleeps on " ++ chan_name work.now k.0)) }
{
    out.extend_from_slice(b" sleeps on ")?;
    put_chan_name(work, k, out)
}

fn put_running(work: &Work, spun: Option<LockId>, out: &mut Vec<u8>) -> Result<(), AllocError>
    ensures { OnOk result (out.new.items ≡ out.old.items ++ running_words work.now spun) }
{
    match spun {
        None => out.extend_from_slice(b" runs"),
        Some(l) => put_with_lock(work, b" spins for ", l, out),
    }
}

/// What a thread does that runs.
fn put_runner(
    work: &Work,
    state: &State,
    t: usize,
    thread: &ThreadState,
    out: &mut Vec<u8>,
) -> Result<(), AllocError>
    ensures { OnOk result (out.new.items ≡ out.old.items ++ running_words work.now (spun_for state.now t (op_of work.now t thread.now.body))) }
{
    let op = op_of(work, t, &thread.body);
    put_running(work, spun_for(state, op), out)
}

/// What a thread does.
fn put_place(
    work: &Work,
    state: &State,
    t: usize,
    thread: &ThreadState,
    out: &mut Vec<u8>,
) -> Result<(), AllocError>
    requires { thread.now ≡ thread_of state.now t }
    ensures { OnOk result (out.new.items ≡ out.old.items ++ place_words work.now state.now t thread.now.place) }
{
    match thread.place {
        Place::Running(_) => put_runner(work, state, t, thread, out),
        Place::Queued(_, _) => out.extend_from_slice(b" is runnable"),
        Place::RealTime(_, _) => out.extend_from_slice(b" is runnable"),
        Place::Waiting(l, _, _) => put_with_lock(work, b" waits for ", l, out),
        Place::Asleep(k, _) => put_asleep(work, k, out),
        Place::Napping(_, _) => out.extend_from_slice(b" naps"),
        Place::Ended => out.extend_from_slice(b" has ended"),
    }
}

/// The line of a thread.
#[tactic(auto, unfolding(crate::specs::Lefts::left_line))]
fn put_line(
    work: &Work,
    state: &State,
    t: usize,
    thread: &ThreadState,
    out: &mut Vec<u8>,
) -> Result<(), AllocError>
    requires { thread.now ≡ thread_of state.now t }
    ensures { OnOk result (out.new.items ≡ out.old.items ++ left_line work.now state.now t) }
{
    out.extend_from_slice(b"thread ")?;
    put_thread_name(work, t, out)?;
    put_place(work, state, t, thread, out)?;
    out.extend_from_slice(b"\n")
}

/// A thread has operations left and has not ended.
fn is_left(work: &Work, t: usize, thread: &ThreadState) -> bool
    ensures { result ≡ is_left work.now t thread.now }
{
    (thread.body.op as usize) < script_of(work, t).len() && !matches!(thread.place, Place::Ended)
}

/// The line of a thread that has operations left and has not ended.
#[tactic(auto, unfolding(crate::specs::Lefts::line_if_left))]
fn put_line_if_left(
    work: &Work,
    state: &State,
    t: usize,
    thread: &ThreadState,
    out: &mut Vec<u8>,
) -> Result<(), AllocError>
    requires { thread.now ≡ thread_of state.now t }
    ensures { OnOk result (out.new.items ≡ out.old.items ++ line_if_left work.now state.now t) }
{
    if is_left(work, t, thread) {
        put_line(work, state, t, thread, out)
    } else {
        Ok(())
    }
}

/// Appends a line for each thread that has operations left and has not ended: what it does.
#[tactic(auto, unfolding(crate::specs::Lefts::lefts_text))]
pub(crate) fn write_lefts(work: &Work, state: &State, out: &mut Vec<u8>) -> Result<(), AllocError>
    ensures { OnOk result (out.new.items ≡ out.old.items ++ lefts_text work.now state.now) }
{
    let threads = state.threads.items();
    for t in 0..threads.len() {
        put_line_if_left(work, state, t, &threads[t], out)?;
    }
    Ok(())
}
