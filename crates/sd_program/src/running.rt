//! The run of an accepted workload, made and written.

ghost use Rattle.std.specs.Prelude.{◌≡◌, ◌≢◌, ◌<◌, ◌≤◌, ◌↔◌, [], length, map, IfOk, IsTrue, IsErrOf};
ghost use Rattle.sd_machine.specs.LockGraph.{cycles_of};
ghost use Rattle.sd_machine.specs.Runs.{final};
ghost use Rattle.sd_state.specs.Opening.{opening};
ghost use Rattle.sd_answers.specs.Answers.{answer_of};
ghost use Rattle.sd_answers.specs.Handing.{LeavesHeldBy};
ghost use Rattle.sd_program.specs.declared.forms.Form.TheVariants.{Journal};
ghost use Rattle.sd_program.specs.declared.forms.Mode.TheVariants.{Threads};
ghost use Rattle.sd_program.specs.Forms.{mode_of};
ghost use Rattle.sd_program.specs.RunAnswers.{IsLong, Ran};
ghost use Rattle.sd_program.specs.TheRun.{IsTheRun};
ghost use Rattle.sd_answers.specs.StreamChanges.{change_of};
ghost use Rattle.sd_types.specs.Limits.{most_entries};

use crate::forms::{Form, Mode};
use crate::numbers_are_bytes;
use crate::writing::print_run;
use sd_accounts::cycles;
use sd_answers::Answer;
use sd_cpu::Gate;
use sd_rounds::{Finished, run_rounds};
use sd_state::State;
use sd_text::Sink;
use sd_threads::run_on_threads;
use sd_types::{Stop, Work};
use std::alloc::Global;
use std::marker::Sync;
use std::sync::Wait;
use std::thread::Threads;

/// Runs the workload in rounds.
fn run_in_rounds<G: Gate>(
    alloc: Global,
    work: &Work,
    mode: Mode,
    gate: &G,
) -> Result<Finished, Stop>
    requires { mode ≢ Threads }
    ensures run { IfOk result (λ r. IsTheRun work.now mode r.entries.items) }
    ensures state { IfOk result (λ r. r.state ≡ final work.now (opening work.now) r.entries.items) }
    ensures short { IfOk result (λ r. length r.entries.items < most_entries) }
    ensures full { IsErrOf result Stop.Full → IsLong work.now mode }
{
    match mode {
        Mode::Rounds(orders) => run_rounds(alloc, work, orders, gate),
        Mode::Threads => unreachable!(),
    }
}

/// Runs the workload with its processors on threads of the host.
fn run_side_by_side<R: Threads + Wait + Sync, G: Gate + Sync>(
    rt: &R,
    alloc: Global,
    work: &Work,
    gate: &G,
) -> Result<Finished, Stop>
    ensures run { IfOk result (λ r. IsTheRun work.now Threads r.entries.items) }
    ensures state { IfOk result (λ r. r.state ≡ final work.now (opening work.now) r.entries.items) }
    ensures short { IfOk result (λ r. length r.entries.items < most_entries) }
    ensures full { IsErrOf result Stop.Full → IsLong work.now Threads }
{
    match run_on_threads(rt, alloc, work, gate) {
        Ok(run) => {
            numbers_are_bytes(&run.entries);
            Ok(run)
        }
        Err(stop) => Err(stop),
    }
}

/// Whether threads block each other in the state, of which these are the blocking cycles.
fn is_blocked(s: &State, found: &[Vec<usize>]) -> bool
    requires { map (λ v. v.items) found.now ≡ cycles_of s.now }
    ensures { IsTrue result ↔ (cycles_of s.now ≢ []) }
{
    found.len() > 0
}

/// Writes what the form prints of this run, which is complete.
fn put_finished<K: Sink>(
    alloc: Global,
    work: &Work,
    form: Form,
    run: &Finished,
    out: &mut K,
) -> Result<(), Answer>
    requires run { IsTheRun work.now (mode_of form) run.now.entries.items }
    requires state { run.now.state ≡ final work.now (opening work.now) run.now.entries.items }
    requires short { length run.now.entries.items < most_entries }
    ensures ran { Ran work.now form
        (change_of (K.contents out.old) (K.contents out.new) (K.fault_count out.old) (K.fault_count out.new))
        (answer_of result) }
    ensures never_falls { K.fault_count out.old ≤ K.fault_count out.new }
    ensures leaves { LeavesHeldBy (answer_of result) (K.held_back out.old) (K.held_back out.new) }
{
    let found = cycles(alloc, &run.state)?;
    print_run(alloc, work, form, &run.entries, &run.state, &found, out)?;
    let blocked = is_blocked(&run.state, &found);
    if blocked {
        return Err(Answer::Blocked);
    }
    Ok(())
}

/// Runs the workload in rounds and writes what the form prints of the run. Writing begins when the run is complete.
pub(crate) fn run_work<K: Sink, G: Gate>(
    alloc: Global,
    work: &Work,
    form: Form,
    out: &mut K,
    gate: &G,
) -> Result<(), Answer>
    requires rounds { mode_of form ≢ Threads }
    ensures ran { Ran work.now form
        (change_of (K.contents out.old) (K.contents out.new) (K.fault_count out.old) (K.fault_count out.new))
        (answer_of result) }
    ensures never_falls { K.fault_count out.old ≤ K.fault_count out.new }
    ensures leaves { LeavesHeldBy (answer_of result) (K.held_back out.old) (K.held_back out.new) }
{
    let run = run_in_rounds(alloc, work, form.mode(), gate)?;
    put_finished(alloc, work, form, &run, out)
}

/// Runs the workload with its processors on threads of the host, and writes the journal of the run.
pub(crate) fn run_work_on_threads<R: Threads + Wait + Sync, K: Sink, G: Gate + Sync>(
    rt: &R,
    alloc: Global,
    work: &Work,
    out: &mut K,
    gate: &G,
) -> Result<(), Answer>
    ensures ran { Ran work.now (Journal Threads)
        (change_of (K.contents out.old) (K.contents out.new) (K.fault_count out.old) (K.fault_count out.new))
        (answer_of result) }
    ensures never_falls { K.fault_count out.old ≤ K.fault_count out.new }
    ensures leaves { LeavesHeldBy (answer_of result) (K.held_back out.old) (K.held_back out.new) }
{
    let run = run_side_by_side(rt, alloc, work, gate)?;
    put_finished(alloc, work, Form::Journal(Mode::Threads), &run, out)
}
