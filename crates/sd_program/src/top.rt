//! The top call: from the arguments and the streams of the program to its exit status.

ghost use Rattle.std.specs.Prelude.{◌≡◌, ◌≢◌, ℕ, List, Some, map, string_bytes};
ghost use Rattle.sd_answers.specs.Answers.{status_of, answer_of};
ghost use Rattle.sd_answers.specs.Handing.{IsHandedOn, LeavesHeldBy};
ghost use Rattle.sd_program.specs.declared.forms.Command.TheVariants.{Run};
ghost use Rattle.sd_program.specs.declared.forms.Form.TheVariants.{Journal};
ghost use Rattle.sd_program.specs.declared.forms.Mode.TheVariants.{Threads};
ghost use Rattle.sd_program.specs.Forms.{command_of, mode_of};
ghost use Rattle.sd_program.specs.Headline.{CausedByInput, CausedByNumber, CausedByTables, Caused, Tells, KeepsPromises};
ghost use Rattle.sd_program.specs.Starts.{DispsimStarts};
ghost use Rattle.sd_answers.specs.StreamChanges.{change_of};

use crate::audits::audit_input;
use crate::forms::{Command, Form, ask_for_threads, command_of};
use crate::running::{run_work, run_work_on_threads};
use crate::tables::{print_generated, print_tables};
use sd_answers::{Answer, read_input};
use sd_cpu::Gate;
use sd_text::{Sink, Source};
use std::alloc::Global;
use std::io;
use std::marker::Sync;
use std::sync::Wait;
use std::thread::Threads;

/// Reads the workload, runs it in rounds and writes what the form prints of the run.
fn run_input<S: Source, K: Sink, G: Gate>(
    alloc: Global,
    form: Form,
    input: &mut S,
    out: &mut K,
    gate: &G,
) -> Result<(), Answer>
    requires rounds { mode_of form ≢ Threads }
    ensures caused { CausedByInput form
        (change_of (S.remaining input.old) (S.remaining input.new) (S.fault_count input.old) (S.fault_count input.new))
        (change_of (K.contents out.old) (K.contents out.new) (K.fault_count out.old) (K.fault_count out.new))
        (answer_of result) }
    ensures leaves { LeavesHeldBy (answer_of result) (K.held_back out.old) (K.held_back out.new) }
{
    let work = read_input(alloc, input)?;
    run_work(alloc, &work, form, out, gate)
}

/// Reads the workload, runs it on threads of the host and writes the journal of the run.
fn run_input_on_threads<R: Threads + Wait + Sync, S: Source, K: Sink, G: Gate + Sync>(
    rt: &R,
    alloc: Global,
    input: &mut S,
    out: &mut K,
    gate: &G,
) -> Result<(), Answer>
    ensures caused { CausedByInput (Journal Threads)
        (change_of (S.remaining input.old) (S.remaining input.new) (S.fault_count input.old) (S.fault_count input.new))
        (change_of (K.contents out.old) (K.contents out.new) (K.fault_count out.old) (K.fault_count out.new))
        (answer_of result) }
    ensures leaves { LeavesHeldBy (answer_of result) (K.held_back out.old) (K.held_back out.new) }
{
    let work = read_input(alloc, input)?;
    run_work_on_threads(rt, alloc, &work, out, gate)
}

/// Reads the workload, and writes its dispatch tables.
fn tabulate<S: Source, K: Sink>(alloc: Global, input: &mut S, out: &mut K) -> Result<(), Answer>
    ensures caused { CausedByTables
        (change_of (S.remaining input.old) (S.remaining input.new) (S.fault_count input.old) (S.fault_count input.new))
        (change_of (K.contents out.old) (K.contents out.new) (K.fault_count out.old) (K.fault_count out.new))
        (answer_of result) }
    ensures leaves { LeavesHeldBy (answer_of result) (K.held_back out.old) (K.held_back out.new) }
{
    let work = read_input(alloc, input)?;
    print_tables(alloc, &work, out)?;
    Ok(())
}

/// Writes the generated workload of a number.
fn generate<K: Sink>(alloc: Global, number: u32, out: &mut K) -> Result<(), Answer>
    ensures caused { CausedByNumber number
        (change_of (K.contents out.old) (K.contents out.new) (K.fault_count out.old) (K.fault_count out.new))
        (answer_of result) }
    ensures leaves { LeavesHeldBy (answer_of result) (K.held_back out.old) (K.held_back out.new) }
{
    print_generated(alloc, number, out)?;
    Ok(())
}

/// Does what the arguments ask for, on one thread of the host.
fn carry_out<S: Source, K: Sink, G: Gate>(
    alloc: Global,
    arguments: &[String],
    input: &mut S,
    out: &mut K,
    gate: &G,
) -> Answer
    requires alone { command_of (map string_bytes arguments.now) ≢ Some (Run (Journal Threads)) }
    ensures caused { Caused (map string_bytes arguments.now)
        (change_of (S.remaining input.old) (S.remaining input.new) (S.fault_count input.old) (S.fault_count input.new))
        (change_of (K.contents out.old) (K.contents out.new) (K.fault_count out.old) (K.fault_count out.new))
        result }
    ensures leaves { LeavesHeldBy result (K.held_back out.old) (K.held_back out.new) }
{
    match command_of(arguments) {
        Some(Command::Run(form)) => Answer::of(run_input(alloc, form, input, out, gate)),
        Some(Command::Tables) => Answer::of(tabulate(alloc, input, out)),
        Some(Command::Generate { number }) => Answer::of(generate(alloc, number, out)),
        Some(Command::Audit) => Answer::of(audit_input(alloc, input, out)),
        None => Answer::Usage,
    }
}

/// Writes the line of the answer, and returns its exit status. A fault of `err` changes no status.
fn tell<E: Sink>(answer: Answer, err: &mut E) -> u8
    ensures told { Tells (change_of (E.contents err.old) (E.contents err.new) (E.fault_count err.old) (E.fault_count err.new)) answer }
    ensures status { result ≡ status_of answer }
{
    let _ = answer.put_line(err);
    answer.status()
}

/// The program, on one thread of the host: does what the arguments ask for, which is not `run --threads`, and returns the exit
/// status.
///
/// With status 0 what `out` received is the journal, or the summary, of the run of the workload that `input` spells: a
/// complete legal run in rounds, in each state of which each thread stands in one place and at most one runs on a
/// processor, with the accounts of its entries, and no threads block each other at its end. With status 6 it is the same
/// of a run at whose end some do. Where the arguments ask for tables or a generated workload, `out` received these. Where
/// they ask for an audit, status 0 says that the input is a workload and the journal of a complete run of it, and status 7
/// that the text behind the workload is no such journal. The other statuses are 1 (the arguments are of none of the forms),
/// 2 (the input is too large, no accepted workload, or has no journal), 3 (a read failed), 4 (a write failed), 5 (out of
/// memory, and no fault of `input` or `out` was counted) and 8 (the run has 2^40 entries or more); each but 0 leaves one
/// line on `err`. With status 0 or 6 `out` has handed on all that it holds. A processor passes the gate once in each of its turns.
pub fn serial<S: Source, K: Sink, E: Sink, G: Gate>(
    alloc: Global,
    arguments: &[String],
    input: &mut S,
    out: &mut K,
    err: &mut E,
    gate: &G,
) -> u8
    requires alone { command_of (map string_bytes arguments.now) ≢ Some (Run (Journal Threads)) }
    ensures promises { KeepsPromises (map string_bytes arguments.now)
        (change_of (S.remaining input.old) (S.remaining input.new) (S.fault_count input.old) (S.fault_count input.new))
        (change_of (K.contents out.old) (K.contents out.new) (K.fault_count out.old) (K.fault_count out.new))
        (change_of (E.contents err.old) (E.contents err.new) (E.fault_count err.old) (E.fault_count err.new))
        result }
    ensures handed_on { IsHandedOn result (K.held_back out.old) (K.held_back out.new) }
{
    tell(carry_out(alloc, arguments, input, out, gate), err)
}

/// Does what `run --threads` asks for.
fn dispsim_on_threads<R: Threads + Wait + Sync, S: Source, K: Sink, E: Sink, G: Gate + Sync>(
    rt: &R,
    alloc: Global,
    input: &mut S,
    out: &mut K,
    err: &mut E,
    gate: &G,
) -> u8
    ensures promises { (arguments : List (List ℕ)) → command_of arguments ≡ Some (Run (Journal Threads)) → KeepsPromises arguments
        (change_of (S.remaining input.old) (S.remaining input.new) (S.fault_count input.old) (S.fault_count input.new))
        (change_of (K.contents out.old) (K.contents out.new) (K.fault_count out.old) (K.fault_count out.new))
        (change_of (E.contents err.old) (E.contents err.new) (E.fault_count err.old) (E.fault_count err.new))
        result }
    ensures handed_on { IsHandedOn result (K.held_back out.old) (K.held_back out.new) }
{
    let answer = Answer::of(run_input_on_threads(rt, alloc, input, out, gate));
    tell(answer, err)
}

/// The program: as `serial`; and with the arguments `run --threads` the processors act side by side, as far as `rt` starts threads
/// of the host. What is printed is then the journal of a complete legal run in one of the orders in which they can act, and may be
/// another one each time. In rounds and on threads alike a processor passes the gate once in each of its turns, with the home that the
/// turn looks at first.
pub fn dispsim<R: Threads + Wait + Sync, S: Source, K: Sink, E: Sink, G: Gate + Sync>(
    rt: &R,
    alloc: Global,
    arguments: &[String],
    input: &mut S,
    out: &mut K,
    err: &mut E,
    gate: &G,
) -> u8
    ensures promises { KeepsPromises (map string_bytes arguments.now)
        (change_of (S.remaining input.old) (S.remaining input.new) (S.fault_count input.old) (S.fault_count input.new))
        (change_of (K.contents out.old) (K.contents out.new) (K.fault_count out.old) (K.fault_count out.new))
        (change_of (E.contents err.old) (E.contents err.new) (E.fault_count err.old) (E.fault_count err.new))
        result }
    ensures handed_on { IsHandedOn result (K.held_back out.old) (K.held_back out.new) }
{
    if ask_for_threads(arguments) {
        dispsim_on_threads(rt, alloc, input, out, err, gate)
    } else {
        serial(alloc, arguments, input, out, err, gate)
    }
}

/// The program from its start: `dispsim` with the arguments that were read. Where one is no text they are none that
/// the program knows, and where memory ran out the answer is out of memory; then nothing is read or run.
pub fn start<R: Threads + Wait + Sync, S: Source, K: Sink, E: Sink, G: Gate + Sync>(
    rt: &R,
    alloc: Global,
    arguments: io::Result<Vec<String>>,
    input: &mut S,
    out: &mut K,
    err: &mut E,
    gate: &G,
) -> u8
    ensures promises { DispsimStarts arguments
        (change_of (S.remaining input.old) (S.remaining input.new) (S.fault_count input.old) (S.fault_count input.new))
        (change_of (K.contents out.old) (K.contents out.new) (K.fault_count out.old) (K.fault_count out.new))
        (change_of (E.contents err.old) (E.contents err.new) (E.fault_count err.old) (E.fault_count err.new))
        result }
    ensures handed_on { IsHandedOn result (K.held_back out.old) (K.held_back out.new) }
{
    match arguments {
        Ok(arguments) => dispsim(rt, alloc, &arguments, input, out, err, gate),
        Err(error) => tell(Answer::of_unread_arguments(&error), err),
    }
}
