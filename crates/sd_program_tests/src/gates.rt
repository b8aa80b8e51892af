//! The homes of a run on one processor, as a gate reads them turn by turn: in rounds, by `serial`, and
//! on threads of the host, by `dispsim`. Two threads yield and run on the same queue.

ghost use Rattle.std.specs.Prelude.{◌≡◌, [], ◌∷◌, IfOk, map, string_bytes};

use crate::judging::is_so;
use crate::runs::YIELD;
use crate::streams::{Streams, call_gated, plain, streams_of};
use sd_cpu::Gate;
use sd_homes::{Home, ListId};
use sd_program::serial;
use sd_types::{CpuId, HomeId};
use std::alloc::{AllocError, Global};
use std::marker::Sync;
use std::sync::Wait;
use std::sync::atomic::{AtomicU64, Ordering};
use std::thread::Threads;

/// The first thread on the queue of the one processor as it passes with its home, turn by turn: 1 more
/// than its number, or 0. Each of the eight entries has a turn, and the last turn makes none.
const FIRST_QUEUED: [u64; 9] = [1, 2, 2, 1, 1, 1, 0, 0, 0];

/// A gate that reads the home that is lent: how often it was passed, and how often processor 0 passed
/// it in the turn of that number with what was to be on its queue.
#[derive(Drop)]
struct Reader {
    passes: AtomicU64,
    right: AtomicU64,
}

fn unpassed() -> Reader {
    Reader {
        passes: AtomicU64::new(0),
        right: AtomicU64::new(0),
    }
}

/// The first thread on the queue of processor 0, as its home has it: 1 more than its number, or 0. 9 of
/// another home.
fn first_queued(home: &Home) -> u64 {
    let cpu = CpuId(0);
    if home.id() != HomeId::Cpu(cpu) {
        return 9;
    }
    match home.first(ListId::Queues(cpu)) {
        None => 0,
        Some(record) => u64::from(record.kept.id.0) + 1,
    }
}

impl Gate for Reader {
    fn pass(&self, cpu: CpuId, turn: u64, home: &Home) {
        let passes = self.passes.fetch_add(1, Ordering::SeqCst);
        let first = FIRST_QUEUED.get(turn as usize).copied();
        if cpu.0 == 0 && turn == passes && first == Some(first_queued(home)) {
            self.right.fetch_add(1, Ordering::SeqCst);
        }
    }
}

fn one_argument(alloc: Global, word: &str) -> Result<Vec<String>, AllocError>
    ensures { IfOk result (λ v. map string_bytes v.items ≡ word.now ∷ []) }
{
    let mut arguments = Vec::new(alloc);
    arguments.push(String::from_str(alloc, word)?)?;
    Ok(arguments)
}

/// The status of a run in rounds, with this gate.
fn run_in_rounds(alloc: Global, gate: &Reader) -> Result<u8, AllocError> {
    let arguments = one_argument(alloc, "run")?;
    let mut streams = streams_of(alloc, plain(YIELD.as_bytes(), 7))?;
    let Streams { input, out, err } = &mut streams;
    Ok(serial(alloc, &arguments, input, out, err, gate))
}

/// In rounds the gate is passed nine times, and each time reads what was to be there.
fn is_read_in_rounds(alloc: Global) -> Result<bool, AllocError> {
    let gate = unpassed();
    let status = run_in_rounds(alloc, &gate)?;
    let passes = gate.passes.load(Ordering::SeqCst);
    Ok(status == 0 && passes == 9 && gate.right.load(Ordering::SeqCst) == 9)
}

#[test]
fn each_turn_of_a_run_in_rounds_passes_the_gate(rt: HostRuntime) {
    is_so(&rt, is_read_in_rounds(rt.alloc()));
}

/// The run on threads of the host ends well with this gate.
fn is_passed<R: Threads + Wait + Sync + AllocGlobal>(
    rt: &R,
    gate: &Reader,
) -> Result<bool, AllocError> {
    let called = call_gated(rt, "run --threads", plain(YIELD.as_bytes(), 7), gate)?;
    Ok(called.status == 0)
}

/// On threads the first nine passes read what was to be there.
fn is_read_on_threads<R: Threads + Wait + Sync + AllocGlobal>(rt: &R) -> Result<bool, AllocError> {
    let gate = unpassed();
    Ok(is_passed(rt, &gate)? && gate.right.load(Ordering::SeqCst) == 9)
}

#[test]
fn each_turn_of_a_run_on_threads_passes_the_gate(rt: HostRuntime) {
    is_so(&rt, is_read_on_threads(&rt));
}
