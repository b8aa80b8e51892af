//! Runs whose processors are threads of the host: that they run side by side, and that what is printed is the journal of a run.

ghost use Rattle.std.specs.Prelude.{◌≤◌, IfOk};

use crate::judging::is_so;
use crate::runs::SPINNING;
use crate::streams::{Called, Given, Program, Wanted, answers, call_gated, plain};
use sd_cpu::{Gate, OpenGate};
use sd_homes::Home;
use sd_types::CpuId;
use std::alloc::AllocError;
use std::hint::spin_loop;
use std::marker::Sync;
use std::sync::Wait;
use std::sync::atomic::{AtomicBool, Ordering};
use std::thread::Threads;

/// Two threads of two ticks each, on two processors.
const TWO: &str =
    "cpus 2\nlimit 2\nthread a ts 29 0 0\nthread b ts 29 0 0\nscript a\nrun 2\nend\nscript b\nrun 2\nend\n";

/// So often the gate looks whether the other processor has come.
const LOOKS: u64 = 100_000_000;

/// A gate that holds processor 0 in its first turn, with its home in its hand, until processor 1 comes to its second.
#[derive(Drop)]
struct Meeting {
    came: AtomicBool,
    gave_up: AtomicBool,
}

impl Meeting {
    fn wait(&self) {
        for _ in 0..LOOKS {
            if self.came.load(Ordering::SeqCst) {
                return;
            }
            spin_loop();
        }
        self.gave_up.store(true, Ordering::SeqCst);
    }
}

impl Gate for Meeting {
    fn pass(&self, cpu: CpuId, turn: u64, home: &Home) {
        match (cpu.0, turn) {
            (1, 1) => self.came.store(true, Ordering::SeqCst),
            (0, 0) => self.wait(),
            _ => {}
        }
    }
}

/// What `run --threads` prints of a workload.
fn run<R: Threads + Wait + Sync + AllocGlobal, G: Gate + Sync>(
    rt: &R,
    input: &str,
    gate: &G,
) -> Result<Called, AllocError> {
    call_gated(rt, "run --threads", plain(input.as_bytes(), 7), gate)
}

/// An audit of a workload and a journal says that it is one.
fn is_audited<R: Threads + Wait + Sync + AllocGlobal>(
    rt: &R,
    input: &str,
    journal: &[u8],
) -> Result<bool, AllocError> {
    let mut text = Vec::new(rt.alloc());
    put_certificate(input, journal, &mut text)?;
    let given = Given {
        room: 200,
        ..plain(&text, 4096)
    };
    answers(
        rt,
        Program::Dispsim,
        "audit",
        given,
        Wanted::Within(b"legal "),
    )
}

fn put_certificate(input: &str, journal: &[u8], text: &mut Vec<u8>) -> Result<(), AllocError> {
    text.extend_from_slice(input.as_bytes())?;
    text.extend_from_slice(b"journal\n")?;
    text.extend_from_slice(journal)
}

/// The text holds this line.
fn has_line(text: &[u8], line: &str) -> bool {
    match str::from_utf8(text) {
        Err(_) => false,
        Ok(text) => text.lines().any(|other| other == line),
    }
}

/// Both threads ended after two ticks each.
fn have_ended(out: &[u8]) -> bool {
    has_line(
        out,
        "thread a ticks 2 dispatches 1 preempts 0 wakes 0 ended",
    ) && has_line(
        out,
        "thread b ticks 2 dispatches 1 preempts 0 wakes 0 ended",
    )
}

/// The run of the two threads ends well with this gate, and what it prints is audited.
fn is_met<R: Threads + Wait + Sync + AllocGlobal>(
    rt: &R,
    gate: &Meeting,
) -> Result<bool, AllocError> {
    let called = run(rt, TWO, gate)?;
    let out = called.streams.out.bytes();
    Ok(called.status == 0 && have_ended(out) && is_audited(rt, TWO, out)?)
}

/// The processors meet.
fn is_side_by_side<R: Threads + Wait + Sync + AllocGlobal>(rt: &R) -> Result<bool, AllocError> {
    let gate = Meeting {
        came: AtomicBool::new(false),
        gave_up: AtomicBool::new(false),
    };
    Ok(is_met(rt, &gate)? && !gate.gave_up.load(Ordering::SeqCst))
}

#[test]
fn two_threads_of_the_host_run_side_by_side(rt: HostRuntime) {
    is_so(&rt, is_side_by_side(&rt));
}

/// The run in which a thread spins ends well, and what it prints is audited.
fn is_spun<R: Threads + Wait + Sync + AllocGlobal>(rt: &R) -> Result<bool, AllocError> {
    let called = run(rt, SPINNING, &OpenGate)?;
    Ok(called.status == 0 && is_audited(rt, SPINNING, called.streams.out.bytes())?)
}

#[test]
fn what_is_printed_is_audited(rt: HostRuntime) {
    is_so(&rt, is_spun(&rt));
}
