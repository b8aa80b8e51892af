//! Calls of the four programs over inputs and outputs in memory.

ghost use Rattle.std.specs.Prelude.{◌≡◌, [], ◌∷◌, IfOk, map, string_bytes};
ghost use Rattle.sd_examples.specs.Calls.{certificate_of, Expands, Finds, Runs, Views, ViewsWith};
ghost use Rattle.sd_examples.specs.Outcomes.{IsDrawing, IsRun};

use sd_find::{Progress, find};
use sd_program::{OpenGate, serial};
use sd_task_program::expand_set;
use sd_text::{MemorySink, MemorySource};
use sd_viewer::view;
use std::alloc::{AllocError, Global};

/// Room for what a call writes: a longer journal, picture or trace of an example would be a write fault.
const ROOM: usize = 1_048_576;

/// A status, and what was written on the output.
#[derive(Drop)]
pub struct Finished {
    pub status: u8,
    pub out: MemorySink,
}

/// What a call gave: what it wrote, or the status that says why it did not do what was asked.
#[derive(Drop)]
pub enum Outcome {
    Wrote(MemorySink),
    Refused { status: u8 },
}

fn one_argument(alloc: Global, word: &str) -> Result<Vec<String>, AllocError>
    ensures { IfOk result (λ v. map string_bytes v.items ≡ word.now ∷ []) }
{
    let mut arguments = Vec::new(alloc);
    arguments.push(String::from_str(alloc, word)?)?;
    Ok(arguments)
}

fn input_of(alloc: Global, bytes: &[u8]) -> Result<MemorySource, AllocError>
    ensures { IfOk result (λ s. (s.left ≡ bytes.now) × (s.faults ≡ 0)) }
{
    Ok(MemorySource::new(Vec::from_slice(alloc, bytes)?, ROOM, Vec::new(alloc)))
}

fn output(alloc: Global) -> Result<MemorySink, AllocError>
    ensures { IfOk result (λ s. (s.held ≡ []) × (s.faults ≡ 0)) }
{
    MemorySink::new(alloc, ROOM, Vec::new(alloc))
}

/// Calls `dispsim run` on the workload.
fn call_run(alloc: Global, workload: &[u8]) -> Result<Finished, AllocError>
    ensures { IfOk result (λ call. Runs workload.now call.out.held call.status) }
{
    let arguments = one_argument(alloc, "run")?;
    let mut input = input_of(alloc, workload)?;
    let mut out = output(alloc)?;
    let mut err = output(alloc)?;
    let status = serial(alloc, &arguments, &mut input, &mut out, &mut err, &OpenGate);
    Ok(Finished { status, out })
}

/// Calls `dispview` on the certificate, with the word as its argument.
pub fn call_view(alloc: Global, word: &str, certificate: &[u8]) -> Result<Finished, AllocError>
    ensures { IfOk result (λ call. Views word.now certificate.now call.out.held call.status) }
{
    let arguments = one_argument(alloc, word)?;
    let mut input = input_of(alloc, certificate)?;
    let mut out = output(alloc)?;
    let mut err = output(alloc)?;
    let status = view(alloc, &arguments, &mut input, &mut out, &mut err);
    Ok(Finished { status, out })
}

fn two_arguments(alloc: Global, word: &str, option: &str) -> Result<Vec<String>, AllocError>
    ensures { IfOk result (λ v. map string_bytes v.items ≡ word.now ∷ option.now ∷ []) }
{
    let mut arguments = Vec::new(alloc);
    arguments.push(String::from_str(alloc, word)?)?;
    arguments.push(String::from_str(alloc, option)?)?;
    Ok(arguments)
}

/// The same, with two arguments.
pub fn call_view_with(
    alloc: Global,
    word: &str,
    option: &str,
    certificate: &[u8],
) -> Result<Finished, AllocError>
    ensures { IfOk result (λ call. ViewsWith word.now option.now certificate.now call.out.held call.status) }
{
    let arguments = two_arguments(alloc, word, option)?;
    let mut input = input_of(alloc, certificate)?;
    let mut out = output(alloc)?;
    let mut err = output(alloc)?;
    let status = view(alloc, &arguments, &mut input, &mut out, &mut err);
    Ok(Finished { status, out })
}

/// Calls `dispfind` with these arguments on the workload.
pub fn search(alloc: Global, arguments: &[String], workload: &[u8]) -> Result<Finished, AllocError>
    ensures { IfOk result (λ call. Finds (map string_bytes arguments.now) workload.now call.out.held call.status) }
{
    let mut input = input_of(alloc, workload)?;
    let mut out = output(alloc)?;
    let mut err = output(alloc)?;
    let mut unseen: Progress<MemorySink> = Progress::new(alloc, None);
    let status = find(
        alloc,
        arguments,
        &mut input,
        &mut out,
        &mut err,
        &mut unseen,
    );
    Ok(Finished { status, out })
}

/// Calls `disptask` on the task set.
pub fn expand(alloc: Global, set: &[u8]) -> Result<Finished, AllocError>
    ensures { IfOk result (λ call. Expands set.now call.out.held call.status) }
{
    let arguments = Vec::new(alloc);
    let mut input = input_of(alloc, set)?;
    let mut out = output(alloc)?;
    let mut err = output(alloc)?;
    let status = expand_set(alloc, &arguments, &mut input, &mut out, &mut err);
    Ok(Finished { status, out })
}

/// The journal that `dispsim run` writes of the workload.
pub fn run(alloc: Global, workload: &[u8]) -> Result<Outcome, AllocError>
    ensures { IfOk result (IsRun workload.now) }
{
    let call = call_run(alloc, workload)?;
    if call.status != 0 && call.status != 6 {
        return Ok(Outcome::Refused {
            status: call.status,
        });
    }
    Ok(Outcome::Wrote(call.out))
}

/// What `dispview` draws of the certificate, with the word as its argument.
pub fn draw(alloc: Global, word: &str, certificate: &[u8]) -> Result<Outcome, AllocError>
    ensures { IfOk result (IsDrawing word.now certificate.now) }
{
    let call = call_view(alloc, word, certificate)?;
    if call.status != 0 {
        return Ok(Outcome::Refused {
            status: call.status,
        });
    }
    Ok(Outcome::Wrote(call.out))
}

/// The workload, the line `journal` and the journal.
pub fn certificate(alloc: Global, workload: &[u8], journal: &[u8]) -> Result<Vec<u8>, AllocError>
    ensures { IfOk result (λ v. v.items ≡ certificate_of workload.now journal.now) }
{
    let mut text = Vec::from_slice(alloc, workload)?;
    text.extend_from_slice(b"journal\n")?;
    text.extend_from_slice(journal)?;
    Ok(text)
}
