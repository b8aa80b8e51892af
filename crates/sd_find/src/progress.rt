//! What is shown of a search that is still going on: a line from time to time, on a sink of its own.

ghost use Rattle.std.specs.Prelude.{◌≡◌, ◌++◌, OnOk, IfOk, IsErrOf, option_copied};
ghost use Rattle.sd_answers.specs.StreamChanges.{Puts};
ghost use Rattle.sd_answers.specs.declared.writing.Unwritten.TheVariants.{Memory};
ghost use Rattle.sd_find.specs.Progress.{progress_line};

use sd_answers::{Unwritten, put_text};
use sd_search_answers::Watch;
use sd_text::{Sink, put_number};
use std::alloc::{AllocError, Global};

/// Shows how far a search has come: a line with how many states were found, and how many turns of processors lead to the last of
/// them. Where there is no sink nothing is shown. Where a write fails a part of its line may stand on the sink, and without memory for a
/// line nothing of it does; the search goes on.
#[derive(Drop)]
pub struct Progress<P> {
    alloc: Global,
    sink: Option<P>,
}

impl<P: Sink> Progress<P> {
    pub fn new(alloc: Global, sink: Option<P>) -> Progress<P>
        ensures { result.sink ≡ sink }
    {
        Progress { alloc, sink }
    }

    /// The sink, with what it was shown.
    pub fn sink(&self) -> Option<&P>
        ensures { option_copied result ≡ self.now.sink }
    {
        self.sink.as_ref()
    }
}

fn write_progress(states: u64, depth: u64, out: &mut Vec<u8>) -> Result<(), AllocError>
    ensures { OnOk result (out.new.items ≡ out.old.items ++ progress_line states depth) }
{
    out.extend_from_slice(b"states ")?;
    put_number(out, states)?;
    out.extend_from_slice(b" depth ")?;
    put_number(out, depth)?;
    out.push(b'\n')?;
    Ok(())
}

fn progress_line(alloc: Global, states: u64, depth: u64) -> Result<Vec<u8>, AllocError>
    ensures { IfOk result (λ line. line.items ≡ progress_line states depth) }
{
    let mut line = Vec::new(alloc);
    write_progress(states, depth, &mut line)?;
    Ok(line)
}

fn put_progress<P: Sink>(
    alloc: Global,
    states: u64,
    depth: u64,
    sink: &mut P,
) -> Result<(), Unwritten>
    ensures puts { Puts (P.contents sink.old) (P.contents sink.new) (P.fault_count sink.old) (P.fault_count sink.new) (progress_line states depth) result }
    ensures memory { IsErrOf result Memory → sink.new ≡ sink.old }
{
    let line = progress_line(alloc, states, depth)?;
    put_text(sink, &line)
}

impl<P: Sink> Watch for Progress<P> {
    ghost use Rattle.sd_find.specs.Progress.{Shows};

    ghost noted = { Shows P.contents P.fault_count };

    fn saw(&mut self, states: u64, depth: u64) {
        if let Some(sink) = &mut self.sink {
            let _ = put_progress(self.alloc, states, depth, sink);
        }
    }
}
