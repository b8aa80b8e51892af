//! Sources and sinks over the system's readers and writers: the trusted edge. They tell the bytes that the reader
//! or writer tells, so none of a file, a pipe or a terminal.
ghost use Rattle.std.specs.Prelude.{◌≡◌, ◌<◌, ◌≤◌, [], IfErr, IfOk, OnOk, OnErr, length};
ghost use Rattle.std.specs.Io.KnownBytes.{Keeps, ReadConsumes, WriteAppends};
ghost use Rattle.sd_text.specs.Faults.{HasRisen, next_count};
ghost use Rattle.sd_text.specs.Lines.{IsOneLine};

use super::streams::{Failed, Sink, Source};
use std::alloc::Global;
use std::io;
use std::io::{BufWriter, ErrorKind, Read, Write};

/// A source over a reader. Each `Err` of the reader is a fault.
#[derive(Drop)]
pub struct StdSource<R> {
    inner: R,
    faults: u64,
}

impl<R: Read> StdSource<R> {
    ghost use Rattle.sd_text.specs.Adapters.{source_reader, source_faults};

    pub fn new(inner: R) -> StdSource<R>
        ensures reader { source_reader result ≡ inner }
        ensures faults { source_faults result ≡ 0 }
    {
        StdSource { inner, faults: 0 }
    }
}

impl<R: Read> Source for StdSource<R> {
    ghost use Rattle.sd_text.specs.Adapters.{source_reader, source_faults};

    ghost remaining = { λ s. R.remaining (source_reader s) };

    ghost fault_count = { source_faults };

    fn faults(&self) -> u64 {
        self.faults
    }

    fn read(&mut self, buf: &mut [u8]) -> Result<usize, Failed>
        ensures never_falls { source_faults self.old ≤ source_faults self.new }
        ensures no_fault { OnOk result (source_faults self.new ≡ source_faults self.old) }
        ensures failed_only_where_risen { OnErr result (HasRisen (source_faults self.old) (source_faults self.new)) }
        ensures bound { IfOk result (λ n. n ≤ length buf.new) }
        ensures bytes { ReadConsumes (R.remaining (source_reader self.old)) (R.remaining (source_reader self.new)) result buf.new }

        // A read that failed raises the count by one.
        ensures failed { OnErr result (source_faults self.new ≡ next_count (source_faults self.old)) }
    {
        match self.inner.read(buf) {
            Ok(count) => Ok(count),
            Err(_) => {
                self.faults = self.faults.saturating_add(1);
                Err(Failed)
            }
        }
    }
}

/// How many bytes a buffered sink collects before it calls its writer.
pub const BUFFERED_BYTES: usize = 65_536;

/// A sink over a writer, which may collect what is written before it hands that on. Each `Err` of the writer is a fault, and
/// so is a write that took nothing.
///
/// It holds what the writer holds and then what it has collected. A write or a flush that fails leaves that as it was: what
/// the writer took before it failed has left the buffer. What is still in the buffer when the sink is dropped is dropped too.
pub struct StdSink<W: Write + Drop> {
    inner: BufWriter<W>,
    faults: u64,
}

impl<W: Write + Drop> StdSink<W> {
    ghost use Rattle.std.specs.IoError.{error_kind};
    ghost use Rattle.sd_text.specs.Adapters.{sink_writer, sink_faults, sink_buffer};

    /// A sink that hands each piece on at once.
    pub fn unbuffered(alloc: Global, inner: W) -> StdSink<W>
        ensures writer { sink_writer result ≡ inner }
        ensures empty { sink_buffer result ≡ [] }
        ensures faults { sink_faults result ≡ 0 }
    {
        StdSink {
            inner: BufWriter::with_capacity(alloc, 0, inner).unwrap(),
            faults: 0,
        }
    }

    /// A sink that collects 65,536 bytes before it calls the writer. `Err` only where memory runs out.
    pub fn buffered(alloc: Global, inner: W) -> io::Result<StdSink<W>>
        ensures writer { IfOk result (λ s. sink_writer s ≡ inner) }
        ensures empty { IfOk result (λ s. sink_buffer s ≡ []) }
        ensures faults { IfOk result (λ s. sink_faults s ≡ 0) }
        ensures memory { IfErr result (λ e. error_kind e ≡ ErrorKind.OutOfMemory) }
    {
        Ok(StdSink {
            inner: BufWriter::with_capacity(alloc, BUFFERED_BYTES, inner)?,
            faults: 0,
        })
    }
}

impl<W: Write + Drop> Drop for StdSink<W> {
    // A buffered writer that is dropped would write once more, after the fault was answered.
    fn drop(self) {
        let StdSink { inner, faults: _ } = self;
        let _ = inner.into_parts();
    }
}

impl<W: Write + Drop> Sink for StdSink<W> {
    ghost use Rattle.sd_text.specs.Adapters.{sink_bytes, sink_faults, sink_buffer};

    ghost contents = { sink_bytes W.contents };

    ghost fault_count = { sink_faults };

    ghost held_back = { sink_buffer };

    fn faults(&self) -> u64 {
        self.faults
    }

    fn write(&mut self, bytes: &[u8]) -> Result<usize, Failed>
        requires { IsOneLine bytes.now }
        ensures never_falls { sink_faults self.old ≤ sink_faults self.new }
        ensures no_fault { OnOk result (sink_faults self.new ≡ sink_faults self.old) }
        ensures failed_only_where_risen { OnErr result (HasRisen (sink_faults self.old) (sink_faults self.new)) }
        ensures bound { IfOk result (λ n. n ≤ length bytes.now) }
        ensures progress { IfOk result (λ n. 0 < n) }
        ensures bytes { WriteAppends (sink_bytes W.contents self.old) (sink_bytes W.contents self.new) result bytes.now }

        // A write that failed raises the count by one.
        ensures failed { OnErr result (sink_faults self.new ≡ next_count (sink_faults self.old)) }
    {
        match self.inner.write(bytes) {
            Ok(count) if 0 < count => Ok(count),
            _ => {
                self.faults = self.faults.saturating_add(1);
                Err(Failed)
            }
        }
    }

    fn flush(&mut self) -> Result<(), Failed>
        ensures never_falls { sink_faults self.old ≤ sink_faults self.new }
        ensures no_fault { OnOk result (sink_faults self.new ≡ sink_faults self.old) }
        ensures failed_only_where_risen { OnErr result (HasRisen (sink_faults self.old) (sink_faults self.new)) }
        ensures same { Keeps (sink_bytes W.contents self.old) (sink_bytes W.contents self.new) }
        ensures handed_on { OnOk result (sink_buffer self.new ≡ []) }

        // A flush that failed raises the count by one.
        ensures failed { OnErr result (sink_faults self.new ≡ next_count (sink_faults self.old)) }
    {
        match self.inner.flush() {
            Ok(()) => Ok(()),
            Err(_) => {
                self.faults = self.faults.saturating_add(1);
                Err(Failed)
            }
        }
    }
}
