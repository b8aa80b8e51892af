//! Sources and sinks in memory, which fail at the calls that they are told to.
ghost use Rattle.std.specs.Prelude.{◌≡◌, ◌<◌, ◌≤◌, [], ◌++◌, true, false, IfOk, OnOk, OnErr, length, min, take, drop};
ghost use Rattle.std.specs.Io.KnownBytes.{Keeps, ReadConsumes, WriteAppends};
ghost use Rattle.sd_text.specs.Faults.{HasRisen};
ghost use Rattle.sd_text.specs.Lines.{IsOneLine};

use super::streams::{Failed, Sink, Source};
use std::alloc::{AllocError, Global};
use std::marker::Model;

/// A source over bytes in memory. A read gives the least of its chunk, the buffer's length and what is left.
#[derive(Drop)]
pub struct MemorySource {
    bytes: Vec<u8>,
    // Where the bytes begin that are left.
    at: usize,
    chunk: usize,
    failing: Vec<u64>,
    reads: u64,
    faults: u64,
}

impl Model for MemorySource {
    ghost use Rattle.std.specs.Prelude.{◌≤◌, drop, vec_len};
    ghost use Rattle.sd_text.specs.Memory.{SourceState};

    ghost Value = { SourceState };

    ghost view = { λ s. record { left = drop s.at s.bytes.items; chunk = s.chunk; failing = s.failing.items; reads = s.reads; faults = s.faults } };

    ghost invariant = { λ s. (s.at ≤ vec_len s.bytes) × (1 ≤ s.chunk) };
}

impl MemorySource {
    /// A source of these bytes, at most `chunk` of them a read. The reads whose numbers from 1 stand in `failing`
    /// fail, and no others. A number that has reached the greatest `u64` stays there.
    pub fn new(bytes: Vec<u8>, chunk: usize, failing: Vec<u64>) -> MemorySource
        requires { 1 ≤ chunk }
        ensures { result ≡ record { left = bytes.items; chunk = chunk; failing = failing.items; reads = 0; faults = 0 } }
    {
        MemorySource {
            bytes,
            at: 0,
            chunk,
            failing,
            reads: 0,
            faults: 0,
        }
    }
}

impl Source for MemorySource {
    ghost use Rattle.std.specs.Prelude.{Some};
    ghost use Rattle.sd_text.specs.Memory.{ReadsChunk};

    ghost remaining = { λ s. Some s.left };

    ghost fault_count = { λ s. s.faults };

    fn faults(&self) -> u64 {
        self.faults
    }

    fn read(&mut self, buf: &mut [u8]) -> Result<usize, Failed>
        ensures never_falls { self.old.faults ≤ self.new.faults }
        ensures no_fault { OnOk result (self.new.faults ≡ self.old.faults) }
        ensures failed_only_where_risen { OnErr result (HasRisen self.old.faults self.new.faults) }
        ensures bound { IfOk result (λ n. n ≤ length buf.new) }
        ensures bytes { ReadConsumes (Some self.old.left) (Some self.new.left) result buf.new }

        // Exactly what the read does.
        ensures chunk { ReadsChunk self.old self.new result buf.old buf.new }
    {
        self.reads = self.reads.saturating_add(1);
        if self.failing.contains(&self.reads) {
            self.faults = self.faults.saturating_add(1);
            return Err(Failed);
        }
        let count = copy_front(&self.bytes[self.at..], buf, self.chunk);
        self.at += count;
        Ok(count)
    }
}

// Copies as much as goes into the buffer, and at most `chunk` bytes.
fn copy_front(left: &[u8], buf: &mut [u8], chunk: usize) -> usize
    ensures count { result ≡ min (min chunk (length buf.old)) (length left.now) }
    ensures copied { buf.new ≡ take result left.now ++ drop result buf.old }
{
    let count = chunk.min(buf.len()).min(left.len());
    buf[..count].copy_from_slice(&left[..count]);
    count
}

/// A sink with room in memory. A write takes as much as there is room for, and nothing is held back.
#[derive(Drop)]
pub struct MemorySink {
    bytes: Vec<u8>,
    room: usize,
    failing: Vec<u64>,
    fails_to_flush: bool,
    writes: u64,
    faults: u64,
}

impl Model for MemorySink {
    ghost use Rattle.std.specs.Prelude.{◌≤◌, vec_len, vec_capacity};
    ghost use Rattle.sd_text.specs.Memory.{SinkState};

    ghost Value = { SinkState };

    ghost view = { λ s. record { held = s.bytes.items; room = s.room; failing = s.failing.items; fails_to_flush = s.fails_to_flush; writes = s.writes; faults = s.faults } };

    ghost invariant = { λ s. (vec_len s.bytes ≤ s.room) × (s.room ≤ vec_capacity s.bytes) };
}

impl MemorySink {
    /// An empty sink with room for `room` bytes. The writes whose numbers from 1 stand in `failing` fail, and each one while
    /// the sink is full. A number that has reached the greatest `u64` stays there.
    pub fn new(alloc: Global, room: usize, failing: Vec<u64>) -> Result<MemorySink, AllocError>
        ensures { IfOk result (λ s. s ≡ record { held = []; room = room; failing = failing.items; fails_to_flush = false; writes = 0; faults = 0 }) }
    {
        let bytes = Vec::with_capacity(alloc, room)?;
        Ok(MemorySink {
            bytes,
            room,
            failing,
            fails_to_flush: false,
            writes: 0,
            faults: 0,
        })
    }

    /// The sink, each flush of which fails.
    pub fn failing_to_flush(mut self) -> MemorySink
        ensures { result ≡ record self { fails_to_flush = true } }
    {
        self.fails_to_flush = true;
        self
    }

    /// What the sink holds.
    pub fn bytes(&self) -> &[u8]
        ensures { result.now ≡ self.now.held }
    {
        &self.bytes
    }
}

impl Sink for MemorySink {
    ghost use Rattle.std.specs.Prelude.{Some};
    ghost use Rattle.sd_text.specs.Memory.{Flushes, TakesPiece, kept_back};

    ghost contents = { λ s. Some s.held };

    ghost held_back = { kept_back };

    ghost fault_count = { λ s. s.faults };

    fn faults(&self) -> u64 {
        self.faults
    }

    fn write(&mut self, bytes: &[u8]) -> Result<usize, Failed>
        requires { IsOneLine bytes.now }
        ensures never_falls { self.old.faults ≤ self.new.faults }
        ensures no_fault { OnOk result (self.new.faults ≡ self.old.faults) }
        ensures failed_only_where_risen { OnErr result (HasRisen self.old.faults self.new.faults) }
        ensures bound { IfOk result (λ n. n ≤ length bytes.now) }
        ensures progress { IfOk result (λ n. 0 < n) }
        ensures bytes { WriteAppends (Some self.old.held) (Some self.new.held) result bytes.now }

        // Exactly what the write does.
        ensures piece { TakesPiece self.old self.new result bytes.now }
    {
        self.writes = self.writes.saturating_add(1);
        let free = self.room - self.bytes.len();
        if free == 0 || self.failing.contains(&self.writes) {
            self.faults = self.faults.saturating_add(1);
            return Err(Failed);
        }
        let count = free.min(bytes.len());
        self.bytes.extend_from_slice(&bytes[..count]).unwrap();
        Ok(count)
    }

    fn flush(&mut self) -> Result<(), Failed>
        ensures never_falls { self.old.faults ≤ self.new.faults }
        ensures no_fault { OnOk result (self.new.faults ≡ self.old.faults) }
        ensures failed_only_where_risen { OnErr result (HasRisen self.old.faults self.new.faults) }
        ensures same { Keeps (Some self.old.held) (Some self.new.held) }
        ensures handed_on { OnOk result (kept_back self.new ≡ []) }

        // Exactly what the flush does.
        ensures flushed { Flushes self.old self.new result }
    {
        if self.fails_to_flush {
            self.faults = self.faults.saturating_add(1);
            return Err(Failed);
        }
        Ok(())
    }
}
