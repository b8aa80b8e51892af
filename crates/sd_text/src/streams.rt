//! What the program reads from and writes to, and what is known of it: the bytes, where it tells them,
//! and a count of faults.
ghost use Rattle.std.specs.Prelude.{◌≡◌, ℕ, ◌<◌, ◌≤◌, List, [], Option, None, IfOk, OnOk, OnErr, length};
ghost use Rattle.std.specs.Io.KnownBytes.{Keeps, ReadConsumes, WriteAppends};
ghost use Rattle.sd_text.specs.Faults.{HasRisen};
ghost use Rattle.sd_text.specs.Lines.{IsOneLine};

use thiserror::Error;

/// A read, a write or a flush failed. The count of its object's faults rose in that call, and shows it.
#[derive(Clone, Copy, Debug, PartialEq, Eq, Error)]
#[error("a read or a write failed")]
pub struct Failed;

/// Where bytes come from.
///
/// A count of faults that stands at the greatest `u64` counts as risen, here and at a `Sink`.
pub trait Source {
    // The bytes that are left, where the source tells them.
    ghost remaining: { Self → Option (List ℕ) } = { λ _. None };

    // How many reads have failed.
    ghost fault_count: { Self → ℕ };

    /// How many reads have failed. It never falls, and stays at the greatest `u64` once it is there.
    fn faults(&self) -> u64
        ensures { result ≡ fault_count self.now };

    /// Puts the next bytes at the beginning of `buf` and returns how many. None, for a buffer that is not empty,
    /// is the end of the input. A read that failed takes no byte, and one that did not counts no fault.
    fn read(&mut self, buf: &mut [u8]) -> Result<usize, Failed>
        ensures never_falls { fault_count self.old ≤ fault_count self.new }
        ensures no_fault { OnOk result (fault_count self.new ≡ fault_count self.old) }
        ensures failed_only_where_risen { OnErr result (HasRisen (fault_count self.old) (fault_count self.new)) }
        ensures bound { IfOk result (λ n. n ≤ length buf.new) }
        ensures bytes { ReadConsumes (remaining self.old) (remaining self.new) result buf.new };
}

/// Where bytes go.
pub trait Sink {
    // The bytes that it holds, where the sink tells them: those that it has handed on, and then those that it holds back.
    ghost contents: { Self → Option (List ℕ) } = { λ _. None };

    // The last bytes that it holds, which it has not handed on yet.
    ghost held_back: { Self → List ℕ } = { λ _. [] };

    // How many writes and flushes have failed.
    ghost fault_count: { Self → ℕ };

    /// How many writes and flushes have failed. It never falls, and stays at the greatest `u64` once it is there.
    fn faults(&self) -> u64
        ensures { result ≡ fault_count self.now };

    /// Appends the first bytes of the piece and returns how many, at least one. After a write that failed the sink holds what
    /// it held. One that did not fail counts no fault.
    ///
    /// The piece is a whole line with its newline, or what is left of one where an earlier write took its beginning.
    fn write(&mut self, bytes: &[u8]) -> Result<usize, Failed>
        requires { IsOneLine bytes.now }
        ensures never_falls { fault_count self.old ≤ fault_count self.new }
        ensures no_fault { OnOk result (fault_count self.new ≡ fault_count self.old) }
        ensures failed_only_where_risen { OnErr result (HasRisen (fault_count self.old) (fault_count self.new)) }
        ensures bound { IfOk result (λ n. n ≤ length bytes.now) }
        ensures progress { IfOk result (λ n. 0 < n) }
        ensures bytes { WriteAppends (contents self.old) (contents self.new) result bytes.now };

    /// Hands on everything that was written so far. It appends nothing; after a flush that failed the sink holds what it held.
    fn flush(&mut self) -> Result<(), Failed>
        ensures never_falls { fault_count self.old ≤ fault_count self.new }
        ensures no_fault { OnOk result (fault_count self.new ≡ fault_count self.old) }
        ensures failed_only_where_risen { OnErr result (HasRisen (fault_count self.old) (fault_count self.new)) }
        ensures same { Keeps (contents self.old) (contents self.new) }
        ensures handed_on { OnOk result (held_back self.new ≡ []) };
}
