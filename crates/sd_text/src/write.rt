//! Writing a line whole.
ghost use Rattle.std.specs.Prelude.{◌≡◌, ℕ, ◌<◌, ◌≤◌, length, take, OnOk, OnErr};
ghost use Rattle.std.specs.Io.KnownBytes.{Appends};
ghost use Rattle.sd_text.specs.Faults.{HasRisen};
ghost use Rattle.sd_text.specs.Lines.{IsOneLine};

use super::streams::Sink;
use thiserror::Error;

/// A piece was not written whole, since a write failed.
#[derive(Clone, Copy, Debug, PartialEq, Eq, Error)]
#[error("write fault")]
pub struct WriteFault;

/// Appends the piece, which is a whole line with its newline: the first write is offered all of it. Where a write takes a part,
/// the rest is written next.
pub fn write_piece<K: Sink>(sink: &mut K, piece: &[u8]) -> Result<(), WriteFault>
    requires { IsOneLine piece.now }
    ensures never_falls { K.fault_count sink.old ≤ K.fault_count sink.new }
    ensures ok { OnOk result (Appends (K.contents sink.old) (K.contents sink.new) piece.now) }

    ensures no_fault { OnOk result (K.fault_count sink.new ≡ K.fault_count sink.old) }

    // A fault leaves a prefix of the piece, and not all of it.
    ensures risen { OnErr result (HasRisen (K.fault_count sink.old) (K.fault_count sink.new)) }
    ensures part { OnErr result ((n : ℕ) × (n < length piece.now) × Appends (K.contents sink.old) (K.contents sink.new) (take n piece.now)) }
{
    let Ok(first) = sink.write(piece) else {
        return Err(WriteFault);
    };
    let mut at = first;
    while at < piece.len() {
        let Ok(count) = sink.write(&piece[at..]) else {
            return Err(WriteFault);
        };
        at += count;
    }
    Ok(())
}
