//! Reading a source to its end, up to a limit.
ghost use Rattle.std.specs.Prelude.{◌≡◌, ◌^◌, ◌<◌, ◌≤◌, length, Err, IfSome, IfOk, OnOk, IsErrOf};
ghost use Rattle.std.specs.Io.KnownBytes.{IsAtEnd};
ghost use Rattle.sd_text.specs.Faults.{HasRisen};
ghost use Rattle.sd_text.specs.Reading.{TakesUpTo};
ghost use Rattle.sd_types.specs.Limits.{most_workload_bytes};

use super::streams::Source;
use sd_types::MOST_WORKLOAD_BYTES;
use std::alloc::Global;
use thiserror::Error;

/// Why an input was not read to its end. The source has lost the bytes that were taken.
#[derive(Clone, Copy, Debug, PartialEq, Eq, Error)]
pub enum ReadAllFault {
    /// A read failed.
    #[error("read fault")]
    ReadFault,
    /// The input has more bytes than the limit.
    #[error("input too large")]
    TooLarge,
    /// Out of memory.
    #[error("out of memory")]
    Memory,
}

// How many bytes one read asks for.
const PIECE: usize = 4096;

/// All bytes to the end of the source, of which there are at most 1,048,576.
pub fn read_all<S: Source>(alloc: Global, source: &mut S) -> Result<Vec<u8>, ReadAllFault>
    ensures never_falls { S.fault_count source.old ≤ S.fault_count source.new }

    // An `Ok` has the whole input, where the source tells it, and nothing is left.
    ensures whole { IfOk result (λ v. IfSome (S.remaining source.old) (λ xs. v.items ≡ xs)) }
    ensures end { OnOk result (IsAtEnd (S.remaining source.new)) }
    ensures bound { IfOk result (λ v. length v.items ≤ most_workload_bytes) }

    // When each fault comes. Out of memory comes only for an input that was read to its end, and is not too large.
    ensures read_fault { IsErrOf result ReadAllFault.ReadFault → HasRisen (S.fault_count source.old) (S.fault_count source.new) }
    ensures no_fault { ¬ IsErrOf result ReadAllFault.ReadFault → S.fault_count source.new ≡ S.fault_count source.old }
    ensures too_large { IsErrOf result ReadAllFault.TooLarge → IfSome (S.remaining source.old) (λ xs. most_workload_bytes < length xs) }
    ensures memory { IsErrOf result ReadAllFault.Memory → IsAtEnd (S.remaining source.new) }

    // What was taken, whatever the result.
    ensures taken { TakesUpTo most_workload_bytes (S.remaining source.old) (S.remaining source.new) result }
{
    read_up_to(alloc, source, MOST_WORKLOAD_BYTES as u64)
}

/// Reads on to the end of the source and keeps nothing, where memory ran out for an input that may have `left` bytes more:
/// a read that fails, and an input that is too large, are found without memory.
fn read_past<S: Source>(source: &mut S, mut left: usize) -> ReadAllFault
    requires { left < 2 ^ 32 }
    ensures never_falls { S.fault_count source.old ≤ S.fault_count source.new }
    ensures read_fault { result ≡ ReadAllFault.ReadFault → HasRisen (S.fault_count source.old) (S.fault_count source.new) }
    ensures no_fault { ¬ (result ≡ ReadAllFault.ReadFault) → S.fault_count source.new ≡ S.fault_count source.old }
    ensures memory { result ≡ ReadAllFault.Memory → IsAtEnd (S.remaining source.new) }
    ensures taken { TakesUpTo left (S.remaining source.old) (S.remaining source.new) (Err result) }
{
    let mut buffer = [0u8; PIECE];
    'reads: loop {
        // One byte more than is left shows that the input is too large.
        let wanted = PIECE.min(left + 1);
        let Ok(count) = source.read(&mut buffer[..wanted]) else {
            return ReadAllFault::ReadFault;
        };
        if count == 0 {
            return ReadAllFault::Memory;
        }
        if left < count {
            return ReadAllFault::TooLarge;
        }
        left -= count;
    }
}

/// All bytes to the end of the source, of which there are at most `most`.
pub fn read_up_to<S: Source>(
    alloc: Global,
    source: &mut S,
    most: u64,
) -> Result<Vec<u8>, ReadAllFault>
    requires { most < 2 ^ 32 }

    ensures never_falls { S.fault_count source.old ≤ S.fault_count source.new }

    // An `Ok` has the whole input, where the source tells it, and nothing is left.
    ensures whole { IfOk result (λ v. IfSome (S.remaining source.old) (λ xs. v.items ≡ xs)) }
    ensures end { OnOk result (IsAtEnd (S.remaining source.new)) }
    ensures bound { IfOk result (λ v. length v.items ≤ most) }

    // When each fault comes. Out of memory comes only for an input that was read to its end, and is not too large.
    ensures read_fault { IsErrOf result ReadAllFault.ReadFault → HasRisen (S.fault_count source.old) (S.fault_count source.new) }
    ensures no_fault { ¬ IsErrOf result ReadAllFault.ReadFault → S.fault_count source.new ≡ S.fault_count source.old }
    ensures too_large { IsErrOf result ReadAllFault.TooLarge → IfSome (S.remaining source.old) (λ xs. most < length xs) }
    ensures memory { IsErrOf result ReadAllFault.Memory → IsAtEnd (S.remaining source.new) }

    // What was taken, whatever the result.
    ensures taken { TakesUpTo most (S.remaining source.old) (S.remaining source.new) result }
{
    let most = most as usize;
    let mut bytes = Vec::new(alloc);
    let mut buffer = [0u8; PIECE];
    'reads: loop {
        // One byte more than `most` shows that the input is too large.
        let wanted = PIECE.min(most + 1 - bytes.len());
        let Ok(count) = source.read(&mut buffer[..wanted]) else {
            return Err(ReadAllFault::ReadFault);
        };
        if count == 0 {
            return Ok(bytes);
        }
        if most < bytes.len() + count {
            return Err(ReadAllFault::TooLarge);
        }
        let left = most - bytes.len() - count;
        let Ok(()) = bytes.extend_from_slice(&buffer[..count]) else {
            return Err(read_past(source, left));
        };
    }
}
