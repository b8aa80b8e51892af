//! Bytes that are written one after another over others, so that no byte takes memory where others stood before.

ghost use Rattle.std.specs.Prelude.{◌≡◌, ◌++◌, ◌∷◌, [], OnErr, OnOk, if◌then◌else◌, is_ok};

use std::alloc::AllocError;
use std::marker::Model;

/// Bytes at the front of a buffer.
#[derive(Drop)]
pub(crate) struct Buffer {
    held: Vec<u8>,
    len: usize,
}

impl Model for Buffer {
    ghost use Rattle.std.specs.Prelude.{ℕ, List, ◌≤◌, length, take};

    ghost Value = { List ℕ };

    ghost view = { λ b. take b.len b.held.items };

    ghost invariant = { λ b. b.len ≤ length b.held.items };
}

/// Writes a byte behind all that stand in the memory.
#[inline(never)]
fn grow(held: &mut Vec<u8>, byte: u8) -> Result<(), AllocError>
    ensures { held.new.items ≡ (if is_ok result then held.old.items ++ byte ∷ [] else held.old.items) }
{
    held.push(byte)?;
    Ok(())
}

impl Buffer {
    /// No byte yet: what is written goes where the bytes of `room` stand.
    pub(crate) fn new(room: Vec<u8>) -> Buffer
        ensures { result ≡ [] }
    {
        Buffer { held: room, len: 0 }
    }

    /// Writes a byte more. The bytes stay as they are where memory runs out.
    #[inline(always)]
    pub(crate) fn push(&mut self, byte: u8) -> Result<(), AllocError>
        ensures written { OnOk result (self.new ≡ self.old ++ byte ∷ []) }
        ensures kept { OnErr result (self.new ≡ self.old) }
    {
        if self.len < self.held.len() {
            self.held[self.len] = byte;
        } else {
            grow(&mut self.held, byte)?;
        }
        self.len += 1;
        Ok(())
    }

    /// Forgets the bytes.
    pub(crate) fn clear(&mut self)
        ensures { self.new ≡ [] }
    {
        self.len = 0;
    }

    /// The bytes alone.
    pub(crate) fn into_bytes(self) -> Vec<u8>
        ensures { result.items ≡ self }
    {
        let mut bytes = self.held;
        bytes.truncate(self.len);
        bytes
    }
}
