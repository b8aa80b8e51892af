//! Numbers that become bytes one after another, in memory that is kept from one list of numbers to the next.

ghost use Rattle.std.specs.Prelude.{◌≡◌, ◌<◌, ◌≤◌, ◌^◌, ◌++◌, ◌∷◌, [], OnErr, OnOk, IfOk};
ghost use Rattle.std.specs.List.{All};
ghost use Rattle.sd_encoding.specs.Bytes.{bytes_of};
ghost use Rattle.sd_encoding.specs.Writing.{pending};

use crate::buffer::Buffer;
use crate::bytes::{FULL, is_counted, write_front};
use std::alloc::AllocError;
use std::marker::Model;

/// Numbers as their bytes. The last byte is held back, since the zeros that follow the last number stand in it.
#[derive(Drop)]
pub struct Writer {
    bytes: Buffer,
    last: u8,
    begun: bool,
}

impl Model for Writer {
    ghost use Rattle.std.specs.Prelude.{ℕ, List};
    ghost use Rattle.sd_encoding.specs.Writing.{IsWritten, written};

    ghost Value = { List ℕ };

    ghost view = { λ w. written w.begun w.bytes w.last };

    ghost invariant = { λ w. IsWritten w.begun w.bytes w.last (written w.begun w.bytes w.last) };
}

/// Writes the byte that was held back, where there is one. The bytes stay as they are where memory runs out.
#[inline(always)]
fn write_pending(begun: bool, last: u8, into: &mut Buffer) -> Result<(), AllocError>
    ensures written { OnOk result (into.new ≡ into.old ++ pending begun last) }
    ensures kept { OnErr result (into.new ≡ into.old) }
{
    if begun {
        into.push(last)?;
    }
    Ok(())
}

impl Writer {
    /// No number yet. The bytes of numbers go where those of `room` stand.
    pub fn new(room: Vec<u8>) -> Writer
        ensures { result ≡ [] }
    {
        Writer {
            bytes: Buffer::new(room),
            last: FULL,
            begun: false,
        }
    }

    /// Writes a number more. Where memory runs out, the writer may have lost what was written.
    #[inline(always)]
    pub fn push(&mut self, number: u64) -> Result<(), AllocError>
        ensures { OnOk result (self.new ≡ self.old ++ number ∷ []) }
    {
        if is_counted(number, self.last) {
            self.last += 32;
            return Ok(());
        }
        write_pending(self.begun, self.last, &mut self.bytes)?;
        if number < 32 {
            self.last = number as u8;
            self.begun = true;
            return Ok(());
        }
        match write_front(number, &mut self.bytes) {
            Ok(last) => {
                self.last = last;
                self.begun = true;
                Ok(())
            }
            Err(error) => {
                self.bytes.clear();
                self.last = FULL;
                self.begun = false;
                Err(error)
            }
        }
    }

    /// The bytes of the numbers, each of which is below 2^64.
    pub fn finish(self) -> Result<Vec<u8>, AllocError>
        ensures bytes { IfOk result (λ bytes. bytes.items ≡ bytes_of self) }
        ensures small { All (λ n. n < 2 ^ 64) self }
    {
        let mut bytes = self.bytes;
        write_pending(self.begun, self.last, &mut bytes)?;
        Ok(bytes.into_bytes())
    }
}
