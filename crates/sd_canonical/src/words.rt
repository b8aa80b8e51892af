//! The words of lines. Each function appends a text. Where memory runs out it may have appended a part of it: the caller
//! writes into a text of its own, which it then gives up.

ghost use Rattle.std.specs.Prelude.{◌≡◌, ◌++◌, ◌∷◌, [], OnOk, decimal};
ghost use Rattle.std.specs.Fmt.{signed_decimal};
ghost use Rattle.sd_state.specs.Texts.{chan_name, lock_name, thread_name};
ghost use Rattle.sd_machine.specs.Texts.{set_name};
ghost use Rattle.sd_canonical.specs.Lines.{quantum_word};

use itoa::Buffer;
use sd_entries::{put_chan_name, put_lock_name, put_set_name, put_thread_name};
use sd_text::put_number;
use sd_types::{ChanId, LockId, Quantum, SetId, ThreadId, Work};
use std::alloc::AllocError;

/// ` word`
pub(crate) fn put_space_word(word: &[u8], out: &mut Vec<u8>) -> Result<(), AllocError>
    ensures { OnOk result (out.new.items ≡ out.old.items ++ (32 ∷ word.now)) }
{
    out.extend_from_slice(b" ")?;
    out.extend_from_slice(word)
}

/// ` 7`
pub(crate) fn put_space_number(n: u64, out: &mut Vec<u8>) -> Result<(), AllocError>
    ensures { OnOk result (out.new.items ≡ out.old.items ++ (32 ∷ decimal n)) }
{
    out.extend_from_slice(b" ")?;
    put_number(out, n)
}

/// ` -7`
pub(crate) fn put_space_signed(n: i32, out: &mut Vec<u8>) -> Result<(), AllocError>
    ensures { OnOk result (out.new.items ≡ out.old.items ++ (32 ∷ signed_decimal n)) }
{
    let mut buffer = Buffer::new();
    out.extend_from_slice(b" ")?;
    out.extend_from_slice(buffer.format(n).as_bytes())
}

/// ` t`
pub(crate) fn put_space_thread(
    work: &Work,
    t: ThreadId,
    out: &mut Vec<u8>,
) -> Result<(), AllocError>
    ensures { OnOk result (out.new.items ≡ out.old.items ++ (32 ∷ thread_name work.now t.0)) }
{
    out.extend_from_slice(b" ")?;
    put_thread_name(work, t.0 as usize, out)
}

/// ` l`
pub(crate) fn put_space_lock(work: &Work, l: LockId, out: &mut Vec<u8>) -> Result<(), AllocError>
    ensures { OnOk result (out.new.items ≡ out.old.items ++ (32 ∷ lock_name work.now l.0)) }
{
    out.extend_from_slice(b" ")?;
    put_lock_name(work, l, out)
}

/// ` k`
pub(crate) fn put_space_chan(work: &Work, k: ChanId, out: &mut Vec<u8>) -> Result<(), AllocError>
    ensures { OnOk result (out.new.items ≡ out.old.items ++ (32 ∷ chan_name work.now k.0)) }
{
    out.extend_from_slice(b" ")?;
    put_chan_name(work, k, out)
}

/// ` s`
pub(crate) fn put_space_set(work: &Work, p: SetId, out: &mut Vec<u8>) -> Result<(), AllocError>
    ensures { OnOk result (out.new.items ≡ out.old.items ++ (32 ∷ set_name work.now p.0)) }
{
    out.extend_from_slice(b" ")?;
    put_set_name(work, p, out)
}

/// ` def`, ` inf` or ` 7`
pub(crate) fn put_space_quantum(quantum: Quantum, out: &mut Vec<u8>) -> Result<(), AllocError>
    ensures { OnOk result (out.new.items ≡ out.old.items ++ (32 ∷ quantum_word quantum)) }
{
    match quantum {
        Quantum::Def => out.extend_from_slice(b" def"),
        Quantum::Inf => out.extend_from_slice(b" inf"),
        Quantum::Ticks(n) => put_space_number(u64::from(n), out),
    }
}

/// The end of a line.
pub(crate) fn put_newline(out: &mut Vec<u8>) -> Result<(), AllocError>
    ensures { OnOk result (out.new.items ≡ out.old.items ++ 10 ∷ []) }
{
    out.extend_from_slice(b"\n")
}
