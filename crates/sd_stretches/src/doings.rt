//! What a thread does, in words. Each function appends a text, and nothing where memory runs out.

ghost use Rattle.std.specs.Prelude.{◌≡◌, ◌++◌, OnErr, OnOk, decimal};
ghost use Rattle.sd_stretches.specs.Doings.{doing_text, spinning_text};

use crate::Doing;
use crate::names::{chan_name, lock_name};
use sd_text::put_number;
use sd_types::Work;
use std::alloc::AllocError;

/// `word7`
pub fn put_counted(word: &[u8], n: u64, out: &mut Vec<u8>) -> Result<(), AllocError>
    ensures ok { OnOk result (out.new.items ≡ out.old.items ++ (word.now ++ decimal n)) }
    ensures kept { OnErr result (out.new.items ≡ out.old.items) }
{
    let before = out.len();
    out.extend_from_slice(word)?;
    if let Err(error) = put_number(out, n) {
        out.truncate(before);
        return Err(error);
    }
    Ok(())
}

// A word and a name behind it.
fn put_named(word: &[u8], name: &[u8], out: &mut Vec<u8>) -> Result<(), AllocError>
    ensures ok { OnOk result (out.new.items ≡ out.old.items ++ (word.now ++ name.now)) }
    ensures kept { OnErr result (out.new.items ≡ out.old.items) }
{
    let before = out.len();
    out.extend_from_slice(word)?;
    if let Err(error) = out.extend_from_slice(name) {
        out.truncate(before);
        return Err(error);
    }
    Ok(())
}

// On which processor a thread spins for a lock.
#[tactic(auto, unfolding(crate::specs::Doings::spinning_text))]
fn put_spinning(c: u64, lock: &[u8], out: &mut Vec<u8>) -> Result<(), AllocError>
    ensures ok { OnOk result (out.new.items ≡ out.old.items ++ spinning_text c lock.now) }
    ensures kept { OnErr result (out.new.items ≡ out.old.items) }
{
    let before = out.len();
    put_counted(b"spins on processor ", c, out)?;
    if let Err(error) = put_named(b" for ", lock, out) {
        out.truncate(before);
        return Err(error);
    }
    Ok(())
}

/// What a thread does.
pub fn put_doing(work: &Work, doing: Doing, out: &mut Vec<u8>) -> Result<(), AllocError>
    ensures ok { OnOk result (out.new.items ≡ out.old.items ++ doing_text work.now doing) }
    ensures kept { OnErr result (out.new.items ≡ out.old.items) }
{
    match doing {
        Doing::Running(c) => put_counted(b"runs on processor ", u64::from(c.0), out),
        Doing::Spinning(c, l) => put_spinning(u64::from(c.0), lock_name(work, l), out),
        Doing::Runnable => out.extend_from_slice(b"runnable"),
        Doing::Waiting(l) => put_named(b"waits for ", lock_name(work, l), out),
        Doing::Asleep(k) => put_named(b"asleep on ", chan_name(work, k), out),
        Doing::Napping => out.extend_from_slice(b"naps"),
        Doing::Ended => out.extend_from_slice(b"has ended"),
    }
}
