//! The operations of a script.

ghost use Rattle.std.specs.Prelude.{◌≡◌, ◌++◌, OnOk};
ghost use Rattle.sd_gen.specs.Generated.{lock_line, locked_text, mutex_part, nap_part, nested_part, nested_text, part, part_drawn, read_part, round_text, script_text, write_part};

use crate::lines::{drawn, put, put_number_line};
use rand_pcg::Lcg64Xsh32;
use sd_text::put_number;
use std::alloc::AllocError;

/// A line of a word and the name of a lock.
fn put_lock_line(word: &[u8], lock: &[u8], a: u32, out: &mut Vec<u8>) -> Result<(), AllocError>
    ensures { OnOk result (out.new.items ≡ out.old.items ++ lock_line word.now lock.now a) }
{
    put(word, out)?;
    put(lock, out)?;
    put_number(out, u64::from(a))?;
    put(b"\n", out)
}

/// Takes a lock, runs for a tick, and gives it up.
fn put_locked(take: &[u8], lock: &[u8], a: u32, out: &mut Vec<u8>) -> Result<(), AllocError>
    ensures { OnOk result (out.new.items ≡ out.old.items ++ locked_text take.now lock.now a) }
{
    put_lock_line(take, lock, a, out)?;
    put(b"run 1\n", out)?;
    put_lock_line(b"exit ", lock, a, out)
}

/// Takes two mutexes, runs for two ticks, and gives them up.
fn put_nested(a: u32, b: u32, out: &mut Vec<u8>) -> Result<(), AllocError>
    ensures { OnOk result (out.new.items ≡ out.old.items ++ nested_text a b) }
{
    put_lock_line(b"enter ", b"m", a, out)?;
    put_lock_line(b"enter ", b"m", b, out)?;
    put(b"run 2\n", out)?;
    put_lock_line(b"exit ", b"m", b, out)?;
    put_lock_line(b"exit ", b"m", a, out)
}

fn put_mutex_part(generator: &mut Lcg64Xsh32, out: &mut Vec<u8>) -> Result<(), AllocError>
    ensures text { OnOk result (out.new.items ≡ out.old.items ++ (mutex_part generator.old).0) }
    ensures generator { OnOk result (generator.new ≡ (mutex_part generator.old).1) }
{
    let a = drawn(16, generator);
    put_locked(b"enter ", b"m", a, out)
}

fn put_nested_part(generator: &mut Lcg64Xsh32, out: &mut Vec<u8>) -> Result<(), AllocError>
    ensures text { OnOk result (out.new.items ≡ out.old.items ++ (nested_part generator.old).0) }
    ensures generator { OnOk result (generator.new ≡ (nested_part generator.old).1) }
{
    let a = drawn(15, generator);
    let more = drawn(15 - a, generator);
    put_nested(a, a + 1 + more, out)
}

fn put_read_part(generator: &mut Lcg64Xsh32, out: &mut Vec<u8>) -> Result<(), AllocError>
    ensures text { OnOk result (out.new.items ≡ out.old.items ++ (read_part generator.old).0) }
    ensures generator { OnOk result (generator.new ≡ (read_part generator.old).1) }
{
    let a = drawn(4, generator);
    put_locked(b"read ", b"w", a, out)
}

fn put_write_part(generator: &mut Lcg64Xsh32, out: &mut Vec<u8>) -> Result<(), AllocError>
    ensures text { OnOk result (out.new.items ≡ out.old.items ++ (write_part generator.old).0) }
    ensures generator { OnOk result (generator.new ≡ (write_part generator.old).1) }
{
    let a = drawn(4, generator);
    put_locked(b"write ", b"w", a, out)
}

fn put_nap_part(generator: &mut Lcg64Xsh32, out: &mut Vec<u8>) -> Result<(), AllocError>
    ensures text { OnOk result (out.new.items ≡ out.old.items ++ (nap_part generator.old).0) }
    ensures generator { OnOk result (generator.new ≡ (nap_part generator.old).1) }
{
    let ticks = drawn(50, generator) + 1;
    put_number_line(b"nap ", ticks, out)
}

#[tactic(auto, unfolding(crate::specs::Generated::part))]
fn put_part(kind: u32, generator: &mut Lcg64Xsh32, out: &mut Vec<u8>) -> Result<(), AllocError>
    ensures text { OnOk result (out.new.items ≡ out.old.items ++ (part kind generator.old).0) }
    ensures generator { OnOk result (generator.new ≡ (part kind generator.old).1) }
{
    match kind {
        0 => put_mutex_part(generator, out),
        1 => put_nested_part(generator, out),
        2 => put_read_part(generator, out),
        3 => put_write_part(generator, out),
        _ => put_nap_part(generator, out),
    }
}

/// One of five things.
fn put_drawn_part(generator: &mut Lcg64Xsh32, out: &mut Vec<u8>) -> Result<(), AllocError>
    ensures text { OnOk result (out.new.items ≡ out.old.items ++ (part_drawn generator.old).0) }
    ensures generator { OnOk result (generator.new ≡ (part_drawn generator.old).1) }
{
    let kind = drawn(5, generator);
    put_part(kind, generator, out)
}

/// A run, and one of five things.
#[tactic(auto, unfolding(crate::specs::Generated::round_text))]
fn put_round(generator: &mut Lcg64Xsh32, out: &mut Vec<u8>) -> Result<(), AllocError>
    ensures text { OnOk result (out.new.items ≡ out.old.items ++ (round_text generator.old).0) }
    ensures generator { OnOk result (generator.new ≡ (round_text generator.old).1) }
{
    let ticks = drawn(100, generator) + 1;
    put_number_line(b"run ", ticks, out)?;
    put_drawn_part(generator, out)
}

/// The script of thread `i`: three such rounds.
#[tactic(auto, unfolding(crate::specs::Generated::script_text))]
pub(crate) fn put_script(
    i: u32,
    generator: &mut Lcg64Xsh32,
    out: &mut Vec<u8>,
) -> Result<(), AllocError>
    ensures text { OnOk result (out.new.items ≡ out.old.items ++ (script_text i generator.old).0) }
    ensures generator { OnOk result (generator.new ≡ (script_text i generator.old).1) }
{
    put_number_line(b"script t", i, out)?;
    put_round(generator, out)?;
    put_round(generator, out)?;
    put_round(generator, out)?;
    put(b"end\n", out)
}
