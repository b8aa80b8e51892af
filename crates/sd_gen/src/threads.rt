//! The threads, and the whole text.

ghost use Rattle.std.specs.Prelude.{◌≡◌, ◌<◌, ◌++◌, OnErr, OnOk, flat_map};
ghost use Rattle.std.specs.List.{range_with_len};
ghost use Rattle.sd_gen.specs.Generated.{class_text, drawn_from, drawn_text, generated, locks_text, number_line, priorities, script_text, set_text, thread_line, thread_text};

use crate::lines::{drawn, put, put_number_line};
use crate::parts::put_script;
use rand_pcg::Lcg64Xsh32;
use sd_text::put_number;
use std::alloc::{AllocError, Global};

const THREADS: u32 = 200;

/// From how many priorities the one of a class is drawn.
fn priorities(class: u32) -> u32
    ensures value { result ≡ priorities class }
    ensures some { 0 < result }
{
    if class == 8 { 40 } else { 60 }
}

fn put_class(class: u32, p: u32, out: &mut Vec<u8>) -> Result<(), AllocError>
    requires { p < 60 }
    ensures { OnOk result (out.new.items ≡ out.old.items ++ class_text class p) }
{
    let number = u64::from(p);
    if class < 6 {
        put(b" ts ", out)?;
        put_number(out, number)?;
        put(b" 0 0", out)
    } else if class < 8 {
        put(b" fx 60 ", out)?;
        put_number(out, number)?;
        put(b" def", out)
    } else if class == 8 {
        put(b" sys ", out)?;
        put_number(out, 60 + number)
    } else {
        put(b" rt ", out)?;
        put_number(out, number)?;
        put(b" def", out)
    }
}

fn put_set(one_of_eight: u32, out: &mut Vec<u8>) -> Result<(), AllocError>
    ensures { OnOk result (out.new.items ≡ out.old.items ++ set_text one_of_eight) }
{
    if one_of_eight == 0 {
        put(b" in s", out)
    } else {
        Ok(())
    }
}

fn put_thread(
    i: u32,
    class: u32,
    p: u32,
    one_of_eight: u32,
    out: &mut Vec<u8>,
) -> Result<(), AllocError>
    requires { p < 60 }
    ensures { OnOk result (out.new.items ≡ out.old.items ++ thread_text i class p one_of_eight) }
{
    put(b"thread t", out)?;
    put_number(out, u64::from(i))?;
    put_class(class, p, out)?;
    put_set(one_of_eight, out)?;
    put(b"\n", out)
}

/// Thread `i`, of a class, a priority and a set that are drawn.
#[tactic(auto, unfolding(crate::specs::Generated::thread_line))]
fn put_drawn_thread(i: u32, generator: &mut Lcg64Xsh32, out: &mut Vec<u8>) -> Result<(), AllocError>
    ensures text { OnOk result (out.new.items ≡ out.old.items ++ (thread_line i generator.old).0) }
    ensures generator { OnOk result (generator.new ≡ (thread_line i generator.old).1) }
{
    let class = drawn(10, generator);
    let p = drawn(priorities(class), generator);
    let one_of_eight = drawn(8, generator);
    put_thread(i, class, p, one_of_eight, out)
}

fn put_threads(generator: &mut Lcg64Xsh32, out: &mut Vec<u8>) -> Result<(), AllocError>
    ensures text { OnOk result (out.new.items ≡ out.old.items ++ (drawn_from thread_line 200 0 generator.old).0) }
    ensures generator { OnOk result (generator.new ≡ (drawn_from thread_line 200 0 generator.old).1) }
{
    for i in 0..THREADS {
        put_drawn_thread(i, generator, out)?;
    }
    Ok(())
}

fn put_scripts(generator: &mut Lcg64Xsh32, out: &mut Vec<u8>) -> Result<(), AllocError>
    ensures text { OnOk result (out.new.items ≡ out.old.items ++ (drawn_from script_text 200 0 generator.old).0) }
    ensures generator { OnOk result (generator.new ≡ (drawn_from script_text 200 0 generator.old).1) }
{
    for i in 0..THREADS {
        put_script(i, generator, out)?;
    }
    Ok(())
}

fn put_lines(word: &[u8], count: u32, out: &mut Vec<u8>) -> Result<(), AllocError>
    ensures { OnOk result (out.new.items ≡ out.old.items ++ flat_map (number_line word.now) (range_with_len 0 count)) }
{
    for i in 0..count {
        put_number_line(word, i, out)?;
    }
    Ok(())
}

/// Threads and scripts.
fn put_drawn(generator: &mut Lcg64Xsh32, out: &mut Vec<u8>) -> Result<(), AllocError>
    ensures { OnOk result (out.new.items ≡ out.old.items ++ (drawn_text generator.old).0) }
{
    put_threads(generator, out)?;
    put_scripts(generator, out)
}

/// The locks.
fn put_locks(out: &mut Vec<u8>) -> Result<(), AllocError>
    ensures { OnOk result (out.new.items ≡ out.old.items ++ locks_text) }
{
    put_lines(b"mutex m", 16, out)?;
    put_lines(b"rwlock w", 4, out)
}

/// The whole text, behind what is there.
#[tactic(auto, unfolding(crate::specs::Generated::generated))]
fn put_generated(n: u32, out: &mut Vec<u8>) -> Result<(), AllocError>
    ensures { OnOk result (out.new.items ≡ out.old.items ++ generated n) }
{
    let mut generator = Lcg64Xsh32::new(u64::from(n), 2);
    put(b"cpus 8\nlimit 10000\nset s 6 7\n", out)?;
    put_locks(out)?;
    put_drawn(&mut generator, out)
}

/// Appends the generated workload of `n`. Where memory runs out, `out` is as it was.
pub fn generate(alloc: Global, n: u32, out: &mut Vec<u8>) -> Result<(), AllocError>
    ensures ok { OnOk result (out.new.items ≡ out.old.items ++ generated n) }
    ensures err { OnErr result (out.new.items ≡ out.old.items) }
{
    let mut text = Vec::new(alloc);
    put_generated(n, &mut text)?;
    out.extend_from_slice(&text)
}
