//! The lines of the blocking cycles of a state.

ghost use Rattle.std.specs.Prelude.{◌≡◌, ◌++◌, OnOk, codes, flat_map, map};
ghost use Rattle.sd_state.specs.States.{thread_of};
ghost use Rattle.sd_state.specs.Texts.{thread_name};
ghost use Rattle.sd_machine.specs.LockGraph.{cycles_of};
ghost use Rattle.sd_machine.specs.Texts.{cycle_line, cycle_word, cycles_text, waited_name};

use sd_entries::{put_lock_name, put_thread_name};
use sd_state::{Place, State};
use sd_types::Work;
use std::alloc::AllocError;

// The name of the lock for which a thread in this place waits.
fn put_waited_name(work: &Work, place: Place, out: &mut Vec<u8>) -> Result<(), AllocError>
    ensures { OnOk result (out.new.items ≡ out.old.items ++ waited_name work.now place) }
{
    match place {
        Place::Waiting(l, _, _) => put_lock_name(work, l, out),
        _ => Ok(()),
    }
}

fn put_waited_of(work: &Work, s: &State, t: usize, out: &mut Vec<u8>) -> Result<(), AllocError>
    ensures { OnOk result (out.new.items ≡ out.old.items ++ waited_name work.now (thread_of s.now t).place) }
{
    match s.threads.items().get(t) {
        Some(x) => put_waited_name(work, x.place, out),
        None => Ok(()),
    }
}

// ` t l`
fn put_cycle_word(work: &Work, s: &State, t: usize, out: &mut Vec<u8>) -> Result<(), AllocError>
    ensures { OnOk result (out.new.items ≡ out.old.items ++ cycle_word work.now s.now t) }
{
    out.extend_from_slice(b" ")?;
    put_thread_name(work, t, out)?;
    out.extend_from_slice(b" ")?;
    put_waited_of(work, s, t, out)
}

fn put_cycle_words(
    work: &Work,
    s: &State,
    threads: &[usize],
    out: &mut Vec<u8>,
) -> Result<(), AllocError>
    ensures { OnOk result (out.new.items ≡ out.old.items ++ flat_map (cycle_word work.now s.now) threads.now) }
{
    for t in threads {
        put_cycle_word(work, s, *t, out)?;
    }
    Ok(())
}

#[tactic(auto, unfolding(sd_machine::specs::Texts::cycle_line))]
fn put_cycle_line(
    work: &Work,
    s: &State,
    threads: &[usize],
    out: &mut Vec<u8>,
) -> Result<(), AllocError>
    ensures { OnOk result (out.new.items ≡ out.old.items ++ cycle_line work.now s.now threads.now) }
{
    out.extend_from_slice(b"cycle")?;
    put_cycle_words(work, s, threads, out)?;
    out.extend_from_slice(b"\n")
}

fn put_cycle_lines(
    work: &Work,
    s: &State,
    cycles: &[Vec<usize>],
    out: &mut Vec<u8>,
) -> Result<(), AllocError>
    ensures { OnOk result (out.new.items ≡ out.old.items ++ flat_map (cycle_line work.now s.now) (map (λ v. v.items) cycles.now)) }
{
    for threads in cycles {
        put_cycle_line(work, s, threads, out)?;
    }
    Ok(())
}

/// Puts a line for each blocking cycle of the state, which are these, in order of their least threads: `cycle`, and from that thread
/// on each thread's name and the name of the lock for which it waits.
#[tactic(auto, unfolding(sd_machine::specs::Texts::cycles_text))]
pub(crate) fn put_cycles(
    work: &Work,
    s: &State,
    cycles: &[Vec<usize>],
    out: &mut Vec<u8>,
) -> Result<(), AllocError>
    requires { map (λ v. v.items) cycles.now ≡ cycles_of s.now }
    ensures { OnOk result (out.new.items ≡ out.old.items ++ cycles_text work.now s.now) }
{
    put_cycle_lines(work, s, cycles, out)
}
