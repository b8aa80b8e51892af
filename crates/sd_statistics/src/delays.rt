//! The time from each wakeup of a thread to its running.
//!
//! Source: Solaris Internals (dispatch latency); the measure in ticks is this project's own.

ghost use Rattle.std.specs.Prelude.{◌≡◌, ◌++◌, IfOk, OnOk};
ghost use Rattle.sd_statistics.specs.Delays.{delay_if, delay_to, delays_of, first_run, runs_after};

use crate::spans::{Span, state_after};
use sd_stretches::{Stretch, Wakeup, does_run};
use std::alloc::{AllocError, Global};

fn runs_after(entry: u64, x: &Stretch) -> bool
    ensures { result ≡ runs_after entry x.now }
{
    entry < x.first && does_run(x.doing)
}

// The first stretch behind the entry over which the thread runs.
fn first_run(entry: u64, own: &[Stretch]) -> Option<Stretch>
    ensures { result ≡ first_run entry own.now }
{
    for x in own {
        if runs_after(entry, x) {
            return Some(*x);
        }
    }
    None
}

// From the wakeup to the stretch, where there is one.
fn push_delay_to(
    wakeup: &Wakeup,
    run: Option<Stretch>,
    out: &mut Vec<Span>,
) -> Result<(), AllocError>
    ensures { OnOk result (out.new.items ≡ out.old.items ++ delay_to wakeup.now run) }
{
    if let Some(x) = run {
        out.push(Span {
            thread: wakeup.woken.0 as usize,
            first: state_after(wakeup.entry),
            last: x.first.saturating_sub(1),
            from: wakeup.tick,
            to: x.from,
        })?;
    }
    Ok(())
}

// The same, where the wakeup is of the thread.
fn push_delay(
    t: usize,
    own: &[Stretch],
    wakeup: &Wakeup,
    out: &mut Vec<Span>,
) -> Result<(), AllocError>
    ensures { OnOk result (out.new.items ≡ out.old.items ++ delay_if t own.now wakeup.now) }
{
    if wakeup.woken.0 as usize != t {
        return Ok(());
    }
    push_delay_to(wakeup, first_run(wakeup.entry, own), out)
}

/// From each wakeup of thread `t` to the entry that then makes it run, where there is one; `own` are its stretches.
#[tactic(auto, unfolding(crate::specs::Delays::delays_of))]
pub(crate) fn delays_of(
    alloc: Global,
    t: usize,
    own: &[Stretch],
    wakeups: &[Wakeup],
) -> Result<Vec<Span>, AllocError>
    ensures { IfOk result (λ v. v.items ≡ delays_of t own.now wakeups.now) }
{
    let mut found = Vec::new(alloc);
    for x in wakeups {
        push_delay(t, own, x, &mut found)?;
    }
    Ok(found)
}
