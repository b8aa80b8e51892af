//! The holds of a part of a run.

ghost use Rattle.std.specs.Prelude.{◌≡◌, ◌++◌, ◌∷◌, [], IfOk, OnOk, filter, if◌then◌else◌};
ghost use Rattle.sd_holds.specs.Bands.{holds_between, lies_between};
ghost use Rattle.sd_holds.specs.Holds.{hold_if, taken};

use crate::holdings::{Hold, end_of, hold_to, taken};
use sd_stretches::Happening;
use std::alloc::{AllocError, Global};

/// Some of the hold lies in the ticks from `from` to `to`.
pub(crate) fn lies_between(from: u32, to: u32, x: &Hold) -> bool
    ensures { result ≡ lies_between from to x.now }
{
    x.from < x.to && x.from < to && from < x.to
}

fn push_between(from: u32, to: u32, x: Hold, found: &mut Vec<Hold>) -> Result<(), AllocError>
    ensures { OnOk result (found.new.items ≡ found.old.items ++ filter (lies_between from to) (x ∷ [])) }
{
    if lies_between(from, to, &x) {
        found.push(x)?;
    }
    Ok(())
}

// The hold that the entry begins, if some of it lies in these ticks. Where the entry comes behind them, its end is not looked for.
#[tactic(auto, using(crate::proofs::PartLemmas::late_if))]
fn push_begun(
    end: u32,
    from: u32,
    to: u32,
    x: &Happening,
    rest: &[Happening],
    found: &mut Vec<Hold>,
) -> Result<(), AllocError>
    ensures { OnOk result (found.new.items ≡ found.old.items ++ filter (lies_between from to) (hold_if end x.now rest.now (taken x.now.event))) }
{
    if to <= x.tick {
        return Ok(());
    }
    match taken(x.event) {
        Some((t, l)) => push_between(from, to, hold_to(t, l, end, x, end_of(t, l, rest)), found),
        None => Ok(()),
    }
}

/// The holds of a run that ended at this tick, of which some lies in the ticks from `from` to `to`, in the order in which they begin.
#[tactic(auto, unfolding(crate::specs::Bands::holds_between))]
pub fn holds_between(
    alloc: Global,
    happenings: &[Happening],
    end: u32,
    from: u32,
    to: u32,
) -> Result<Vec<Hold>, AllocError>
    ensures { IfOk result (λ v. v.items ≡ holds_between end from to happenings.now) }
{
    let mut found = Vec::new(alloc);
    let mut left = happenings;
    while let Some((x, rest)) = left.split_first() {
        push_begun(end, from, to, x, rest, &mut found)?;
        left = rest;
    }
    Ok(found)
}
