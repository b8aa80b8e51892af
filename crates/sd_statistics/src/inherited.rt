//! How long a thread has a priority that it inherits, and the greatest of these.
//!
//! Source: Solaris Internals (priority inheritance).

ghost use Rattle.std.specs.Prelude.{◌≡◌, ◌++◌, IfOk, OnOk, max, sum_by};
ghost use Rattle.sd_statistics.specs.Inherited.{greatest_inherited, inherited_priority, inherited_ticks};
ghost use Rattle.sd_statistics.specs.Spans.{at_most_u64};

use sd_stretches::Level;

// The ticks of the level, where its priority is inherited.
fn inherited_ticks(x: &Level) -> u32
    ensures { result ≡ inherited_ticks x.now }
{
    if x.inherited {
        x.to.saturating_sub(x.from)
    } else {
        0
    }
}

fn inherited_priority(x: &Level) -> u8
    ensures { result ≡ inherited_priority x.now }
{
    if x.inherited { x.priority } else { 0 }
}

/// The ticks of the levels whose priority is inherited, or the greatest number of 64 bits.
pub(crate) fn all_inherited(levels: &[Level]) -> u64
    ensures { result ≡ at_most_u64 (sum_by inherited_ticks levels.now) }
{
    let mut ticks = 0u64;
    for x in levels {
        ticks = ticks.saturating_add(u64::from(inherited_ticks(x)));
    }
    ticks
}

fn greater(x: u8, y: u8) -> u8
    ensures { result ≡ max x y }
{
    x.max(y)
}

/// The greatest inherited priority, 0 where none is inherited.
#[tactic(auto, unfolding(crate::specs::Inherited::greatest_inherited))]
pub(crate) fn greatest_inherited(levels: &[Level]) -> u8
    ensures { result ≡ greatest_inherited levels.now }
{
    let mut greatest = 0;
    let mut left = levels;
    while let Some((x, rest)) = left.split_first() {
        greatest = greater(greatest, inherited_priority(x));
        left = rest;
    }
    greatest
}
