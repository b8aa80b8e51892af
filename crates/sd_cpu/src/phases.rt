//! The phase of a processor: turns until one ticks or makes no entry.

ghost use Rattle.std.specs.Prelude.{◌≡◌};
ghost use Rattle.sd_cpu.specs.Attempts.{IsEmpty, IsSameWorld};
ghost use Rattle.sd_cpu.specs.Phases.{PhaseAnswers};

use crate::turns::turn;
use crate::{Gate, Turned};
use sd_types::{Stop, Work};
use sd_world::World;
use std::sync::Wait;

/// A phase: how many entries it made, which stays at the greatest `u64`, and its last turn, which ticked or made none.
#[derive(Clone, Copy)]
pub struct Phased {
    pub entries: u64,
    pub end: Turned,
}

/// Turns of the processor that acts, until one ticks or makes no entry: it waits for no tick of another processor. `number` is that of
/// the next turn; it rises by 1 with each, and stays at the greatest `u64`. Where a turn is refused, the entries of those before it stand.
pub fn phase<R: Wait, W: World, G: Gate>(
    rt: &R,
    world: &mut W,
    gate: &G,
    work: &Work,
    number: &mut u64,
) -> Result<Phased, Stop>
    requires good { W.good world.old }
    requires work { work.now ≡ (W.meaning world.old).work }
    requires empty { IsEmpty (W.meaning world.old) }
    ensures good { W.good world.new }
    ensures empty { IsEmpty (W.meaning world.new) }
    ensures world { IsSameWorld (W.meaning world.old) (W.meaning world.new) }
    ensures answers { PhaseAnswers (W.meaning world.old) (W.meaning world.new) number.old number.new result }
{
    let mut entries = 0u64;
    for _ in rt.forever() {
        let turned = turn(rt, world, gate, work, *number);
        *number = number.saturating_add(1);
        match turned {
            Err(stop) => return Err(stop),
            Ok(end) => match end {
                Turned::Acted { .. } => entries = entries.saturating_add(1),
                Turned::Ticked { .. } => {
                    entries = entries.saturating_add(1);
                    return Ok(Phased { entries, end });
                }
                Turned::Behind { .. } => return Ok(Phased { entries, end }),
                Turned::Finished => return Ok(Phased { entries, end }),
            },
        }
    }
    unreachable!()
}
