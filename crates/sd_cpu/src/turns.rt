//! The turn of a processor: attempts until nobody is in the way.

ghost use Rattle.std.specs.Prelude.{◌≡◌};
ghost use Rattle.sd_cpu.specs.Attempts.{IsEmpty, IsSameWorld};
ghost use Rattle.sd_cpu.specs.Turns.{TurnAnswers};

use crate::{Attempted, Gate, Turned, attempt};
use sd_types::{Stop, Work};
use sd_world::World;
use std::sync::Wait;
use std::thread;

/// The turn of the processor that acts: it makes at most one entry, and ends with no home held. Where another processor is in the way it
/// gives all homes back and tries again.
pub fn turn<R: Wait, W: World, G: Gate>(
    rt: &R,
    world: &mut W,
    gate: &G,
    work: &Work,
    turn: u64,
) -> Result<Turned, Stop>
    requires good { W.good world.old }
    requires work { work.now ≡ (W.meaning world.old).work }
    requires empty { IsEmpty (W.meaning world.old) }
    ensures good { W.good world.new }
    ensures empty { IsEmpty (W.meaning world.new) }
    ensures world { IsSameWorld (W.meaning world.old) (W.meaning world.new) }
    ensures answers { TurnAnswers (W.meaning world.old) (W.meaning world.new) result }
{
    let mut passed = false;
    for _ in rt.forever() {
        match attempt(world, gate, work, turn, passed) {
            Err(stop) => return Err(stop),
            Ok(attempted) => match attempted {
                Attempted::Made(turned) => return Ok(turned),
                Attempted::Again { passed: by_now } => passed = by_now,
            },
        }
        thread::yield_now();
    }
    unreachable!()
}
