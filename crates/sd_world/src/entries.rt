//! One entry more: what is done to the homes of a hand, to the counts and duties of the processors, and to the log.

ghost use Rattle.std.specs.Prelude.{◌≡◌, ◌<◌};
ghost use Rattle.sd_world.specs.Entries.{CanEnter, Enters};
ghost use Rattle.sd_world.specs.Worlds.{HasRoomFor};

use sd_basics::known;
use sd_hand::{Acting, Actor};
use sd_log::EntryLog;
use sd_step::after;
use sd_types::{Event, Hints, MOST_ENTRIES, Stop, Work};

/// Makes room in the log for one entry. `Full` exactly where it has 2^40 entries or more.
pub fn reserve_entry(entries: &mut EntryLog) -> Result<(), Stop>
    ensures same { entries.new.items ≡ entries.old.items }
    ensures room { HasRoomFor entries.old.items entries.new.room result }
{
    if entries.len() >= MOST_ENTRIES {
        return Err(Stop::Full);
    }
    if entries.reserve().is_err() {
        return Err(Stop::Memory);
    }
    Ok(())
}

/// Makes the event of the processor that acts, in the homes of its hand, which have all that it touches. The list of processors has
/// its count and its duty after it, and the log, in which there is room, the entry.
pub(crate) fn enter(
    work: &Work,
    acting: &mut Acting,
    actors: &mut Vec<Actor>,
    entries: &mut EntryLog,
    event: Event,
    hints: &Option<Hints>,
)
    requires can { CanEnter work.now acting.old actors.old.items entries.old.items event hints.now }
    requires room { 0 < entries.old.room }
    ensures { Enters work.now acting.old acting.new actors.old.items actors.new.items entries.old.items entries.new.items event hints.now }
{
    let number = entries.len() as u64;
    let cpu = acting.actor.cpu;
    match after(work, acting, number, cpu, event) {
        Ok(()) => {}
        Err(_) => {
            known(false);
            unreachable!()
        }
    }
    actors[cpu.0 as usize] = acting.actor;
    entries.push_reserved(cpu, event, hints);
}
