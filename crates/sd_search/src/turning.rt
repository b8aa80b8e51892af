//! The turns of processors from states that were expanded.

ghost use Rattle.std.specs.Prelude.{◌≡◌, ◌<◌, Some, IfOk};
ghost use Rattle.sd_machine.specs.Events.{next};
ghost use Rattle.sd_machine.specs.Runs.{serial_hints};
ghost use Rattle.sd_state.specs.declared.states.State.{State as StateOf};
ghost use Rattle.sd_search.specs.Graphs.{Gathers, IsAt, packed};
ghost use Rattle.sd_search.specs.Turns.{IsTurnOf, LeadsTo};

use crate::graph::Graph;
use crate::room::Room;
use crate::store::index_of;
use sd_replay::serial_next;
use sd_state::State;
use sd_types::{CpuId, Event, Work};
use std::alloc::{AllocError, Global};

/// The event that a processor makes in its turn, and the number of the state that it leads to.
#[derive(Clone, Copy)]
pub struct Turn {
    pub event: Event,
    pub to: usize,
}

impl Graph {
    /// The number of the state after an event of processor `c` in state number `i`, which is this one and was expanded.
    fn number_after(
        &self,
        alloc: Global,
        work: &Work,
        i: usize,
        from: &State,
        c: CpuId,
        event: Event,
    ) -> Result<usize, AllocError>
        requires gathered { Gathers work.now self.now }
        requires expanded { i < self.now.done }
        requires at { IsAt (packed self.now) i from.now }
        requires makes { next work.now from.now c (serial_hints work.now from.now c) ≡ Some event }
        ensures { IfOk result (LeadsTo work.now (packed self.now) from.now c event) }
    {
        let mut room = Room::new(alloc);
        room.take_turn(alloc, work, from, c, event)?;
        match index_of(&self.states, &room.bytes) {
            Some(j) => Ok(j),
            None => unreachable!(),
        }
    }

    /// The turn of processor `c` from state number `i`, which is this one and was expanded; None where it has none.
    pub fn turn(
        &self,
        alloc: Global,
        work: &Work,
        i: usize,
        state: &State,
        c: CpuId,
    ) -> Result<Option<Turn>, AllocError>
        requires gathered { Gathers work.now self.now }
        requires at { IsAt (packed self.now) i state.now }
        requires expanded { i < self.now.done }
        requires cpu { c.0 < work.now.cpus }
        ensures { IfOk result (IsTurnOf work.now (packed self.now) state.now c) }
    {
        let (_, event) = serial_next(work, state, c);
        match event {
            Some(event) => {
                let to = self.number_after(alloc, work, i, state, c, event)?;
                Ok(Some(Turn { event, to }))
            }
            None => Ok(None),
        }
    }
}
