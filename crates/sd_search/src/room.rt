//! Memory for a turn, which is kept from one turn to the next.

ghost use Rattle.std.specs.Prelude.{◌≡◌, OnOk};
ghost use Rattle.sd_encoding.specs.Encoding.{IsHeld, encoded};
ghost use Rattle.sd_encoding.specs.Ranks.{ranked};
ghost use Rattle.sd_invariants.specs.Laws.{IsFit};
ghost use Rattle.sd_machine.specs.Events.{after};
ghost use Rattle.sd_machine.specs.Needs.{Needs};

use crate::copying::copy_state;
use crate::packing::pack;
use sd_replay::apply;
use sd_state::State;
use sd_types::{CpuId, Event, List, Work};
use std::alloc::{AllocError, Global};
use std::mem::replace;

/// A state that a turn leads to, and its bytes, with its rank for each key.
#[derive(Drop)]
pub(crate) struct Room {
    pub(crate) state: State,
    pub(crate) bytes: Vec<u8>,
}

impl Room {
    /// Room that was not used yet: it has no memory.
    pub(crate) fn new(alloc: Global) -> Room {
        let state = State {
            threads: List::from_vec(Vec::new(alloc)),
            locks: List::from_vec(Vec::new(alloc)),
            cpus: List::from_vec(Vec::new(alloc)),
            counts: List::from_vec(Vec::new(alloc)),
            open_cpus: List::from_vec(Vec::new(alloc)),
        };
        Room {
            state,
            bytes: Vec::new(alloc),
        }
    }

    /// Makes the state after an event of processor `c` in this state, and its bytes.
    pub(crate) fn take_turn(
        &mut self,
        alloc: Global,
        work: &Work,
        from: &State,
        c: CpuId,
        event: Event,
    ) -> Result<(), AllocError>
        requires fit { IsFit work.now from.now }
        requires needs { Needs work.now from.now c event }
        ensures state { OnOk result (self.new.state ≡ after work.now from.now 0 c event) }
        ensures bytes { OnOk result (self.new.bytes.items ≡ encoded (ranked self.new.state)) }
        ensures held { OnOk result (IsHeld (ranked self.new.state)) }
    {
        copy_state(alloc, from, &mut self.state)?;
        apply(work, &mut self.state, 0, c, event);
        let room = replace(&mut self.bytes, Vec::new(alloc));
        self.bytes = pack(&self.state, room)?;
        Ok(())
    }
}
