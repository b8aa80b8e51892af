//! The search itself, breadth first: the states that each turn of each processor leads to are put in, from the first state on.

ghost use Rattle.std.specs.Prelude.{◌≡◌, ◌+◌, ◌<◌, ◌≤◌, ◌⊎◌, ◌||◌, ℕ, Some, length, nat_le, IfOk, OnOk};
ghost use Rattle.sd_machine.specs.Events.{after, next};
ghost use Rattle.sd_machine.specs.Runs.{serial_hints};
ghost use Rattle.sd_search.specs.Closed.{Has};
ghost use Rattle.sd_search.specs.Spelled.{IsTurn};
ghost use Rattle.sd_state.specs.declared.states.State.{State as StateOf};
ghost use Rattle.sd_encoding.specs.Encoding.{IsHeld, encoded};
ghost use Rattle.sd_encoding.specs.Ranks.{ranked};
ghost use Rattle.sd_search.specs.Graphs.{AreTurned, Gathers, IsAmong, IsAt, IsGrown, IsTurned, packed};

use crate::graph::{Graph, Step};
use crate::room::Room;
use crate::store::insert;
use sd_replay::serial_next;
use sd_state::State;
use sd_types::{CpuId, Event, Work};
use std::alloc::{AllocError, Global};

/// The greatest number of a state that is expanded (this project's own): memory is taken to run out behind it, so that a step needs no
/// more than eight bytes.
const MOST_BEFORE: usize = 0xffff_ffff;

impl Graph {
    /// Puts in the state that a turn has led to, where it is not there yet.
    fn add(&mut self, alloc: Global, work: &Work, room: &Room, step: Step) -> Result<(), AllocError>
        requires gathered { Gathers work.now self.old }
        requires turn { (x : StateOf) × IsAt (packed self.old) step.before x × IsTurn work.now x step.cpu (ranked room.now.state) }
        requires held { IsHeld (ranked room.now.state) }
        requires bytes { room.now.bytes.items ≡ encoded (ranked room.now.state) }
        requires last { step.before ≡ self.old.done }
        ensures grown { OnOk result (IsGrown work.now self.old self.new) }
        ensures has { OnOk result (IsAmong (packed self.new) (ranked room.now.state)) }
        ensures few { OnOk result (length (packed self.new) ≤ length (packed self.old) + 1) }
    {
        let is_new = insert(alloc, &mut self.states, &room.bytes)?;
        if is_new {
            self.steps.push(step)?;
        }
        Ok(())
    }

    /// Puts in the state after an event of processor `c` in state number `i`, which is this one.
    fn follow(
        &mut self,
        alloc: Global,
        work: &Work,
        i: usize,
        from: &State,
        c: CpuId,
        event: Event,
        room: &mut Room,
    ) -> Result<(), AllocError>
        requires gathered { Gathers work.now self.old }
        requires at { IsAt (packed self.old) i from.now }
        requires last { i ≡ self.old.done }
        requires makes { next work.now from.now c (serial_hints work.now from.now c) ≡ Some event }
        ensures grown { OnOk result (IsGrown work.now self.old self.new) }
        ensures leads { OnOk result (Has (IsAmong (packed self.new)) (after work.now from.now 0 c event)) }
        ensures few { OnOk result (length (packed self.new) ≤ length (packed self.old) + 1) }
    {
        if i > MOST_BEFORE {
            return Err(AllocError);
        }
        room.take_turn(alloc, work, from, c, event)?;
        let before = i as u32;
        self.add(alloc, work, room, Step { before, cpu: c })
    }

    /// Puts in the state that the turn of processor `c` leads to from state number `i`, where it has one.
    fn visit(
        &mut self,
        alloc: Global,
        work: &Work,
        i: usize,
        state: &State,
        c: CpuId,
        room: &mut Room,
    ) -> Result<(), AllocError>
        requires gathered { Gathers work.now self.old }
        requires at { IsAt (packed self.old) i state.now }
        requires last { i ≡ self.old.done }
        requires cpu { c.0 < work.now.cpus }
        ensures grown { OnOk result (IsGrown work.now self.old self.new) }
        ensures turned { OnOk result (IsTurned work.now (packed self.new) state.now c) }
        ensures few { OnOk result (length (packed self.new) ≤ length (packed self.old) + 1) }
    {
        let (_, event) = serial_next(work, state, c);
        match event {
            Some(event) => self.follow(alloc, work, i, state, c, event, room),
            None => Ok(()),
        }
    }

    /// Puts in the states that the turns of all processors lead to from state number `i`, and answers whether it did: it stops
    /// where `most` are there.
    fn visit_all(
        &mut self,
        alloc: Global,
        work: &Work,
        i: usize,
        state: &State,
        most: usize,
        room: &mut Room,
    ) -> Result<bool, AllocError>
        requires gathered { Gathers work.now self.old }
        requires at { IsAt (packed self.old) i state.now }
        requires last { i ≡ self.old.done }
        requires few { length (packed self.old) ≤ most }
        ensures grown { OnOk result (IsGrown work.now self.old self.new) }
        ensures few { OnOk result (length (packed self.new) ≤ most) }
        ensures turned { IfOk result (λ all. AreTurned work.now (packed self.new) state.now most all) }
    {
        for c in 0..work.cpus {
            if self.states.len() >= most {
                return Ok(false);
            }
            self.visit(alloc, work, i, state, CpuId(c), room)?;
        }
        Ok(true)
    }

    /// Expands one state more, the first that is not, or goes as far in it as `most` states allow.
    pub(crate) fn expand(
        &mut self,
        alloc: Global,
        work: &Work,
        most: usize,
        room: &mut Room,
    ) -> Result<(), AllocError>
        requires gathered { Gathers work.now self.old }
        requires more { self.old.done < length (packed self.old) }
        requires few { length (packed self.old) ≤ most }
        ensures gathered { OnOk result (Gathers work.now self.new) }
        ensures few { OnOk result (length (packed self.new) ≤ most) }
        ensures done { OnOk result ((self.new.done ≡ self.old.done + 1) ⊎ (most ≤ length (packed self.new))) }
    {
        let i = self.done;
        let state = self.state(alloc, work, i)?;
        if !self.visit_all(alloc, work, i, &state, most, room)? {
            return Ok(());
        }
        self.done = i + 1;
        Ok(())
    }

    /// Each state was expanded: the search has looked at every order.
    pub fn is_closed(&self) -> bool
        ensures { result ≡ nat_le (length (packed self.now)) self.now.done }
    {
        self.states.len() <= self.done
    }

    /// How many states were expanded.
    pub fn expanded(&self) -> usize
        ensures { result ≡ self.now.done }
    {
        self.done
    }

    /// Each state was expanded, or `most` were found: a search that is to end there goes on no more.
    pub fn is_over(&self, most: usize) -> bool
        ensures { result ≡ nat_le (length (packed self.now)) self.now.done || nat_le most (length (packed self.now)) }
    {
        self.is_closed() || most <= self.states.len()
    }
}
