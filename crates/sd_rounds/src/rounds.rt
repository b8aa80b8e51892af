//! Rounds, until one makes no entry.

ghost use Rattle.std.specs.Prelude.{◌≡◌, ◌++◌, ◌<◌, ◌≤◌, ℕ, length, OnOk, IfErr, IfOk, IsErrOf};
ghost use Rattle.sd_machine.specs.Runs.{final, round, state_at, IsComplete, IsRun, IsSerial};
ghost use Rattle.sd_hand.specs.OneHome.{StandsInHomes};
ghost use Rattle.sd_state.specs.Opening.{opening};
ghost use Rattle.sd_rounds.specs.Floors.{IsFloor};
ghost use Rattle.sd_rounds.specs.Orders.{orders_of};
ghost use Rattle.sd_rounds.specs.Rounds.{IsLongRun, IsLongSerial};
ghost use Rattle.sd_rounds.specs.Searched.{IsSearched};
ghost use Rattle.sd_world.specs.Plain.{Stands, told};
ghost use Rattle.sd_world.specs.Worlds.{Begins};

use crate::orders::{RoundOrder, draw_order, first_generator, rising};
use crate::sight::Searched;
use crate::turns::take_turn;
use sd_cpu::{Gate, pass_gate};
use sd_log::EntryLog;
use sd_state::State;
use sd_types::{CpuId, MOST_ENTRIES, Stop, Work};
use sd_world::PlainWorld;
use std::alloc::Global;

/// A whole run: its entries, and the state after them.
#[derive(Drop)]
pub struct Finished {
    pub state: State,
    pub entries: EntryLog,
}

/// Processor `c` passes the gate, in the round of this number. Before these rounds it had so many turns, or none where the list does not
/// say.
#[inline(always)]
fn pass<G: Gate>(gate: &G, world: &PlainWorld, before: &[u64], round: u64, c: CpuId) {
    if gate.is_open() {
        return;
    }
    let first = before.get(c.0 as usize).copied().unwrap_or(0);
    if let Some(actor) = world.actors.get(c.0 as usize) {
        pass_gate(
            gate,
            first.saturating_add(round),
            *actor,
            &world.acting.hand,
        );
    }
}

/// One round: each processor of the order passes the gate and has a turn. `Full` only where the entries with those of this round
/// are 2^40 or more. Memory runs out only where the log holds fewer. No processor's count is below the floor, and there is nothing to steal in the
/// set that was searched, before and after. It is inline in the loops over rounds, since a round of one processor is a turn.
#[inline(always)]
fn run_round<G: Gate>(
    gate: &G,
    before: &[u64],
    number: u64,
    work: &Work,
    world: &mut PlainWorld,
    floor: &mut u32,
    searched: &mut Option<Searched>,
    order: &[CpuId],
) -> Result<(), Stop>
    requires stands { Stands work.now world.old }
    requires least { IsFloor work.now (told work.now world.old) floor.old }
    requires searched { IsSearched (told work.now world.old) searched.old }
    requires work { world.old.work.now ≡ work.now }
    requires room { length world.old.entries.items ≤ MOST_ENTRIES }
    ensures stands { Stands work.now world.new }
    ensures work { world.new.work.now ≡ work.now }
    ensures entries { OnOk result (world.new.entries.items
        ≡ world.old.entries.items ++ round work.now (told work.now world.old) (length world.old.entries.items) order.now) }
    ensures room { OnOk result (length world.new.entries.items ≤ MOST_ENTRIES) }
    ensures begins { OnOk result (0 < length order.now → length world.old.entries.items < MOST_ENTRIES) }
    ensures full { IsErrOf result Stop.Full
        → MOST_ENTRIES ≤ length (world.old.entries.items ++ round work.now (told work.now world.old) (length world.old.entries.items) order.now) }
    ensures long { IsErrOf result Stop.Full → MOST_ENTRIES ≤ length world.new.entries.items }
    ensures memory { IsErrOf result Stop.Memory → length world.new.entries.items < MOST_ENTRIES }
    ensures least { OnOk result (IsFloor work.now (told work.now world.new) floor.new) }
    ensures searched { IsSearched (told work.now world.new) searched.new }
{
    for c in order {
        pass(gate, world, before, number, *c);
        if let Err(stop) = take_turn(work, world, floor, searched, *c) {
            return Err(stop);
        }
    }
    Ok(())
}

/// The run, as far as it was made, with the state as its homes have it. `Memory` where that runs out, and no other error.
fn finish(alloc: Global, work: &Work, world: PlainWorld) -> Result<Finished, Stop>
    requires stands { Stands work.now world }
    ensures entries { IfOk result (λ r. r.entries.items ≡ world.entry.entries.items) }
    ensures state { IfOk result (λ r. r.state ≡ told work.now world.entry) }
    ensures memory { IfErr result (λ stop. stop ≡ Stop.Memory) }
{
    let Ok(state) = world.state(alloc, work) else {
        return Err(Stop::Memory);
    };
    let PlainWorld { entries, .. } = world;
    Ok(Finished { state, entries })
}

/// The run of the workload that goes in rounds, in which the processors take turns so, and pass the gate in each. `Full` only where it has 2^40
/// entries or more, and then it is never returned whole: what `Memory` may stand for instead of a run or of `Full` is
/// only that memory ran out.
#[inline(never)]
pub fn run_rounds<G: Gate>(
    alloc: Global,
    work: &Work,
    orders: RoundOrder,
    gate: &G,
) -> Result<Finished, Stop>
    ensures serial { IfOk result (λ r. IsSerial work.now (orders_of work.now orders) r.entries.items) }
    ensures run { IfOk result (λ r. IsRun work.now r.entries.items) }
    ensures complete { IfOk result (λ r. IsComplete work.now r.state) }
    ensures state { IfOk result (λ r. r.state ≡ final work.now (opening work.now) r.entries.items) }
    ensures homes { IfOk result (λ r. (k : ℕ) → k ≤ length r.entries.items → StandsInHomes k (state_at work.now r.entries.items k)) }
    ensures short { IfOk result (λ r. length r.entries.items < MOST_ENTRIES) }
    ensures full { IsErrOf result Stop.Full → IsLongSerial work.now (orders_of work.now orders) }
    ensures no_longer { OnOk result (IsLongSerial work.now (orders_of work.now orders) → ⊥) }
{
    let Ok(mut world) = PlainWorld::new(alloc, work) else {
        return Err(Stop::Memory);
    };
    let mut generator = first_generator(orders);
    let mut order = rising(work);
    let mut floor = 0;
    let mut searched = None;
    let mut number = 0u64;
    'rounds: loop {
        let before = world.entries.len();
        draw_order(work, &mut generator, &mut order);
        if let Err(stop) = run_round(
            gate,
            &[],
            number,
            work,
            &mut world,
            &mut floor,
            &mut searched,
            order.as_slice(),
        ) {
            return Err(stop);
        }
        if world.entries.len() == before {
            break 'rounds;
        }
        number = number.saturating_add(1);
    }
    finish(alloc, work, world)
}

/// A run that goes on, from the entries that the world has, in rounds of rising order until one makes no entry: a complete one. The
/// processors pass the gate in each of their turns; before these they had so many, in the order of their numbers, as `turns` says. `Full`
/// only where a run of the workload has 2^40 entries or more; what `Memory` stands for is only that memory ran out.
#[inline(never)]
pub fn run_to_end<G: Gate>(
    alloc: Global,
    work: &Work,
    world: PlainWorld,
    gate: &G,
    turns: &[u64],
) -> Result<Finished, Stop>
    requires stands { Stands work.now world }
    requires work { world.work.now ≡ work.now }
    ensures run { IfOk result (λ r. IsRun work.now r.entries.items) }
    ensures complete { IfOk result (λ r. IsComplete work.now r.state) }
    ensures state { IfOk result (λ r. r.state ≡ final work.now (opening work.now) r.entries.items) }
    ensures begins { IfOk result (λ r. Begins world.entry.entries.items r.entries.items) }
    ensures homes { IfOk result (λ r. (k : ℕ) → k ≤ length r.entries.items → StandsInHomes k (state_at work.now r.entries.items k)) }
    ensures short { IfOk result (λ r. length r.entries.items < MOST_ENTRIES) }
    ensures full { IsErrOf result Stop.Full → IsLongRun work.now }
{
    if world.entries.len() > MOST_ENTRIES {
        return Err(Stop::Full);
    }
    let mut world = world;
    let order = rising(work);
    let mut floor = 0;
    let mut searched = None;
    let mut number = 0u64;
    'rounds: loop {
        let so_far = world.entries.len();
        if let Err(stop) = run_round(
            gate,
            turns,
            number,
            work,
            &mut world,
            &mut floor,
            &mut searched,
            order.as_slice(),
        ) {
            return Err(stop);
        }
        if world.entries.len() == so_far {
            break 'rounds;
        }
        number = number.saturating_add(1);
    }
    finish(alloc, work, world)
}
