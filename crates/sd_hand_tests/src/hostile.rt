//! Runs of one processor whose homes are given out one by one, with and without troubles; their entries are those of the run
//! without them.

ghost use Rattle.std.specs.Prelude.{◌≡◌, IfOk};
ghost use Rattle.sd_hand.specs.Hands.{how_many_held};
ghost use Rattle.sd_hand_tests.specs.Hostile.{IsHostile};
ghost use Rattle.sd_hand_tests.specs.Plan.{ArePossible};
ghost use Rattle.sd_hand_tests.specs.Ready.{IsReady};

use crate::{HostileWorld, Trouble, What};
use sd_cpu::{Attempted, Gate, OpenGate, Turned, attempt};
use sd_entries::EntryLine;
use sd_homes::{Home, ListId};
use sd_types::{CpuId, HomeId, Work};
use sd_workload::read_work;
use sd_world::PlainWorld;
use std::alloc::{AllocError, Global};
use std::cell::Cell;
use std::test::Fail;

const CPU: CpuId = CpuId(0);

const CHAIN: &str =
    "limit 5\nmutex m0\nmutex m1\nmutex m2\nthread a fx 60 10 inf\nthread b fx 60 20 inf\nthread d fx 60 30 inf\nthread r rt 10 inf\nscript a\nenter m2\nnap 3\nrun 2\nexit m2\nend\nscript b\nnap 1\nenter m1\nenter m2\nexit m2\nexit m1\nend\nscript d\nnap 2\nenter m0\nenter m1\nexit m1\nexit m0\nend\nscript r\nnap 4\nenter m0\nexit m0\nend\n";

const CHAIN_ENTRIES: &str =
    "0 c0 dispatch r 110\n1 c0 nap r\n2 c0 dispatch d 30\n3 c0 nap d\n4 c0 dispatch b 20\n5 c0 nap b\n6 c0 dispatch a 10\n7 c0 enter a m2\n8 c0 nap a\n9 c0 idle\n10 c0 napend b to c0\n11 c0 dispatch b 20\n12 c0 enter b m1\n13 c0 block b m2\n14 c0 will m2 a 20\n15 c0 idle\n16 c0 napend d to c0\n17 c0 dispatch d 30\n18 c0 enter d m0\n19 c0 block d m1\n20 c0 will m1 b 30\n21 c0 will m2 a 30\n22 c0 idle\n23 c0 napend a to c0\n24 c0 dispatch a 30\n25 c0 tick a\n26 c0 napend r rt c0\n27 c0 preempt a front\n28 c0 dispatch r 110\n29 c0 block r m0\n30 c0 will m0 d 110\n31 c0 will m1 b 110\n32 c0 will m2 a 110 rt c0\n33 c0 dispatch a 110\n34 c0 tick a\n35 c0 exit a m2\n36 c0 unblock m2 b rt c0\n37 c0 preempt a front\n38 c0 dispatch b 110\n39 c0 enter b m2\n40 c0 exit b m2\n41 c0 exit b m1\n42 c0 unblock m1 d rt c0\n43 c0 preempt b front\n44 c0 dispatch d 110\n45 c0 enter d m1\n46 c0 exit d m1\n47 c0 exit d m0\n48 c0 unblock m0 r rt c0\n49 c0 preempt d front\n50 c0 dispatch r 110\n51 c0 enter r m0\n52 c0 exit r m0\n53 c0 done r\n54 c0 dispatch d 30\n55 c0 done d\n56 c0 dispatch b 20\n57 c0 done b\n58 c0 dispatch a 10\n59 c0 done a\n";

const YIELD: &str =
    "limit 2\nthread a fx 60 10 inf\nthread b fx 60 10 inf\nscript a\nyield\nrun 1\nend\nscript b\nrun 1\nend\n";

const YIELD_ENTRIES: &str =
    "0 c0 dispatch a 10\n1 c0 yield a\n2 c0 dispatch b 10\n3 c0 tick b\n4 c0 done b\n5 c0 dispatch a 10\n6 c0 tick a\n7 c0 done a\n";

/// The first thread on the queue of the processor as it passes with its home, turn by turn.
const FIRST_QUEUED: [Option<u16>; 9] = [
    Some(0),
    Some(1),
    Some(1),
    Some(0),
    Some(0),
    Some(0),
    None,
    None,
    None,
];

/// A gate that reads the home that is lent: how often it was passed, and whether each time there was what was to be there.
#[derive(Drop)]
struct Reader {
    passes: Cell<u64>,
    right: Cell<bool>,
}

/// The home is that of the processor, and this thread is the first on its queue.
fn is_expected(home: &Home, first: Option<u16>) -> bool {
    let queued = match home.first(ListId::Queues(CPU)) {
        None => None,
        Some(record) => Some(record.kept.id.0),
    };
    queued == first && home.id() == HomeId::Cpu(CPU)
}

impl Gate for Reader {
    fn pass(&self, cpu: CpuId, turn: u64, home: &Home) {
        let passes = self.passes.get();
        self.passes.set(passes.saturating_add(1));
        let right = match FIRST_QUEUED.get(turn as usize) {
            None => false,
            Some(first) => cpu == CPU && turn == passes && is_expected(home, *first),
        };
        self.right.set(self.right.get() && right);
    }
}

/// A turn: attempts, until one is made.
fn repeat<G: Gate>(world: &mut HostileWorld, gate: &G, work: &Work, turn: u64) -> Option<Turned>
    requires ready { IsReady work.now world.old }
    ensures ready { IsReady work.now world.new }
{
    let mut passed = false;
    for _ in 0..300 {
        match attempt(world, gate, work, turn, passed) {
            Ok(Attempted::Made(turned)) => return Some(turned),
            Ok(Attempted::Again { passed: now }) => passed = now,
            Err(_) => {}
        }
    }
    None
}

/// Turns, until one makes no entry.
fn run<G: Gate>(world: &mut HostileWorld, gate: &G, work: &Work)
    requires ready { IsReady work.now world.old }
    ensures ready { IsReady work.now world.new }
{
    for turn in 0..100 {
        match repeat(world, gate, work, turn) {
            Some(Turned::Acted { .. }) => {}
            Some(Turned::Ticked { .. }) => {}
            _ => return,
        }
    }
}

/// Appends the text of the entries.
fn put_entries(work: &Work, world: &PlainWorld, out: &mut Vec<u8>) -> Result<(), AllocError> {
    let mut line = EntryLine::new();
    for i in 0..world.entries.len() {
        let entry = world.entries.entry(i);
        line.write(work, &entry, out)?;
    }
    Ok(())
}

/// The text of the entries is this.
fn has_text(
    alloc: Global,
    work: &Work,
    world: &PlainWorld,
    text: &str,
) -> Result<bool, AllocError> {
    let mut out = Vec::new(alloc);
    put_entries(work, world, &mut out)?;
    Ok(out.as_slice() == text.as_bytes())
}

/// The text of the entries of a run that has ended is this.
fn is_told(alloc: Global, work: &Work, world: HostileWorld, text: &str) -> Result<bool, AllocError>
    requires good { IsHostile world }
    requires empty { how_many_held world.near.hand.slots ≡ 0 }
{
    has_text(alloc, work, &world.into_inner(), text)
}

/// A workload, and the text of the entries of its run.
#[derive(Clone, Copy)]
struct Journal {
    workload: &'static str,
    entries: &'static str,
}

/// How often somebody was in the way of the run of this workload with these troubles, or nothing where its entries are others.
fn stops_over<G: Gate>(
    alloc: Global,
    work: &Work,
    plan: Vec<Trouble>,
    gate: &G,
    entries: &str,
) -> Result<Option<u64>, AllocError>
    requires possible { ArePossible plan.items }
{
    let inner = PlainWorld::new(alloc, work)?;
    let mut world = HostileWorld::new(alloc, inner, plan)?;
    run(&mut world, gate, work);
    let stops = world.stops;
    let is_right = is_told(alloc, work, world, entries)?;
    Ok(if is_right { Some(stops) } else { None })
}

/// The same, of the text of a workload.
fn stops_of<G: Gate>(
    alloc: Global,
    journal: Journal,
    plan: Vec<Trouble>,
    gate: &G,
) -> Result<Option<u64>, AllocError>
    requires possible { ArePossible plan.items }
{
    let text = journal.workload.as_bytes();
    if text.len() >= 1000 {
        return Ok(None);
    }
    match read_work(alloc, text) {
        Ok(work) => stops_over(alloc, &work, plan, gate, journal.entries),
        Err(_) => Ok(None),
    }
}

/// Busy at every second call up to 200.
fn busy_calls(alloc: Global) -> Result<Vec<Trouble>, AllocError>
    ensures { IfOk result (λ v. ArePossible v.items) }
{
    let mut plan = Vec::new(alloc);
    for i in 1..101 {
        plan.push(Trouble {
            call: 2 * i,
            what: What::Busy { holder: CpuId(1) },
        })?;
    }
    Ok(plan)
}

/// And no memory at calls 201 to 210.
fn troubles(alloc: Global) -> Result<Vec<Trouble>, AllocError>
    ensures { IfOk result (λ v. ArePossible v.items) }
{
    let mut plan = busy_calls(alloc)?;
    for call in 201..211 {
        plan.push(Trouble {
            call,
            what: What::NoMemory,
        })?;
    }
    Ok(plan)
}

#[test]
fn the_homes_of_a_run_are_given_out_one_by_one(rt: HostRuntime) -> Result<(), Fail> {
    let alloc = rt.alloc();
    let gate = Reader {
        passes: Cell::new(0),
        right: Cell::new(true),
    };
    let journal = Journal {
        workload: YIELD,
        entries: YIELD_ENTRIES,
    };
    let stops = stops_of(alloc, journal, Vec::new(alloc), &gate)?;
    assert_eq!(rt; stops, Some(0));
    assert_eq!(rt; gate.passes.get(), 9);
    assert!(rt; gate.right.get());
    Ok(())
}

#[test]
fn a_chain_of_three_mutexes_among_troubles(rt: HostRuntime) -> Result<(), Fail> {
    let alloc = rt.alloc();
    let journal = Journal {
        workload: CHAIN,
        entries: CHAIN_ENTRIES,
    };
    let stops = stops_of(alloc, journal, troubles(alloc)?, &OpenGate)?;
    assert!(rt; matches!(stops, Some(count) if count > 0));
    Ok(())
}
