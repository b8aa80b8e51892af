//! The homes of an initial state, given out and taken back: one processor, on whose queue one thread stands.

use sd_homes::{Home, ListId};
use sd_opening::opening;
use sd_types::{CpuId, HomeId, SetId, Work};
use sd_workload::read_work;
use sd_world::Homes;
use std::alloc::{AllocError, Global};
use std::test::Fail;

const ONE_THREAD: &str = "limit 5\nthread a ts 29 0 0\nscript a\nrun 3\nend\n";

const CPU_HOME: HomeId = HomeId::Cpu(CpuId(0));

/// A number, and whether a home has it.
#[derive(Clone, Copy)]
struct Row {
    what: &'static str,
    number: HomeId,
    is_there: bool,
}

const ROWS: [Row; 6] = [
    Row {
        what: "real-time queue 0",
        number: HomeId::RealTime(SetId(0)),
        is_there: true,
    },
    Row {
        what: "chain 63",
        number: HomeId::Chain(63),
        is_there: true,
    },
    Row {
        what: "sleepers 0",
        number: HomeId::Sleepers(0),
        is_there: true,
    },
    Row {
        what: "processor 1",
        number: HomeId::Cpu(CpuId(1)),
        is_there: false,
    },
    Row {
        what: "real-time queue 1",
        number: HomeId::RealTime(SetId(1)),
        is_there: false,
    },
    Row {
        what: "chain 64",
        number: HomeId::Chain(64),
        is_there: false,
    },
];

/// A thread stands on the queue of the processor, and none runs there.
fn has_one_queued(home: &Home) -> bool {
    home.first(ListId::Queues(CpuId(0))).is_some() && home.first(ListId::Runs(CpuId(0))).is_none()
}

/// The home of this number is taken away, where it is there.
fn is_taken(homes: &mut Homes, number: HomeId) -> bool {
    homes.take(number).is_some()
}

/// The home of the processor is given out once, taken back, and given out again.
fn is_lent(homes: &mut Homes) -> bool {
    match homes.take(CPU_HOME) {
        Some(home) => {
            let is_right = has_one_queued(&home) && !is_taken(homes, CPU_HOME);
            homes.give(home).is_ok() && is_right && is_taken(homes, CPU_HOME)
        }
        None => false,
    }
}

/// The first home that is not as it should be.
fn wrong_home(homes: &mut Homes) -> Option<&'static str> {
    if !is_lent(homes) {
        return Some("processor 0");
    }
    for row in &ROWS {
        if is_taken(homes, row.number) != row.is_there {
            return Some(row.what);
        }
    }
    None
}

/// The homes of the initial state.
#[tactic(auto, using(crate::proofs::FirstLemmas::first_reached))]
fn homes_of(alloc: Global, work: &Work) -> Result<Homes, AllocError> {
    let state = opening(alloc, work)?;
    Homes::new(alloc, work, 0, &state)
}

/// The first home of the initial state that is not as it should be.
fn wrong_over(alloc: Global, work: &Work) -> Result<Option<&'static str>, AllocError> {
    let mut homes = homes_of(alloc, work)?;
    Ok(wrong_home(&mut homes))
}

/// The same, of the workload of one thread.
fn wrong(alloc: Global) -> Result<Option<&'static str>, AllocError> {
    match read_work(alloc, ONE_THREAD.as_bytes()) {
        Ok(work) => wrong_over(alloc, &work),
        Err(_) => Ok(Some("no work")),
    }
}

#[test]
fn an_initial_state_stands_in_homes(rt: HostRuntime) -> Result<(), Fail> {
    let wrong = wrong(rt.alloc())?;
    assert!(rt; wrong.is_none(), "{wrong:?}");
    Ok(())
}
