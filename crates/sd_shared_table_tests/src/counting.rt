//! What a processor on a thread of the host of its own finds in its way, counted.

ghost use Rattle.std.specs.Prelude.{◌≡◌, ℕ};
ghost use Rattle.sd_hand.specs.Hands.{how_many_held};
ghost use Rattle.sd_shared_table.specs.Seats.{Fits, id_of, work_of};
ghost use Rattle.sd_shared_table.specs.Whole.{IsSeatOf};

use crate::deeds::{Deed, judge};
use crate::joining::{Act, Acted};
use sd_cpu::{Attempted, OpenGate, Turned, attempt};
use sd_dispatcher::Reading;
use sd_hand::Acting;
use sd_shared_table::{Seat, Shared};
use sd_threads::TableWorld;
use sd_types::{Event, Hints, HomeId, Stop, ThreadId, Work};
use sd_world::{Behind, Take, ThreadLock, World};
use std::test::Fail;

/// Threads of two processors that want one mutex.
pub(crate) const CONTENDED: &str =
    "cpus 2\nlimit 20\nmutex m\nthread a ts 29 0 0\nthread b ts 29 0 0\nthread d ts 29 0 0\nthread e ts 29 0 0\nscript a\nenter m\nrun 2\nexit m\nrun 1\nend\nscript b\nenter m\nrun 2\nexit m\nrun 1\nend\nscript d\nenter m\nrun 1\nexit m\nend\nscript e\nenter m\nrun 1\nexit m\nend\n";

/// So many attempts each processor makes.
const ATTEMPTS: u64 = 2000;

/// How often a home was found held, a thread had moved between two readings of its word, and a processor was found behind. Each number
/// stays at the greatest `u64`.
#[derive(Clone, Copy)]
struct Hindrances {
    busy: u64,
    moved: u64,
    behind: u64,
}

/// A table as the world of one processor, which counts what is in its way.
struct CountedWorld<'a> {
    table: TableWorld<'a>,
    found: Hindrances,
}

impl<'a> World for CountedWorld<'a> {
    ghost use Rattle.sd_shared_table.proofs.Fitting.{table_good};
    ghost use Rattle.sd_shared_table.specs.Seats.{id_of, work_of};
    ghost use Rattle.sd_threads.specs.Tables.{IsTable, world_meaning};

    ghost meaning = { λ x. world_meaning x.table };

    ghost good = { λ x. IsTable x.table };

    fn acting(&self) -> &Acting {
        self.table.acting()
    }

    fn has_all(&self) -> bool {
        self.table.has_all()
    }

    fn take(&mut self, k: HomeId) -> Take {
        let take = self.table.take(k);
        if let Take::Busy { .. } = take {
            self.found.busy = self.found.busy.saturating_add(1);
        }
        take
    }

    fn lock_thread(&mut self, t: ThreadId) -> ThreadLock {
        let lock = self.table.lock_thread(t);
        match lock {
            ThreadLock::Held { .. } => {}
            ThreadLock::Busy { .. } => self.found.busy = self.found.busy.saturating_add(1),
            ThreadLock::Moved { .. } => self.found.moved = self.found.moved.saturating_add(1),
        }
        lock
    }

    fn hints(&mut self, work: &Work, reading: &Reading) -> Hints {
        self.table.hints(work, reading)
    }

    fn behind(&mut self, work: &Work) -> Option<Behind> {
        let behind = self.table.behind(work);
        if behind.is_some() {
            self.found.behind = self.found.behind.saturating_add(1);
        }
        behind
    }

    fn reserve(&mut self) -> Result<(), Stop> {
        self.table.reserve()
    }

    fn commit(&mut self, work: &Work, event: Event, hints: Option<Hints>) -> u64 {
        self.table.commit(work, event, hints)
    }

    fn give_all(&mut self) {
        self.table.give_all();
    }

    ghost sound = { λ x h. table_good (work_of x.table.shared.now) (id_of x.table.shared.now) x.table.seat x.table.stops h };
}

/// What the attempts of a processor came to.
#[derive(Clone, Copy)]
struct Tally {
    entries: u64,
    behind: u64,
    finished: u64,
    again: u64,
    refused: u64,
}

impl Tally {
    /// One attempt more.
    fn count(self, attempted: Result<Attempted, Stop>) -> Tally {
        let mut tally = self;
        match attempted {
            Ok(Attempted::Made(Turned::Acted { .. } | Turned::Ticked { .. })) => {
                tally.entries = tally.entries.saturating_add(1)
            }
            Ok(Attempted::Made(Turned::Behind { .. })) => {
                tally.behind = tally.behind.saturating_add(1)
            }
            Ok(Attempted::Made(Turned::Finished)) => {
                tally.finished = tally.finished.saturating_add(1)
            }
            Ok(Attempted::Again { .. }) => tally.again = tally.again.saturating_add(1),
            Err(_) => tally.refused = tally.refused.saturating_add(1),
        }
        tally
    }

    fn sum(self) -> u64 {
        self.entries
            .saturating_add(self.behind)
            .saturating_add(self.finished)
            .saturating_add(self.again)
            .saturating_add(self.refused)
    }
}

/// What the attempts of a processor came to, what it found in its way, and how often it was stopped.
#[derive(Clone, Copy)]
struct Counts {
    tally: Tally,
    found: Hindrances,
    stops: u64,
}

impl Counts {
    /// Each attempt came to one answer. It made the entries of its log, which are so many; it was behind as often as it found somebody
    /// behind; a home that was busy or a thread that had moved stopped it, and it tried again only where one of these did.
    fn are_consistent(self, entries: u64) -> bool {
        self.tally.sum() == ATTEMPTS
            && self.tally.entries == entries
            && self.tally.behind == self.found.behind
            && self.stops == self.found.busy.saturating_add(self.found.moved)
            && self.tally.again <= self.stops
            && self.tally.refused == 0
    }
}

/// The attempts of a processor.
pub(crate) fn try_turns(shared: &Shared, work: &Work, seat: Seat) -> Acted
    requires work { work.now ≡ work_of shared.now }
    requires fits { Fits (id_of shared.now) (work_of shared.now) seat }
    requires free { how_many_held seat.acting.hand.slots ≡ 0 }
    ensures { (c : ℕ) → IsSeatOf (id_of shared.now) (work_of shared.now) c seat → IsSeatOf (id_of shared.now) (work_of shared.now) c result.seat }
{
    let mut world = CountedWorld {
        table: TableWorld::new(shared, seat),
        found: Hindrances {
            busy: 0,
            moved: 0,
            behind: 0,
        },
    };
    let mut tally = Tally {
        entries: 0,
        behind: 0,
        finished: 0,
        again: 0,
        refused: 0,
    };
    for turn in 0..ATTEMPTS {
        let attempted = attempt(&mut world, &OpenGate, work, turn, false);
        tally = tally.count(attempted);
    }
    let CountedWorld { table, found } = world;
    let counts = Counts {
        tally,
        found,
        stops: table.stops,
    };
    let seat = table.into_seat();
    let is_right = counts.are_consistent(seat.log.len() as u64);
    Acted {
        seat,
        is_right,
        count: tally.entries,
    }
}

#[test]
fn what_is_in_the_way_is_counted(rt: HostRuntime) -> Result<(), Fail> {
    judge(&rt, Deed::Both(Act::Attempts))
}
