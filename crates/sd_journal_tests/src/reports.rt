//! The reports of two runs of eight entries, worked out by hand. In both thread `a` is dispatched at tick 0, takes the mutex, ticks,
//! gives it up at tick 1, takes the first unit with which the semaphore begins, and ticks. In the first it sleeps for the next at tick
//! 2, and then the processor is idle. In the second it takes the next unit at tick 2 and ticks again, and a third unit is left.

use crate::given::{Judged, in_place, judge, state};
use crate::shown::{begun, entry, take_in};
use sd_report::{report, sheet};
use sd_state::{Place, State};
use sd_stretches::{ByThread, Doing, History};
use sd_types::{ChanId, CpuId, Event, LockId, ThreadId, Work};
use std::alloc::{AllocError, Global};

pub(crate) const WORKLOAD: &[u8] =
    b"limit 5\nmutex m\nsema s 1\nthread a sys 60\nscript a\nenter m\nrun 1\nexit m\nsemap s\nrun 1\nsemap s\nend\n";

pub(crate) const JOBS_WORKLOAD: &[u8] =
    b"limit 3\nmutex m\nsema s 3\nthread a sys 60\nscript a\nenter m\nrun 1\nexit m\nsemap s\nrun 1\nsemap s\nrun 2\nsemap s\nrun 1\nend\n";

const TABLE: &[u8] = b"ticks 5, entries 8

who              what           of                 number    ticks  priority  longest  from entry  to entry

threads
a                running                                1        2         -        2           1         6
a                runnable                               1        0         -        0           0         0
a                asleep                                 1        3         -        3           7         8

tasks
a                response       s                       1        2         -        2           0         5

locks
m                held                                   1        1         -        1           2         3  by a

processors
0                running                                -        2         -        -           -         -
0                idle                                   -        1         -        -           -         -
0                dispatches                             1        -         -        -           -         -
";

const SHEET: &[u8] = b"kind,name,measure,of,number,ticks,priority,longest,from entry,to entry,by
thread,a,running,,1,2,,2,1,6,
thread,a,runnable,,1,0,,0,0,0,
thread,a,asleep,,1,3,,3,7,8,
task,a,response,s,1,2,,2,0,5,
lock,m,held,,1,1,,1,2,3,a
processor,0,running,,,2,,,,,
processor,0,idle,,,1,,,,,
processor,0,dispatches,,1,,,,,,
";

/// Of the second run, where a tick of the second job is left: its second and third job are unfinished.
const BEFORE: &[u8] = b"kind,name,measure,of,number,ticks,priority,longest,from entry,to entry,by
thread,a,running,,1,3,,3,1,8,
thread,a,runnable,,1,0,,0,0,0,
task,a,response,s,1,2,,2,0,5,
task,a,unfinished,s,2,,,,,,
lock,m,held,,1,1,,1,2,3,a
processor,0,running,,,3,,,,,
processor,0,dispatches,,1,,,,,,
";

/// Where no tick of it is left: it is complete at its last tick, 3 ticks after its release.
const BEHIND: &[u8] = b"kind,name,measure,of,number,ticks,priority,longest,from entry,to entry,by
thread,a,running,,1,3,,3,1,8,
thread,a,runnable,,1,0,,0,0,0,
task,a,response,s,2,5,,3,0,7,
task,a,unfinished,s,1,,,,,,
lock,m,held,,1,1,,1,2,3,a
processor,0,running,,,3,,,,,
processor,0,dispatches,,1,,,,,,
";

const A: ThreadId = ThreadId(0);

const M: LockId = LockId(0);

const S: ChanId = ChanId(0);

/// Each event of the first run, with the count of ticks and what the thread does after it.
fn made(i: u8) -> (Event, u32, Doing) {
    let running = Doing::Running(CpuId(0));
    match i {
        0 => (Event::Dispatch { t: A, p: 60 }, 0, running),
        1 => (Event::Enter { t: A, l: M }, 0, running),
        2 => (Event::Tick { t: A }, 1, running),
        3 => (Event::Exit { t: A, l: M }, 1, running),
        4 => (Event::SemaP { t: A, k: S }, 1, running),
        5 => (Event::Tick { t: A }, 2, running),
        6 => (Event::SemaWait { t: A, k: S }, 2, Doing::Asleep(S)),
        _ => (Event::Idle, 3, Doing::Asleep(S)),
    }
}

/// The same of the second run, whose first six entries are those of the first.
fn made_of_jobs(i: u8) -> (Event, u32, Doing) {
    let running = Doing::Running(CpuId(0));
    match i {
        6 => (Event::SemaP { t: A, k: S }, 2, running),
        7 => (Event::Tick { t: A }, 3, running),
        _ => made(i),
    }
}

fn take_eight(history: &mut History) -> Result<(), AllocError> {
    for i in 0..8 {
        let (event, count, doing) = made(i);
        take_in(history, &entry(u64::from(i), event), doing, count)?;
    }
    Ok(())
}

fn take_jobs(history: &mut History) -> Result<(), AllocError> {
    for i in 0..8 {
        let (event, count, doing) = made_of_jobs(i);
        take_in(history, &entry(u64::from(i), event), doing, count)?;
    }
    Ok(())
}

/// A last state in which the thread is in this place, at this operation.
fn ending(alloc: Global, place: Place, op: u16) -> Result<State, AllocError> {
    let mut thread = in_place(place);
    thread.body.op = op;
    let threads = Vec::from_array(alloc, [thread])?;
    Ok(state(alloc, threads, Vec::new(alloc), Vec::new(alloc)))
}

fn is_table(
    alloc: Global,
    work: &Work,
    history: &ByThread,
    end: &State,
) -> Result<bool, AllocError> {
    let table = report(alloc, work, history, end)?;
    Ok(table.as_slice() == TABLE)
}

fn is_sheet(
    alloc: Global,
    work: &Work,
    history: &ByThread,
    end: &State,
    wanted: &[u8],
) -> Result<bool, AllocError> {
    let rows = sheet(alloc, work, history, end)?;
    Ok(rows.as_slice() == wanted)
}

/// What is wrong with the report of the first run.
fn wrong_form(
    alloc: Global,
    work: &Work,
    history: &ByThread,
    end: &State,
) -> Result<Option<&'static str>, AllocError> {
    if !is_table(alloc, work, history, end)? {
        return Ok(Some("the table"));
    }
    if !is_sheet(alloc, work, history, end, SHEET)? {
        return Ok(Some("the sheet"));
    }
    Ok(None)
}

/// What is wrong with the report of the second, where it ends in these states.
fn wrong_jobs_form(
    alloc: Global,
    work: &Work,
    history: &ByThread,
    before: &State,
    behind: &State,
) -> Result<Option<&'static str>, AllocError> {
    if !is_sheet(alloc, work, history, before, BEFORE)? {
        return Ok(Some("a tick is left"));
    }
    if !is_sheet(alloc, work, history, behind, BEHIND)? {
        return Ok(Some("no tick is left"));
    }
    Ok(None)
}

fn wrong_behind_eight(
    alloc: Global,
    work: &Work,
    mut history: History,
) -> Result<Option<&'static str>, AllocError> {
    take_eight(&mut history)?;
    let end = ending(alloc, Place::Asleep(S, 4102), 6)?;
    wrong_form(alloc, work, &history.by_thread(alloc)?, &end)
}

fn wrong_behind_jobs(
    alloc: Global,
    work: &Work,
    mut history: History,
) -> Result<Option<&'static str>, AllocError> {
    take_jobs(&mut history)?;
    let before = ending(alloc, Place::Running(CpuId(0)), 6)?;
    let behind = ending(alloc, Place::Queued(CpuId(0), 4104), 7)?;
    wrong_jobs_form(alloc, work, &history.by_thread(alloc)?, &before, &behind)
}

/// What is wrong with the report of the first eight entries.
pub(crate) fn wrong_report(alloc: Global, work: &Work) -> Result<Option<&'static str>, AllocError> {
    wrong_behind_eight(alloc, work, begun(alloc)?)
}

/// What is wrong with the report of the second.
pub(crate) fn wrong_jobs(alloc: Global, work: &Work) -> Result<Option<&'static str>, AllocError> {
    wrong_behind_jobs(alloc, work, begun(alloc)?)
}

#[test]
fn a_report_of_eight_entries(rt: HostRuntime) {
    judge(&rt, Judged::Report);
}

#[test]
fn a_report_of_jobs_that_are_left(rt: HostRuntime) {
    judge(&rt, Judged::Jobs);
}
