//! The deadlines of a run of nine entries, worked out by hand. Thread `a` takes the unit with which the semaphore begins, waits for the
//! mutex from tick 0 to tick 2, ticks twice, and sleeps for the next unit at tick 4. So its job is complete 4 ticks after its release, one
//! behind its deadline.

use crate::given::{Judged, in_place, is_so, judge, state};
use crate::shown::{begun, entry, take_in};
use sd_deadlines::{
    Delay, Task, TaskLine, blocks, delayers, found_tasks, mean_of, numbered_tasks, preemptions,
    set_jobs, start, task_line,
};
use sd_report::{jobs_report, set_report, set_sheet};
use sd_state::{Place, State};
use sd_statistics::{Job, Point, Release, Summary, told_entries};
use sd_stretches::{ByThread, Doing, Happening, History};
use sd_tasks::SetTask;
use sd_types::{ChanId, CpuId, End, Event, LockId, Name, ThreadId, Work};
use std::alloc::{AllocError, Global};

pub(crate) const WORKLOAD: &[u8] =
    b"limit 6\nmutex m\nsema s 1\nthread a sys 60\nscript a\nsemap s\nenter m\nrun 2\nexit m\nsemap s\nend\n";

const A: ThreadId = ThreadId(0);

const B: ThreadId = ThreadId(1);

const C: ThreadId = ThreadId(2);

const M: LockId = LockId(0);

const S: ChanId = ChanId(0);

const TASK: Task = Task {
    thread: 0,
    sema: S,
    deadline: Some(3),
};

/// What the report of a set says of the task, behind all else.
const TABLE: &[u8] = b"
tasks of the set
task               deadline  released  complete  unfinished   least        mean  greatest  misses   first  blocked
a                         3         1         1           0       4         4/1         4       1       0        2

responses of a, a # for each job
    ticks    jobs
        4       1  #
";

/// The same for a spreadsheet.
const ROWS: &[u8] = b"set task,a,deadline,s,,3,,,,,
set task,a,released,s,1,,,,,,
set task,a,complete,s,1,,,,,,
set task,a,unfinished,s,0,,,,,,
set task,a,least,s,,4,,,,,
set task,a,mean,s,1,4,,,,,
set task,a,greatest,s,,4,,,,,
set task,a,misses,s,1,,,,,,
set task,a,first miss,s,,0,,,,,
set task,a,blocked,s,,2,,,,,
set task,a,response,s,1,4,,,,,
";

/// The jobs of the task.
const JOBS: &[u8] =
    b"task               release    start  completion  response  deadline  missed  preempted by             blocked by
a                        0        2           4         4         3     yes  -                        -
";

/// Each event of the run, with the count of ticks and what the thread does after it.
fn made(i: u8) -> (Event, u32, Doing) {
    let running = Doing::Running(CpuId(0));
    match i {
        0 => (Event::Dispatch { t: A, p: 60 }, 0, running),
        1 => (Event::SemaP { t: A, k: S }, 0, running),
        2 => (Event::Block { t: A, l: M }, 0, Doing::Waiting(M)),
        3 => (Event::Idle, 1, Doing::Waiting(M)),
        4 => (Event::Idle, 2, Doing::Waiting(M)),
        5 => (Event::Dispatch { t: A, p: 60 }, 2, running),
        6 => (Event::Tick { t: A }, 3, running),
        7 => (Event::Tick { t: A }, 4, running),
        _ => (Event::SemaWait { t: A, k: S }, 4, Doing::Asleep(S)),
    }
}

fn take_nine(history: &mut History) -> Result<(), AllocError> {
    for i in 0..9 {
        let (event, count, doing) = made(i);
        take_in(history, &entry(u64::from(i), event), doing, count)?;
    }
    Ok(())
}

fn is_line(x: &TaskLine) -> bool {
    x.released == 1
        && x.responses.number == 1
        && x.responses.ticks == 4
        && x.least == Some(4)
        && x.misses == 1
        && x.first_miss == Some(0)
        && x.blocked == Some(2)
}

/// The only job started at tick 2.
fn is_started(jobs: &[Job], told: &[Happening]) -> bool {
    match jobs.first() {
        Some(job) => jobs.len() == 1 && start(0, job, told) == Some(2),
        None => false,
    }
}

fn are_jobs(
    alloc: Global,
    work: &Work,
    history: &ByThread,
    end: &State,
) -> Result<bool, AllocError> {
    let jobs = set_jobs(alloc, work, history, end, TASK)?;
    let told = told_entries(alloc, 0, 0, &history.history.happenings)?;
    Ok(is_started(&jobs, &told))
}

/// The report ends with the table.
fn is_table(
    alloc: Global,
    work: &Work,
    history: &ByThread,
    end: &State,
) -> Result<bool, AllocError> {
    let text = set_report(alloc, work, history, end, &[TASK])?;
    Ok(text.ends_with(TABLE))
}

fn are_rows(
    alloc: Global,
    work: &Work,
    history: &ByThread,
    end: &State,
) -> Result<bool, AllocError> {
    let text = set_sheet(alloc, work, history, end, &[TASK])?;
    Ok(text.ends_with(ROWS))
}

fn is_job_table(
    alloc: Global,
    work: &Work,
    history: &ByThread,
    end: &State,
) -> Result<bool, AllocError> {
    let text = jobs_report(alloc, work, history, end, &[TASK])?;
    Ok(text.as_slice() == JOBS)
}

fn wrong_text(
    alloc: Global,
    work: &Work,
    history: &ByThread,
    end: &State,
) -> Result<Option<&'static str>, AllocError> {
    if !is_table(alloc, work, history, end)? {
        return Ok(Some("the table"));
    }
    if !are_rows(alloc, work, history, end)? {
        return Ok(Some("the rows"));
    }
    if !is_job_table(alloc, work, history, end)? {
        return Ok(Some("the jobs"));
    }
    Ok(None)
}

fn is_first(tasks: &[Task], sema: ChanId, deadline: Option<u64>) -> bool {
    match tasks.first() {
        Some(x) => tasks.len() == 1 && x.thread == 0 && x.sema == sema && x.deadline == deadline,
        None => false,
    }
}

/// Without a set the task of the workload is thread `a` by semaphore `s`.
fn is_found(alloc: Global, work: &Work) -> Result<bool, AllocError> {
    let tasks = found_tasks(alloc, work)?;
    Ok(is_first(&tasks, S, None))
}

/// A task of a set has the thread of its name, and the semaphore of its name, which this workload lacks.
fn is_numbered(alloc: Global, work: &Work) -> Result<bool, AllocError> {
    let name = Name::from_word(b"a");
    let set = Vec::from_array(alloc, [SetTask { name, deadline: 3 }])?;
    let tasks = numbered_tasks(alloc, work, &set)?;
    Ok(is_first(&tasks, ChanId(1), Some(3)))
}

fn wrong_of(
    alloc: Global,
    work: &Work,
    history: &ByThread,
    end: &State,
) -> Result<Option<&'static str>, AllocError> {
    if !is_line(&task_line(alloc, work, history, end, TASK)?) {
        return Ok(Some("the line"));
    }
    if !are_jobs(alloc, work, history, end)? {
        return Ok(Some("the job"));
    }
    wrong_text(alloc, work, history, end)
}

fn ending(alloc: Global) -> Result<State, AllocError> {
    let threads = Vec::from_array(alloc, [in_place(Place::Asleep(S, 4103))])?;
    Ok(state(alloc, threads, Vec::new(alloc), Vec::new(alloc)))
}

fn wrong_behind_nine(
    alloc: Global,
    work: &Work,
    mut history: History,
) -> Result<Option<&'static str>, AllocError> {
    take_nine(&mut history)?;
    let end = ending(alloc)?;
    wrong_of(alloc, work, &history.by_thread(alloc)?, &end)
}

/// What is wrong with the deadlines of the run.
pub(crate) fn wrong_deadlines(
    alloc: Global,
    work: &Work,
) -> Result<Option<&'static str>, AllocError> {
    if !is_found(alloc, work)? {
        return Ok(Some("the tasks of the workload"));
    }
    if !is_numbered(alloc, work)? {
        return Ok(Some("the tasks of a set"));
    }
    wrong_behind_nine(alloc, work, begun(alloc)?)
}

/// Six responses of 127 ticks together: 127 is a prime, so the fraction stands. Of 56 ticks for 14 jobs the mean is 4.
fn are_means() -> bool {
    let odd = mean_of(Summary {
        number: 6,
        ticks: 127,
        longest: None,
    });
    let even = mean_of(Summary {
        number: 14,
        ticks: 56,
        longest: None,
    });
    match (odd, even) {
        (Some(x), Some(y)) => x.ticks == 127 && x.jobs == 6 && y.ticks == 4 && y.jobs == 1,
        _ => false,
    }
}

/// An entry of this processor at this tick, about a lock of this owner.
fn happening(entry: u64, cpu: u16, tick: u32, event: Event, owner: Option<ThreadId>) -> Happening {
    Happening {
        entry,
        cpu: CpuId(cpu),
        tick,
        event,
        owner,
    }
}

const PREEMPT: Event = Event::Preempt {
    t: A,
    end: End::Back,
};

fn are_delays(found: &[Delay], entry: u64, by: ThreadId) -> bool {
    match found.first() {
        Some(x) => found.len() == 1 && x.entry == entry && x.by == by,
        None => false,
    }
}

/// Thread `a` loses processor 0 twice. `c` ticks next, but on processor 1; `b` takes the next tick of processor 0. The second time `a`
/// takes it itself.
fn is_preempted_once(alloc: Global) -> Result<bool, AllocError> {
    let happenings = [
        happening(1, 0, 1, PREEMPT, None),
        happening(2, 0, 1, Event::Dispatch { t: B, p: 60 }, None),
        happening(3, 1, 1, Event::Tick { t: C }, None),
        happening(4, 0, 2, Event::Tick { t: B }, None),
        happening(5, 0, 2, PREEMPT, None),
        happening(6, 0, 3, Event::Tick { t: A }, None),
    ];
    let found = preemptions(alloc, 0, &happenings)?;
    Ok(are_delays(&found, 1, B))
}

/// Thread `a` blocks for the mutex that `b` owns, and spins while nobody owns it. `c` spins too.
fn is_blocked_once(alloc: Global) -> Result<bool, AllocError> {
    let happenings = [
        happening(1, 1, 1, Event::Spin { t: C, l: M }, Some(B)),
        happening(2, 0, 1, Event::Block { t: A, l: M }, Some(B)),
        happening(3, 0, 2, Event::Spin { t: A, l: M }, None),
    ];
    let found = blocks(alloc, 0, &happenings)?;
    Ok(are_delays(&found, 2, B))
}

/// Released at tick 0, taken by entry 1 and complete by entry 6.
const JOB: Job = Job {
    release: Release { first: 0, tick: 0 },
    taken: Some(Point { entry: 1, tick: 0 }),
    completion: Some(Point { entry: 6, tick: 4 }),
};

fn are_threads(found: &[ThreadId], first: ThreadId, second: ThreadId) -> bool {
    found.len() == 2 && found.first() == Some(&first) && found.last() == Some(&second)
}

/// Of five delays the first and the last lie outside of the job, and two of the others are by `c`.
fn are_both_delayers(alloc: Global) -> Result<bool, AllocError> {
    let delays = [
        Delay { entry: 1, by: A },
        Delay { entry: 2, by: C },
        Delay { entry: 4, by: B },
        Delay { entry: 6, by: C },
        Delay { entry: 7, by: A },
    ];
    let found = delayers(alloc, &JOB, &delays)?;
    Ok(are_threads(&found, C, B))
}

#[test]
fn a_job_that_is_late_by_a_tick(rt: HostRuntime) {
    judge(&rt, Judged::Deadlines);
}

#[test]
fn a_thread_that_is_preempted(rt: HostRuntime) {
    is_so(&rt, is_preempted_once(rt.alloc()));
}

#[test]
fn a_thread_that_is_blocked(rt: HostRuntime) {
    is_so(&rt, is_blocked_once(rt.alloc()));
}

#[test]
fn who_delays_a_job(rt: HostRuntime) {
    is_so(&rt, are_both_delayers(rt.alloc()));
}

#[test]
fn means_of_responses(rt: HostRuntime) {
    is_so(&rt, Ok(are_means()));
}
