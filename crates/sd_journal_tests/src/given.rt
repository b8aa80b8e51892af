//! What the tests are given: workloads, over which each is judged, and states of threads.

use crate::accounts::{wrong_places, wrong_run};
use crate::audits::wrong_verdict;
use crate::deadlines::wrong_deadlines;
use crate::drawings::{wrong_drawing, wrong_picture, wrong_story};
use crate::reports::{wrong_jobs, wrong_report};
use crate::sentences::{Half, wrong_sentence};
use crate::{accounts, audits, deadlines, drawings, reports, sentences};
use arrayvec::ArrayVec;
use sd_state::{CpuState, LockState, Place, State, ThreadState};
use sd_types::{ClassState, CpuId, List, SysState, ThreadBody, Work};
use sd_workload::read_work;
use std::alloc::{AllocError, Global};
use std::process::Abort;

/// What is judged over a workload, by one test.
#[derive(Clone, Copy)]
pub enum Judged {
    Run,
    Places,
    Journals,
    Drawings,
    Picture,
    Stories,
    Report,
    Jobs,
    Deadlines,
    EarlySentences,
    LateSentences,
}

/// The workload over which it is judged.
fn workload_of(judged: Judged) -> &'static [u8] {
    match judged {
        Judged::Run | Judged::Places => accounts::SMALL,
        Judged::Journals => audits::WORK,
        Judged::Drawings | Judged::Stories => drawings::WORKLOAD,
        Judged::Picture => drawings::LOCKED,
        Judged::Report => reports::WORKLOAD,
        Judged::Jobs => reports::JOBS_WORKLOAD,
        Judged::Deadlines => deadlines::WORKLOAD,
        Judged::EarlySentences | Judged::LateSentences => sentences::NAMED,
    }
}

/// The first that is not as it should be, over this workload.
fn wrong_in(
    alloc: Global,
    work: &Work,
    judged: Judged,
) -> Result<Option<&'static str>, AllocError> {
    match judged {
        Judged::Run => wrong_run(alloc, work),
        Judged::Places => wrong_places(alloc, work),
        Judged::Journals => Ok(wrong_verdict(alloc, work)),
        Judged::Drawings => Ok(wrong_drawing(alloc, work)),
        Judged::Picture => Ok(wrong_picture(alloc, work)),
        Judged::Stories => Ok(wrong_story(alloc, work)),
        Judged::Report => wrong_report(alloc, work),
        Judged::Jobs => wrong_jobs(alloc, work),
        Judged::Deadlines => wrong_deadlines(alloc, work),
        Judged::EarlySentences => wrong_sentence(alloc, work, Half::Early),
        Judged::LateSentences => wrong_sentence(alloc, work, Half::Late),
    }
}

/// The first that is not as it should be. It owns the workload for all tests, since a function that drops one takes long to prove.
fn wrong(alloc: Global, judged: Judged) -> Result<Option<&'static str>, AllocError> {
    let text = workload_of(judged);
    if text.len() >= 1000 {
        return Ok(Some("a large workload"));
    }
    match read_work(alloc, text) {
        Ok(work) => wrong_in(alloc, &work, judged),
        Err(_) => Ok(Some("no work")),
    }
}

/// All of it is as it should be. A test returns nothing and calls this, since one that returns a fault takes long to prove.
pub fn judge<R: Abort + AllocGlobal>(rt: &R, judged: Judged) {
    let wrong = wrong(rt.alloc(), judged);
    assert!(rt; matches!(wrong, Ok(None)), "{wrong:?}");
}

/// No case is wrong, of which the first would be told by its index, and memory did not run out.
pub fn judge_cases<R: Abort>(rt: &R, wrong: Result<Option<usize>, AllocError>) {
    assert!(rt; matches!(wrong, Ok(None)), "case {wrong:?}");
}

/// It is so, and memory did not run out.
pub fn is_so<R: Abort>(rt: &R, is_so: Result<bool, AllocError>) {
    assert!(rt; matches!(is_so, Ok(true)));
}

/// A thread of the system class in this place.
pub fn in_place(place: Place) -> ThreadState {
    ThreadState {
        body: ThreadBody {
            class: ClassState::Sys(SysState { pri: 60 }),
            willed: ArrayVec::new(),
            held: ArrayVec::new(),
            op: 0,
            run_left: 0,
            back: false,
            last: CpuId(0),
            left_at: None,
            looped: false,
            bound: None,
        },
        place,
    }
}

/// A state of these threads, locks and processors.
pub fn state(
    alloc: Global,
    threads: Vec<ThreadState>,
    locks: Vec<LockState>,
    cpus: Vec<CpuState>,
) -> State {
    State {
        threads: List::from_vec(threads),
        locks: List::from_vec(locks),
        cpus: List::from_vec(cpus),
        counts: List::from_vec(Vec::new(alloc)),
        open_cpus: List::from_vec(Vec::new(alloc)),
    }
}
