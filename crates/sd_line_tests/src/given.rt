//! What the tests are given: a workload, over which the texts of each are judged.

use crate::events::{wrong_answer, wrong_event, wrong_numbers};
use crate::lines::{line_read, wrong_line};
use sd_types::Work;
use sd_workload::read_work;
use std::alloc::{AllocError, Global};
use std::process::Abort;

/// Two threads a and b, a mutex m, a rwlock w, a channel k, a semaphore q and a set s of 12 processors.
const NAMED: &[u8] =
    b"cpus 12\nlimit 2\nset s 1\nmutex m\nrwlock w\nchan k\nsema q 0\nthread a sys 60\nthread b sys 60\n";

/// The texts of one test.
#[derive(Clone, Copy)]
pub enum Texts {
    PlainEvents,
    Answers,
    Numbers,
    Lines,
    OtherLines,
}

/// The first of the texts that is not as it should be, over this workload.
fn wrong_in(alloc: Global, work: &Work, texts: Texts) -> Result<Option<&'static str>, AllocError> {
    match texts {
        Texts::PlainEvents => wrong_event(alloc, work),
        Texts::Answers => wrong_answer(alloc, work),
        Texts::Numbers => wrong_numbers(alloc, work),
        Texts::Lines => wrong_line(alloc, work),
        Texts::OtherLines => line_read(alloc, work),
    }
}

/// The first of the texts that is not as it should be, over the workload of these names. It owns the workload for all tests, since a
/// function that drops one takes half a minute to prove.
fn wrong_text(alloc: Global, texts: Texts) -> Result<Option<&'static str>, AllocError> {
    match read_work(alloc, NAMED) {
        Ok(work) => wrong_in(alloc, &work, texts),
        Err(_) => Ok(Some("no work")),
    }
}

/// All of the texts are as they should be. A test returns nothing and calls this, since one that returns a fault takes long to prove.
pub fn judge<R: Abort + AllocGlobal>(rt: &R, texts: Texts) {
    let wrong = wrong_text(rt.alloc(), texts);
    assert!(rt; matches!(wrong, Ok(None)), "{wrong:?}");
}
