//! A row of the statistics: of whom it speaks, what it measures, and the numbers.

ghost use Rattle.std.specs.Prelude.{◌≡◌, ◌++◌, OnOk};
ghost use Rattle.sd_statistics.specs.Rows.{all_of, count_figures, is_nothing, is_zero, row_if, tick_figures};

use crate::activities::Activity;
use crate::cpus::Deed;
use crate::spans::{Span, Summary};
use sd_types::{ChanId, LockId};
use std::alloc::AllocError;

/// Of whom a row speaks: a thread, a processor, a lock, or a task, which is a thread with the semaphore on which it waits.
#[derive(Clone, Copy)]
pub enum Subject {
    Thread(usize),
    Cpu(u16),
    Lock(LockId),
    Task(usize, ChanId),
}

/// What a row measures: what a thread does; the ticks that lie in two of its states (see `thread_rows`); the time from a wakeup
/// to its running; over which ticks it has an inherited priority, and the greatest of these; what a processor does; how often a
/// lock is taken and how long it is held, how often a thread had to spin or wait first, and how often its owner is given the priority
/// of those who wait; the response times of a task, and how many of its jobs are not complete.
#[derive(Clone, Copy)]
pub enum Measure {
    Does(Activity),
    Twice,
    WakeupToRun,
    Inherits,
    Makes(Deed),
    Held,
    Contended,
    HandsOn,
    Responds,
    Unfinished,
}

/// The numbers of a row: how many there are, the sum of their ticks, the longest, and a priority (0 to 159). A row has those that
/// say something.
#[derive(Clone, Copy)]
pub struct Figures {
    pub number: Option<u64>,
    pub ticks: Option<u64>,
    pub longest: Option<Span>,
    pub priority: Option<u64>,
}

/// A row of the statistics.
#[derive(Clone, Copy)]
pub struct Row {
    pub subject: Subject,
    pub measure: Measure,
    pub figures: Figures,
}

pub(crate) fn all_of(x: Summary) -> Figures
    ensures { result ≡ all_of x }
{
    Figures {
        number: Some(x.number),
        ticks: Some(x.ticks),
        longest: x.longest,
        priority: None,
    }
}

pub(crate) fn count_figures(number: u64) -> Figures
    ensures { result ≡ count_figures number }
{
    Figures {
        number: Some(number),
        ticks: None,
        longest: None,
        priority: None,
    }
}

pub(crate) fn tick_figures(ticks: u64) -> Figures
    ensures { result ≡ tick_figures ticks }
{
    Figures {
        number: None,
        ticks: Some(ticks),
        longest: None,
        priority: None,
    }
}

fn is_zero(n: Option<u64>) -> bool
    ensures { result ≡ is_zero n }
{
    match n {
        Some(n) => n == 0,
        None => true,
    }
}

fn is_nothing(figures: &Figures) -> bool
    ensures { result ≡ is_nothing figures.now }
{
    is_zero(figures.number) && is_zero(figures.ticks) && is_zero(figures.priority)
}

/// Appends the row, where it has something to count.
pub(crate) fn push_row(row: Row, out: &mut Vec<Row>) -> Result<(), AllocError>
    ensures { OnOk result (out.new.items ≡ out.old.items ++ row_if row) }
{
    if !is_nothing(&row.figures) {
        out.push(row)?;
    }
    Ok(())
}
