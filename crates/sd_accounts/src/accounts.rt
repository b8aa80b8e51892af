//! The accounts: counters that take in one entry at a time.

ghost use Rattle.std.specs.Prelude.{◌≡◌, ◌<◌, ◌^◌, ◌∷◌, [], ◌++◌, length, List as Items, IfOk, replicate};
ghost use Rattle.sd_types.specs.declared.events.Entry.{Entry as EntryValue};
ghost use Rattle.sd_types.specs.declared.works.Work.{Work as WorkValue};
ghost use Rattle.sd_accounts.specs.Counters.{HasTaken, cpus_after, no_cpu_counts, no_thread_counts, threads_after, totals_after};

use crate::counters::{CpuCounts, ThreadCounts, Totals, count_cpu, count_thread, totals_after};
use sd_types::{CpuId, Entry, Event, List, Work};
use std::alloc::{AllocError, Global};

/// The counters of a run so far: of each thread, of each processor and of all entries. Which entries they have taken in
/// is said by `HasTaken`.
#[derive(Drop)]
pub struct Accounts {
    pub(crate) threads: List<ThreadCounts>,
    pub(crate) cpus: List<CpuCounts>,
    pub(crate) totals: Totals,
}

impl Accounts {
    /// The accounts of a workload's run before its first entry.
    pub fn new(alloc: Global, work: &Work) -> Result<Accounts, AllocError>
        ensures { IfOk result (λ a. HasTaken work.now [] a) }
    {
        Ok(Accounts {
            threads: List::from_vec(no_threads(alloc, work.threads.items().len())?),
            cpus: List::from_vec(no_cpus(alloc, work.cpus)?),
            totals: Totals::NONE,
        })
    }

    /// Takes in the next entry, in the same time however many there were.
    #[inline(always)]
    pub fn add(&mut self, entry: &Entry)
        ensures { (w : WorkValue) (es : Items EntryValue) → length es < 2 ^ 48
            → HasTaken w es self.old → HasTaken w (es ++ entry.now ∷ []) self.new }
    {
        self.add_event(entry.cpu, &entry.event);
    }

    /// Takes in the next entry, of which this is the processor and the event: nothing else of it is counted.
    #[inline(always)]
    pub fn add_event(&mut self, cpu: CpuId, event: &Event)
        ensures { (w : WorkValue) (es : Items EntryValue) (e : EntryValue) → e.cpu ≡ cpu → e.event ≡ event.now → length es < 2 ^ 48
            → HasTaken w es self.old → HasTaken w (es ++ e ∷ []) self.new }
    {
        match *event {
            Event::Idle => self.count(cpu, &Event::Idle),
            Event::Tick { t } => self.count(cpu, &Event::Tick { t }),
            event => self.count(cpu, &event),
        }
    }

    /// Counts an event of processor `c`. In the place of a call with one of the two most frequent events, nothing is left of it but their
    /// own counters.
    #[inline(always)]
    fn count(&mut self, c: CpuId, event: &Event)
        ensures threads { self.new.threads ≡ threads_after event.now self.old.threads }
        ensures cpus { self.new.cpus ≡ cpus_after c.0 event.now self.old.cpus }
        ensures totals { self.new.totals ≡ totals_after event.now self.old.totals }
    {
        count_thread(event, &mut self.threads);
        count_cpu(c, event, &mut self.cpus);
        self.totals = totals_after(event, self.totals);
    }
}

fn no_threads(alloc: Global, count: usize) -> Result<Vec<ThreadCounts>, AllocError>
    ensures { IfOk result (λ v. v.items ≡ replicate count no_thread_counts) }
{
    vec![in alloc; ThreadCounts::NONE; count]
}

fn no_cpus(alloc: Global, count: u16) -> Result<Vec<CpuCounts>, AllocError>
    ensures { IfOk result (λ v. v.items ≡ replicate count no_cpu_counts) }
{
    vec![in alloc; CpuCounts::NONE; count as usize]
}
