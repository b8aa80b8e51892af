//! The lines of the accounts, behind the entries of a journal.

ghost use Rattle.std.specs.Prelude.{◌≡◌, ◌++◌, OnOk, OnErr, List as Items, codes, decimal, map, slice_index_or};
ghost use Rattle.sd_types.specs.declared.events.Entry.{Entry as EntryValue};
ghost use Rattle.sd_state.specs.States.{thread_of};
ghost use Rattle.sd_state.specs.Texts.{accounts_text, chan_name, lock_name, state_text};
ghost use Rattle.sd_machine.specs.LockGraph.{cycles_of};
ghost use Rattle.sd_machine.specs.Texts.{cycles_text};
ghost use Rattle.sd_accounts.specs.Counters.{HasTaken, counted_cpu_line, counted_cpus_text, counted_text, counted_thread_line, counted_threads_text, no_cpu_counts, no_thread_counts};

use crate::accounts::Accounts;
use crate::counters::{CpuCounts, ThreadCounts};
use crate::cycle_lines::put_cycles;
use crate::laps::cycles;
use sd_entries::{put_chan_name, put_lock_name, put_thread_name};
use sd_state::{Place, State};
use sd_text::put_number;
use sd_types::{ChanId, LockId, Work};
use std::alloc::{AllocError, Global};

// A word and a number.
pub(crate) fn put_count(word: &[u8], n: u64, out: &mut Vec<u8>) -> Result<(), AllocError>
    ensures { OnOk result (out.new.items ≡ out.old.items ++ (word.now ++ decimal n)) }
{
    out.extend_from_slice(word)?;
    put_number(out, n)
}

fn put_waiting(work: &Work, l: LockId, out: &mut Vec<u8>) -> Result<(), AllocError>
    ensures { OnOk result (out.new.items ≡ out.old.items ++ (codes "waiting " ++ lock_name work.now l.0)) }
{
    out.extend_from_slice(b"waiting ")?;
    put_lock_name(work, l, out)
}

fn put_asleep(work: &Work, k: ChanId, out: &mut Vec<u8>) -> Result<(), AllocError>
    ensures { OnOk result (out.new.items ≡ out.old.items ++ (codes "asleep " ++ chan_name work.now k.0)) }
{
    out.extend_from_slice(b"asleep ")?;
    put_chan_name(work, k, out)
}

fn put_state(work: &Work, place: Place, out: &mut Vec<u8>) -> Result<(), AllocError>
    ensures { OnOk result (out.new.items ≡ out.old.items ++ state_text work.now place) }
{
    match place {
        Place::Running(_) => out.extend_from_slice(b"running"),
        Place::Queued(_, _) => out.extend_from_slice(b"queued"),
        Place::RealTime(_, _) => out.extend_from_slice(b"queued"),
        Place::Waiting(l, _, _) => put_waiting(work, l, out),
        Place::Asleep(k, _) => put_asleep(work, k, out),
        Place::Napping(_, _) => out.extend_from_slice(b"napping"),
        Place::Ended => out.extend_from_slice(b"ended"),
    }
}

fn place_of(s: &State, t: usize) -> Place
    ensures { result ≡ (thread_of s.now t).place }
{
    match s.threads.items().get(t) {
        Some(x) => x.place,
        None => Place::Ended,
    }
}

fn counts_at(threads: &[ThreadCounts], t: usize) -> ThreadCounts
    ensures { result ≡ slice_index_or threads.now t no_thread_counts }
{
    match threads.get(t) {
        Some(x) => *x,
        None => ThreadCounts::NONE,
    }
}

fn cpu_counts_at(cpus: &[CpuCounts], c: u16) -> CpuCounts
    ensures { result ≡ slice_index_or cpus.now c no_cpu_counts }
{
    match cpus.get(c as usize) {
        Some(x) => *x,
        None => CpuCounts::NONE,
    }
}

#[tactic(auto, unfolding(crate::specs::Counters::counted_text))]
fn put_counts(x: ThreadCounts, out: &mut Vec<u8>) -> Result<(), AllocError>
    ensures { OnOk result (out.new.items ≡ out.old.items ++ counted_text x) }
{
    put_count(b" ticks ", x.ticks, out)?;
    put_count(b" dispatches ", x.dispatches, out)?;
    put_count(b" preempts ", x.preempts, out)?;
    put_count(b" wakes ", x.wakes, out)
}

#[tactic(auto, unfolding(crate::specs::Counters::counted_thread_line))]
fn put_thread_line(
    work: &Work,
    threads: &[ThreadCounts],
    s: &State,
    t: usize,
    out: &mut Vec<u8>,
) -> Result<(), AllocError>
    ensures { OnOk result (out.new.items ≡ out.old.items ++ counted_thread_line work.now threads.now s.now t) }
{
    out.extend_from_slice(b"thread ")?;
    put_thread_name(work, t, out)?;
    put_counts(counts_at(threads, t), out)?;
    out.extend_from_slice(b" ")?;
    put_state(work, place_of(s, t), out)?;
    out.extend_from_slice(b"\n")
}

#[tactic(auto, unfolding(crate::specs::Counters::counted_cpu_line))]
fn put_cpu_line(cpus: &[CpuCounts], c: u16, out: &mut Vec<u8>) -> Result<(), AllocError>
    ensures { OnOk result (out.new.items ≡ out.old.items ++ counted_cpu_line cpus.now c) }
{
    let x = cpu_counts_at(cpus, c);
    put_count(b"cpu ", u64::from(c), out)?;
    put_count(b" ticks ", x.ticks, out)?;
    put_count(b" idle ", x.idle, out)?;
    out.extend_from_slice(b"\n")
}

#[tactic(auto, unfolding(crate::specs::Counters::counted_threads_text))]
fn put_threads(
    work: &Work,
    threads: &[ThreadCounts],
    s: &State,
    out: &mut Vec<u8>,
) -> Result<(), AllocError>
    ensures { OnOk result (out.new.items ≡ out.old.items ++ counted_threads_text work.now threads.now s.now) }
{
    for t in 0..work.threads.items().len() {
        put_thread_line(work, threads, s, t, out)?;
    }
    Ok(())
}

#[tactic(auto, unfolding(crate::specs::Counters::counted_cpus_text))]
fn put_cpus(work: &Work, cpus: &[CpuCounts], out: &mut Vec<u8>) -> Result<(), AllocError>
    ensures { OnOk result (out.new.items ≡ out.old.items ++ counted_cpus_text work.now cpus.now) }
{
    for c in 0..work.cpus {
        put_cpu_line(cpus, c, out)?;
    }
    Ok(())
}

fn put_accounts(
    accounts: &Accounts,
    work: &Work,
    s: &State,
    out: &mut Vec<u8>,
) -> Result<(), AllocError>
    ensures { OnOk result (out.new.items ≡ out.old.items ++ (codes "accounts\n"
        ++ (counted_threads_text work.now accounts.now.threads s.now ++ counted_cpus_text work.now accounts.now.cpus))) }
{
    out.extend_from_slice(b"accounts\n")?;
    put_threads(work, accounts.threads.items(), s, out)?;
    put_cpus(work, accounts.cpus.items(), out)
}

fn write_counted(
    accounts: &Accounts,
    alloc: Global,
    work: &Work,
    s: &State,
    cycles: &[Vec<usize>],
    out: &mut Vec<u8>,
) -> Result<(), AllocError>
    requires { map (λ v. v.items) cycles.now ≡ cycles_of s.now }
    ensures ok { OnOk result (out.new.items ≡ out.old.items ++ (codes "accounts\n"
        ++ (counted_threads_text work.now accounts.now.threads s.now ++ counted_cpus_text work.now accounts.now.cpus)
        ++ cycles_text work.now s.now)) }
    ensures err { OnErr result (out.new.items ≡ out.old.items) }
{
    let mut text = Vec::new(alloc);
    put_accounts(accounts, work, s, &mut text)?;
    put_cycles(work, s, cycles, &mut text)?;
    out.extend_from_slice(&text)
}

impl Accounts {
    /// Appends what a journal has behind its entries: the line `accounts`, a line for each thread with its counts and its
    /// place in the state, a line for each processor, and a line for each blocking cycle of the state, which are these. Where
    /// memory runs out, `out` is as it was.
    #[tactic(auto, using(crate::proofs::TextLemmas::accounts_same))]
    pub fn write_accounts_with(
        &self,
        alloc: Global,
        work: &Work,
        s: &State,
        cycles: &[Vec<usize>],
        out: &mut Vec<u8>,
    ) -> Result<(), AllocError>
        requires { map (λ v. v.items) cycles.now ≡ cycles_of s.now }
        ensures ok { OnOk result ((es : Items EntryValue) → HasTaken work.now es self.now
            → out.new.items ≡ out.old.items ++ (accounts_text work.now es s.now ++ cycles_text work.now s.now)) }
        ensures err { OnErr result (out.new.items ≡ out.old.items) }
    {
        write_counted(self, alloc, work, s, cycles, out)
    }

    /// The same, with the blocking cycles sought in the state.
    pub fn write_accounts(
        &self,
        alloc: Global,
        work: &Work,
        s: &State,
        out: &mut Vec<u8>,
    ) -> Result<(), AllocError>
        ensures ok { OnOk result ((es : Items EntryValue) → HasTaken work.now es self.now
            → out.new.items ≡ out.old.items ++ (accounts_text work.now es s.now ++ cycles_text work.now s.now)) }
        ensures err { OnErr result (out.new.items ≡ out.old.items) }
    {
        let found = cycles(alloc, s)?;
        self.write_accounts_with(alloc, work, s, &found, out)
    }
}
