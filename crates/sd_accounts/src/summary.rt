//! The summary of a run.

ghost use Rattle.std.specs.Prelude.{◌≡◌, ◌++◌, OnOk, OnErr, List as Items, codes, count_by, decimal};
ghost use Rattle.sd_types.specs.declared.events.Entry.{Entry as EntryValue};
ghost use Rattle.sd_types.specs.declared.works.Work.{Work as WorkValue};
ghost use Rattle.sd_machine.specs.Threads.{has_ended};
ghost use Rattle.sd_machine.specs.Texts.{count_line, summary_of};
ghost use Rattle.sd_accounts.specs.Counters.{HasTaken, counted_summary};

use crate::accounts::Accounts;
use crate::counters::Totals;
use crate::lines::put_count;
use sd_state::{Place, State};
use std::alloc::{AllocError, Global};

fn has_ended(place: &Place) -> bool
    ensures { result ≡ has_ended place.now }
{
    matches!(place, Place::Ended)
}

fn ended(s: &State) -> usize
    ensures { result ≡ count_by (λ t. has_ended t.place) s.now.threads }
{
    s.threads
        .items()
        .iter()
        .filter(|x| has_ended(&x.place))
        .count()
}

// The line of a count: its word, with a space behind it, and the number.
fn put_count_line(word: &[u8], n: u64, out: &mut Vec<u8>) -> Result<(), AllocError>
    ensures { OnOk result (out.new.items ≡ out.old.items ++ (word.now ++ decimal n ++ codes "\n")) }
{
    put_count(word, n, out)?;
    out.extend_from_slice(b"\n")
}

fn put_first_counts(x: Totals, out: &mut Vec<u8>) -> Result<(), AllocError>
    ensures { OnOk result (out.new.items ≡ out.old.items ++ (count_line (codes "entries") x.entries ++ (count_line (codes "ticks") x.ticks
        ++ (count_line (codes "idle") x.idle ++ (count_line (codes "dispatches") x.dispatches ++ count_line (codes "steals") x.steals))))) }
{
    put_count_line(b"entries ", x.entries, out)?;
    put_count_line(b"ticks ", x.ticks, out)?;
    put_count_line(b"idle ", x.idle, out)?;
    put_count_line(b"dispatches ", x.dispatches, out)?;
    put_count_line(b"steals ", x.steals, out)
}

fn put_other_counts(x: Totals, out: &mut Vec<u8>) -> Result<(), AllocError>
    ensures { OnOk result (out.new.items ≡ out.old.items ++ (count_line (codes "preempts") x.preempts ++ (count_line (codes "wakes") x.wakes
        ++ (count_line (codes "blocks") x.blocks ++ count_line (codes "wills") x.wills)))) }
{
    put_count_line(b"preempts ", x.preempts, out)?;
    put_count_line(b"wakes ", x.wakes, out)?;
    put_count_line(b"blocks ", x.blocks, out)?;
    put_count_line(b"wills ", x.wills, out)
}

#[tactic(auto, unfolding(crate::specs::Counters::counted_summary))]
fn put_summary(x: Totals, s: &State, out: &mut Vec<u8>) -> Result<(), AllocError>
    ensures { OnOk result (out.new.items ≡ out.old.items ++ counted_summary x s.now) }
{
    put_first_counts(x, out)?;
    put_other_counts(x, out)?;
    put_count_line(b"ended ", ended(s) as u64, out)
}

fn write_totals(x: Totals, alloc: Global, s: &State, out: &mut Vec<u8>) -> Result<(), AllocError>
    ensures ok { OnOk result (out.new.items ≡ out.old.items ++ counted_summary x s.now) }
    ensures err { OnErr result (out.new.items ≡ out.old.items) }
{
    let mut text = Vec::new(alloc);
    put_summary(x, s, &mut text)?;
    out.extend_from_slice(&text)
}

impl Accounts {
    /// Appends the summary: ten lines, each a word and a number. The state is the final one of the run. Where memory runs
    /// out, `out` is as it was.
    pub fn write_summary(
        &self,
        alloc: Global,
        s: &State,
        out: &mut Vec<u8>,
    ) -> Result<(), AllocError>
        ensures ok { OnOk result ((w : WorkValue) (es : Items EntryValue) → HasTaken w es self.now
            → out.new.items ≡ out.old.items ++ summary_of es s.now) }
        ensures err { OnErr result (out.new.items ≡ out.old.items) }
    {
        write_totals(self.totals, alloc, s, out)
    }
}
