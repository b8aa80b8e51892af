//! The stretches of a thread, the slices of a processor, and the levels of a thread's priority.

ghost use Rattle.std.specs.Prelude.{◌≡◌, ◌++◌, ◌==◌, ◌∷◌, [], IfOk, OnOk, filter, if◌then◌else◌};
ghost use Rattle.sd_stretches.specs.Sights.{runs_on};
ghost use Rattle.sd_stretches.specs.Rows.{level_to, levels, levels_of, next_of, own_onsets, own_ranks, slices, stretch_to, stretches, stretches_of};

use crate::by_thread::ByThread;
use crate::changes::{Onset, Rank};
use crate::sights::{Doing, runs_on};
use sd_types::Class;
use std::alloc::{AllocError, Global};

/// A stretch of a run over which a thread does one thing: from the state that `first` entries made up to the one that `last`
/// entries made, both with it. So entry `first` - 1 began it (none where `first` is 0) and entry `last` ended it, or, where
/// there are no more than `last` entries, the end of the run. `from` and `to` are the counts of ticks of the processors that
/// made these entries. Class and effective priority are those at its begin.
#[derive(Clone, Copy)]
pub struct Stretch {
    pub thread: usize,
    pub first: u64,
    pub last: u64,
    pub from: u32,
    pub to: u32,
    pub doing: Doing,
    pub class: Class,
    pub priority: u8,
}

// The onset, where it is of the thread.
fn push_own(x: Onset, t: usize, own: &mut Vec<Onset>) -> Result<(), AllocError>
    ensures { OnOk result (own.new.items ≡ own.old.items ++ own_onsets t (x ∷ [])) }
{
    if x.thread == t {
        own.push(x)?;
    }
    Ok(())
}

// Those of one thread.
pub(crate) fn own_onsets(
    alloc: Global,
    onsets: &[Onset],
    t: usize,
) -> Result<Vec<Onset>, AllocError>
    ensures { IfOk result (λ v. v.items ≡ own_onsets t onsets.now) }
{
    let mut own = Vec::new(alloc);
    for x in onsets {
        push_own(*x, t, &mut own)?;
    }
    Ok(own)
}

fn first_onset(onsets: &[Onset]) -> Option<Onset>
    ensures { result ≡ next_of onsets.now }
{
    onsets.first().copied()
}

fn stretch_to(entries: u64, end: u32, x: Onset, next: Option<Onset>) -> Stretch
    ensures { result ≡ stretch_to entries end x next }
{
    let (last, to) = match next {
        Some(y) => (y.first.saturating_sub(1), y.tick),
        None => (entries, end),
    };
    Stretch {
        thread: x.thread,
        first: x.first,
        last,
        from: x.tick,
        to,
        doing: x.doing,
        class: x.class,
        priority: x.priority,
    }
}

// The stretches that the onsets of a thread begin.
#[tactic(auto, unfolding(crate::specs::Rows::stretches_of))]
fn stretches_of(
    alloc: Global,
    own: &[Onset],
    entries: u64,
    end: u32,
) -> Result<Vec<Stretch>, AllocError>
    ensures { IfOk result (λ v. v.items ≡ stretches_of entries end own.now) }
{
    let mut found = Vec::with_capacity(alloc, own.len())?;
    let mut left = own;
    while let Some((x, rest)) = left.split_first() {
        found.push(stretch_to(entries, end, *x, first_onset(rest)))?;
        left = rest;
    }
    Ok(found)
}

/// The stretches of a thread in order, from the history of a run that ended at this tick.
#[tactic(auto, unfolding(crate::specs::Rows::stretches))]
pub fn stretches(
    alloc: Global,
    history: &ByThread,
    t: usize,
    end: u32,
) -> Result<Vec<Stretch>, AllocError>
    ensures { IfOk result (λ v. v.items ≡ stretches t history.now.onsets.items history.now.entries end) }
{
    let entries = history.history.entries;
    match history.onset_row(t) {
        Some(own) => stretches_of(alloc, own, entries, end),
        None => {
            let own = own_onsets(alloc, &history.history.onsets, t)?;
            stretches_of(alloc, &own, entries, end)
        }
    }
}

// The first onset of the thread.
fn next_onset(onsets: &[Onset], t: usize) -> Option<Onset>
    ensures { result ≡ next_of (own_onsets t onsets.now) }
{
    for x in onsets {
        if x.thread == t {
            return Some(*x);
        }
    }
    None
}

// The stretch that begins with the onset, where it is one over which the thread runs on the processor; the rest are the onsets
// that follow.
fn push_slice(
    x: Onset,
    rest: &[Onset],
    c: u16,
    entries: u64,
    end: u32,
    found: &mut Vec<Stretch>,
) -> Result<(), AllocError>
    ensures { OnOk result (found.new.items ≡ found.old.items
        ++ (if runs_on c x.doing then stretch_to entries end x (next_of (own_onsets x.thread rest.now)) ∷ [] else [])) }
{
    if runs_on(c, x.doing) {
        found.push(stretch_to(entries, end, x, next_onset(rest, x.thread)))?;
    }
    Ok(())
}

/// The slices of a processor, the stretches over which a thread runs on it, in the order in which they begin: from the onsets of
/// a run of so many entries, which ended at this tick.
#[tactic(auto, unfolding(crate::specs::Rows::slices))]
pub(crate) fn slices(
    alloc: Global,
    onsets: &[Onset],
    c: u16,
    entries: u64,
    end: u32,
) -> Result<Vec<Stretch>, AllocError>
    ensures { IfOk result (λ v. v.items ≡ slices c onsets.now entries end) }
{
    let mut found = Vec::new(alloc);
    let mut left = onsets;
    while let Some((x, rest)) = left.split_first() {
        push_slice(*x, rest, c, entries, end, &mut found)?;
        left = rest;
    }
    Ok(found)
}

/// Over which ticks a thread has this effective priority, inherited or its own: from the state that `first` entries made on.
#[derive(Clone, Copy)]
pub struct Level {
    pub first: u64,
    pub from: u32,
    pub to: u32,
    pub priority: u8,
    pub inherited: bool,
}

// The rank, where it is of the thread.
fn push_own_rank(x: Rank, t: usize, own: &mut Vec<Rank>) -> Result<(), AllocError>
    ensures { OnOk result (own.new.items ≡ own.old.items ++ own_ranks t (x ∷ [])) }
{
    if x.thread == t {
        own.push(x)?;
    }
    Ok(())
}

// Those of one thread.
pub(crate) fn own_ranks(alloc: Global, ranks: &[Rank], t: usize) -> Result<Vec<Rank>, AllocError>
    ensures { IfOk result (λ v. v.items ≡ own_ranks t ranks.now) }
{
    let mut own = Vec::new(alloc);
    for x in ranks {
        push_own_rank(*x, t, &mut own)?;
    }
    Ok(own)
}

fn first_rank(ranks: &[Rank]) -> Option<Rank>
    ensures { result ≡ next_of ranks.now }
{
    ranks.first().copied()
}

fn level_to(end: u32, x: Rank, next: Option<Rank>) -> Level
    ensures { result ≡ level_to end x next }
{
    Level {
        first: x.first,
        from: x.tick,
        to: match next {
            Some(y) => y.tick,
            None => end,
        },
        priority: x.priority,
        inherited: x.inherited,
    }
}

// The levels that the ranks of a thread begin.
#[tactic(auto, unfolding(crate::specs::Rows::levels_of))]
fn levels_of(alloc: Global, own: &[Rank], end: u32) -> Result<Vec<Level>, AllocError>
    ensures { IfOk result (λ v. v.items ≡ levels_of end own.now) }
{
    let mut found = Vec::with_capacity(alloc, own.len())?;
    let mut left = own;
    while let Some((x, rest)) = left.split_first() {
        found.push(level_to(end, *x, first_rank(rest)))?;
        left = rest;
    }
    Ok(found)
}

/// The levels of a thread's priority in order, from the history of a run that ended at this tick.
#[tactic(auto, unfolding(crate::specs::Rows::levels))]
pub fn levels(
    alloc: Global,
    history: &ByThread,
    t: usize,
    end: u32,
) -> Result<Vec<Level>, AllocError>
    ensures { IfOk result (λ v. v.items ≡ levels t history.now.ranks.items end) }
{
    match history.rank_row(t) {
        Some(own) => levels_of(alloc, own, end),
        None => {
            let own = own_ranks(alloc, &history.history.ranks, t)?;
            levels_of(alloc, &own, end)
        }
    }
}
