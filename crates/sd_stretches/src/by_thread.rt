//! A history apart by thread, so that what one thread does is found without a look at what all others do.

ghost use Rattle.std.specs.Prelude.{◌≡◌, ◌++◌, IfOk, IfSome, OnOk, ℕ, List as Items, []};
ghost use Rattle.sd_stretches.specs.declared.histories.History.{History as HistoryValue};
ghost use Rattle.sd_stretches.specs.declared.spin_pieces.Spell.{Spell as SpellValue};
ghost use Rattle.sd_stretches.specs.declared.spin_pieces.Track.TheVariants as track;
ghost use Rattle.sd_stretches.specs.Parted.{ArePartsOf, AreRows, Puts};
ghost use Rattle.sd_stretches.specs.Rows.{own_onsets as own_onsets_in, own_ranks as own_ranks_in, own_wakeups as own_wakeups_in};
ghost use Rattle.sd_stretches.specs.SpinPieces.{spell_by, spells_on as spells_in};

use crate::changes::{Happening, Onset, Rank, Wakeup};
use crate::histories::History;
use crate::spin_pieces::{Spell, Track, spell_at, spells_on};
use sd_types::Event;
use std::alloc::{AllocError, Global};
use std::marker::Model;

/// A history, and beside it what each of its threads does, apart.
#[derive(Drop)]
pub struct ByThread {
    pub history: History,
    onsets: Vec<Vec<Onset>>,
    ranks: Vec<Vec<Rank>>,
    spells: Vec<Vec<Spell>>,
    wakeups: Vec<Vec<Wakeup>>,
}

impl Model for ByThread {
    ghost Value = { HistoryValue };

    ghost view = { λ f. f.history };

    ghost invariant = { λ f. ArePartsOf f.history f.onsets.items f.ranks.items f.spells.items f.wakeups.items };
}

// A row for each of so many threads, with nothing in it.
fn no_rows<T: Drop>(alloc: Global, count: usize) -> Result<Vec<Vec<T>>, AllocError>
    ensures { IfOk result (λ rows. AreRows (λ t. []) rows.items) }
{
    let mut rows = Vec::new(alloc);
    for _ in 0..count {
        rows.push(Vec::new(alloc))?;
    }
    Ok(rows)
}

// Appends to the row of a thread, if it has one.
fn put<T: Drop>(rows: &mut Vec<Vec<T>>, t: usize, x: T) -> Result<(), AllocError>
    ensures { OnOk result (Puts t x rows.old.items rows.new.items) }
{
    if t < rows.len() {
        rows[t].push(x)?;
    }
    Ok(())
}

fn onset_rows(alloc: Global, count: usize, onsets: &[Onset]) -> Result<Vec<Vec<Onset>>, AllocError>
    ensures { IfOk result (λ rows. AreRows (λ t. own_onsets_in t onsets.now) rows.items) }
{
    let mut rows = no_rows(alloc, count)?;
    for x in onsets {
        put(&mut rows, x.thread, *x)?;
    }
    Ok(rows)
}

fn rank_rows(alloc: Global, count: usize, ranks: &[Rank]) -> Result<Vec<Vec<Rank>>, AllocError>
    ensures { IfOk result (λ rows. AreRows (λ t. own_ranks_in t ranks.now) rows.items) }
{
    let mut rows = no_rows(alloc, count)?;
    for x in ranks {
        put(&mut rows, x.thread, *x)?;
    }
    Ok(rows)
}

// The tick that an entry spends spinning goes to the row of its thread.
fn put_spell(rows: &mut Vec<Vec<Spell>>, x: &Happening) -> Result<(), AllocError>
    ensures { OnOk result ((f : ℕ → Items SpellValue) → AreRows f rows.old.items
        → AreRows (λ t. f t ++ spell_by (track.Thread t) x.now x.now.event) rows.new.items) }
{
    if let Event::Spin { t, l } = x.event {
        put(rows, t.0 as usize, spell_at(l, x))?;
    }
    Ok(())
}

fn spell_rows(
    alloc: Global,
    count: usize,
    happenings: &[Happening],
) -> Result<Vec<Vec<Spell>>, AllocError>
    ensures { IfOk result (λ rows. AreRows (λ t. spells_in (track.Thread t) happenings.now) rows.items) }
{
    let mut rows = no_rows(alloc, count)?;
    for x in happenings {
        put_spell(&mut rows, x)?;
    }
    Ok(rows)
}

fn wakeup_rows(
    alloc: Global,
    count: usize,
    wakeups: &[Wakeup],
) -> Result<Vec<Vec<Wakeup>>, AllocError>
    ensures { IfOk result (λ rows. AreRows (λ t. own_wakeups_in t wakeups.now) rows.items) }
{
    let mut rows = no_rows(alloc, count)?;
    for x in wakeups {
        put(&mut rows, x.woken.0 as usize, *x)?;
    }
    Ok(rows)
}

impl History {
    /// The same history, with what each of its threads does apart. Takes as much memory again as what it parts.
    pub fn by_thread(self, alloc: Global) -> Result<ByThread, AllocError>
        ensures { IfOk result (λ h. h ≡ self) }
    {
        let count = self.sights.len();
        let onsets = onset_rows(alloc, count, &self.onsets)?;
        let ranks = rank_rows(alloc, count, &self.ranks)?;
        let spells = spell_rows(alloc, count, &self.happenings)?;
        let wakeups = wakeup_rows(alloc, count, &self.wakeups)?;
        Ok(ByThread {
            history: self,
            onsets,
            ranks,
            spells,
            wakeups,
        })
    }
}

fn copied<T: Copy + Drop>(alloc: Global, items: &[T]) -> Result<Vec<T>, AllocError>
    ensures { IfOk result (λ v. v.items ≡ items.now) }
{
    let mut all = Vec::new(alloc);
    all.extend_from_slice(items)?;
    Ok(all)
}

impl ByThread {
    /// The onsets of a thread, where they stand apart.
    pub(crate) fn onset_row(&self, t: usize) -> Option<&[Onset]>
        ensures { IfSome result (λ row. row.now ≡ own_onsets_in t self.now.onsets.items) }
    {
        match self.onsets.get(t) {
            Some(row) => Some(row.as_slice()),
            None => None,
        }
    }

    /// The ranks of a thread, where they stand apart.
    pub(crate) fn rank_row(&self, t: usize) -> Option<&[Rank]>
        ensures { IfSome result (λ row. row.now ≡ own_ranks_in t self.now.ranks.items) }
    {
        match self.ranks.get(t) {
            Some(row) => Some(row.as_slice()),
            None => None,
        }
    }

    /// The ticks that a thread spends spinning.
    pub(crate) fn spells_of(&self, alloc: Global, t: usize) -> Result<Vec<Spell>, AllocError>
        ensures { IfOk result (λ v. v.items ≡ spells_in (track.Thread t) self.now.happenings.items) }
    {
        match self.spells.get(t) {
            Some(row) => copied(alloc, row),
            None => spells_on(alloc, Track::Thread(t), &self.history.happenings),
        }
    }

    /// The wakeups of a thread, where they stand apart.
    pub fn wakeup_row(&self, t: usize) -> Option<&[Wakeup]>
        ensures { IfSome result (λ row. row.now ≡ own_wakeups_in t self.now.wakeups.items) }
    {
        match self.wakeups.get(t) {
            Some(row) => Some(row.as_slice()),
            None => None,
        }
    }
}
