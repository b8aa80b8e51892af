//! Which ticks a picture leaves out where it would be too wide: they are folded, since nothing changes in them.

ghost use Rattle.std.specs.Prelude.{◌≡◌, ◌≤◌, ◌<◌, ◌^◌, ◌++◌, IfOk, OnOk, flat_map, length};
ghost use Rattle.std.specs.List.{range_with_len};
ghost use Rattle.sd_layout.specs.Folds.{change_if, changed_by, changed_in, changes_in, first_fit, fits_page, fold_if, folds, folds_from, folds_of, is_gap, is_wide, long, many, place_from, ranked_in, scale_of, stops_of, onset_in};
ghost use Rattle.sd_layout.specs.Marks.{stop_if};

use crate::frames::Frame;
use crate::marks::{is_marked, marks_of};
use sd_stretches::{Happening, History, Onset, Rank};
use sd_types::Event;
use std::alloc::{AllocError, Global};

/// The ticks from `from` up to `to` as one column of a picture: one tick, or those that are folded.
#[derive(Clone, Copy)]
pub struct Column {
    pub from: u32,
    pub to: u32,
}

impl Column {
    /// How many ticks it has.
    pub fn many(&self) -> u64
        ensures { result ≡ many self.now }
    {
        u64::from(self.to.saturating_sub(self.from))
    }
}

// A picture of more ticks would be wider than 1,040 pixels, at one a tick.
const MOST_UNFOLDED: u32 = 760;

// The most folds of a picture.
const MOST_FOLDS: usize = 1000;

// A tick at which something changes, where it was asked for.
fn push_change(frame: Frame, tick: u32, changes: &mut Vec<u32>) -> Result<(), AllocError>
    ensures { OnOk result (changes.new.items ≡ changes.old.items ++ change_if frame tick) }
{
    if frame.from <= tick && tick <= frame.to {
        changes.push(tick)?;
    }
    Ok(())
}

// What threads do changes.
fn push_onsets(frame: Frame, onsets: &[Onset], changes: &mut Vec<u32>) -> Result<(), AllocError>
    ensures { OnOk result (changes.new.items ≡ changes.old.items ++ flat_map (onset_in frame) onsets.now) }
{
    for x in onsets {
        push_change(frame, x.tick, changes)?;
    }
    Ok(())
}

// Priorities change.
fn push_ranks(frame: Frame, ranks: &[Rank], changes: &mut Vec<u32>) -> Result<(), AllocError>
    ensures { OnOk result (changes.new.items ≡ changes.old.items ++ flat_map (ranked_in frame) ranks.now) }
{
    for x in ranks {
        push_change(frame, x.tick, changes)?;
    }
    Ok(())
}

// A tick of a thread that runs, or of a processor with none, changes nothing; one that a thread spins begins and ends.
fn push_changed(frame: Frame, x: &Happening, changes: &mut Vec<u32>) -> Result<(), AllocError>
    ensures { OnOk result (changes.new.items ≡ changes.old.items ++ changed_in frame x.now) }
{
    match x.event {
        Event::Tick { .. } => Ok(()),
        Event::Idle => Ok(()),
        Event::Spin { .. } => {
            push_change(frame, x.tick.saturating_sub(1), changes)?;
            push_change(frame, x.tick, changes)
        }
        _ => push_change(frame, x.tick, changes),
    }
}

fn push_happenings(
    frame: Frame,
    happenings: &[Happening],
    changes: &mut Vec<u32>,
) -> Result<(), AllocError>
    ensures { OnOk result (changes.new.items ≡ changes.old.items ++ flat_map (changed_in frame) happenings.now) }
{
    for x in happenings {
        push_changed(frame, x, changes)?;
    }
    Ok(())
}

// At which of the ticks that were asked for anything changes.
#[tactic(auto, unfolding(crate::specs::Folds::changes_in))]
fn changes_in(alloc: Global, frame: Frame, history: &History) -> Result<Vec<u32>, AllocError>
    ensures { IfOk result (λ v. v.items ≡ changes_in frame history.now) }
{
    let mut changes = Vec::new(alloc);
    push_onsets(frame, &history.onsets, &mut changes)?;
    push_ranks(frame, &history.ranks, &mut changes)?;
    push_happenings(frame, &history.happenings, &mut changes)?;
    Ok(changes)
}

fn push_stop(frame: Frame, changes: bool, tick: u32, stops: &mut Vec<u32>) -> Result<(), AllocError>
    ensures { OnOk result (stops.new.items ≡ stops.old.items ++ stop_if frame changes tick) }
{
    if tick == frame.from || changes {
        stops.push(tick)?;
    }
    Ok(())
}

// The first tick that was asked for, those at which something changes, and the last.
#[tactic(auto, unfolding(crate::specs::Folds::stops_of))]
fn stops_of(alloc: Global, frame: Frame, changes: &[u32]) -> Result<Vec<u32>, AllocError>
    ensures { IfOk result (λ v. v.items ≡ stops_of frame changes.now) }
{
    let marks = marks_of(alloc, frame, changes)?;
    let mut stops = Vec::new(alloc);
    for n in 0..frame.to.saturating_sub(frame.from) {
        let marked = is_marked(&marks, changes, frame.from, n);
        push_stop(frame, marked, frame.from + n, &mut stops)?;
    }
    stops.push(frame.to)?;
    Ok(stops)
}

// All but eight ticks on either side, where there is enough to fold between two changes.
fn push_fold(a: u32, b: u32, found: &mut Vec<Column>) -> Result<(), AllocError>
    ensures { OnOk result (found.new.items ≡ found.old.items ++ fold_if a b) }
{
    if 48 < b.saturating_sub(a) {
        found.push(Column {
            from: a + 8,
            to: b - 8,
        })?;
    }
    Ok(())
}

fn folds_from(alloc: Global, first: u32, stops: &[u32]) -> Result<Vec<Column>, AllocError>
    ensures { IfOk result (λ v. v.items ≡ folds_from first stops.now) }
{
    let mut found = Vec::new(alloc);
    let mut a = first;
    let mut left = stops;
    while let Some((b, more)) = left.split_first() {
        push_fold(a, *b, &mut found)?;
        a = *b;
        left = more;
    }
    Ok(found)
}

#[tactic(auto, unfolding(crate::specs::Folds::folds_of))]
fn folds_of(alloc: Global, stops: &[u32]) -> Result<Vec<Column>, AllocError>
    ensures { IfOk result (λ v. v.items ≡ folds_of stops.now) }
{
    match stops.split_first() {
        Some((first, rest)) => folds_from(alloc, *first, rest),
        None => Ok(Vec::new(alloc)),
    }
}

/// The columns that are folded, a thousand at most.
#[tactic(auto, unfolding(crate::specs::Folds::folds))]
pub(crate) fn folds(
    alloc: Global,
    frame: Frame,
    history: &History,
) -> Result<Vec<Column>, AllocError>
    ensures value { IfOk result (λ v. v.items ≡ folds frame history.now) }
    ensures bound { IfOk result (λ v. length v.items ≤ 1000) }
{
    if frame.to.saturating_sub(frame.from) <= MOST_UNFOLDED {
        return Ok(Vec::new(alloc));
    }
    let changes = changes_in(alloc, frame, history)?;
    let stops = stops_of(alloc, frame, &changes)?;
    let found = folds_of(alloc, &stops)?;
    if found.len() <= MOST_FOLDS {
        Ok(found)
    } else {
        Ok(Vec::new(alloc))
    }
}

// So many ticks as a length.
fn long(scale: u8, a: u32, b: u32) -> u64
    ensures value { result ≡ long scale a b }
    ensures bound { result < 2 ^ 40 }
{
    u64::from(b.saturating_sub(a)) * u64::from(scale)
}

/// How far a tick lies behind another, with the folds that begin behind that: each is 40 pixels wide.
#[tactic(auto, unfolding(crate::specs::Folds::place_from))]
pub(crate) fn place_from(scale: u8, from: u32, tick: u32, folds: &[Column]) -> u64
    requires { length folds.now ≤ 1000 }
    ensures value { result ≡ place_from scale from tick folds.now }
    ensures bound { result < 2 ^ 52 }
{
    let mut start = from;
    let mut sum: u64 = 0;
    let mut left = folds;
    while let Some((x, rest)) = left.split_first() {
        if tick < x.to {
            return sum + long(scale, start, tick.min(x.from));
        }
        sum = sum + (long(scale, start, x.from) + 40);
        start = x.to;
        left = rest;
    }
    sum + long(scale, start, tick)
}

// So many pixels a tick are not too many.
fn fits_page(frame: Frame, folds: &[Column], scale: u8) -> bool
    requires { length folds.now ≤ 1000 }
    ensures { result ≡ fits_page frame folds.now scale }
{
    place_from(scale, frame.from, frame.to, folds) <= 760
}

// The first of these scales that fits, and one pixel a tick where none does.
#[tactic(auto, unfolding(crate::specs::Folds::first_fit))]
fn first_fit(frame: Frame, folds: &[Column], scales: &[u8]) -> u8
    requires { length folds.now ≤ 1000 }
    ensures { result ≡ first_fit frame folds.now scales.now }
{
    let mut left = scales;
    while let Some((scale, rest)) = left.split_first() {
        if fits_page(frame, folds, *scale) {
            return *scale;
        }
        left = rest;
    }
    1
}

// Pixels a tick, widest first.
const SCALES: [u8; 20] = [
    100, 80, 60, 50, 40, 35, 30, 25, 20, 18, 15, 12, 10, 8, 7, 6, 5, 4, 3, 2,
];

/// How many pixels a tick is long: the widest scale that fits.
#[tactic(auto, unfolding(crate::specs::Folds::scale_of))]
pub(crate) fn scale_of(frame: Frame, folds: &[Column]) -> u8
    requires { length folds.now ≤ 1000 }
    ensures { result ≡ scale_of frame folds.now }
{
    first_fit(frame, folds, &SCALES)
}
