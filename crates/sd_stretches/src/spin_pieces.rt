//! Spinning: the ticks that a running thread spends spinning for a lock, and the stretches of a track cut at them.
//!
//! Source: Solaris Internals (adaptive mutexes).

ghost use Rattle.std.specs.Prelude.{◌≡◌, ◌++◌, ◌-◌, ◌≤◌, IfOk, OnOk, length};
ghost use Rattle.sd_stretches.specs.SpinPieces.{before, cut, cut_all, extended, goes_on, is_on, piece_start, pieces, pieces_of, spell_by, spells_of, spells_on, spells_within, spun, rest_after, track_stretches};

use crate::by_thread::ByThread;
use crate::changes::Happening;
use crate::rows::{Stretch, slices, stretches};
use crate::sights::Doing;
use sd_types::{CpuId, Event, LockId, ThreadId};
use std::alloc::{AllocError, Global};

/// A processor, on which threads run one after the other, or a thread, which does one thing after the other.
#[derive(Clone, Copy)]
pub enum Track {
    Cpu(u16),
    Thread(usize),
}

/// Ticks from `from` to `to` that a thread spends spinning for a lock: entry `first` takes the first of them and entry `last` the
/// last.
#[derive(Clone, Copy)]
pub struct Spell {
    pub lock: LockId,
    pub first: u64,
    pub last: u64,
    pub from: u32,
    pub to: u32,
}

fn is_on(track: Track, cpu: CpuId, t: ThreadId) -> bool
    ensures { result ≡ is_on track cpu t }
{
    match track {
        Track::Cpu(c) => cpu.0 == c,
        Track::Thread(u) => t.0 as usize == u,
    }
}

/// The tick that an entry of a processor, or of a thread, spends spinning for the lock.
pub(crate) fn spell_at(l: LockId, x: &Happening) -> Spell
    ensures { result ≡ record { lock = l; first = x.now.entry; last = x.now.entry; from = x.now.tick - 1; to = x.now.tick } }
{
    Spell {
        lock: l,
        first: x.entry,
        last: x.entry,
        from: x.tick.saturating_sub(1),
        to: x.tick,
    }
}

// The tick that an entry spends spinning, where it does and is of the track.
fn push_spell(track: Track, x: &Happening, out: &mut Vec<Spell>) -> Result<(), AllocError>
    ensures { OnOk result (out.new.items ≡ out.old.items ++ spell_by track x.now x.now.event) }
{
    if let Event::Spin { t, l } = x.event {
        if is_on(track, x.cpu, t) {
            out.push(spell_at(l, x))?;
        }
    }
    Ok(())
}

// The ticks of a track that are spent spinning, one by one.
#[tactic(auto, unfolding(crate::specs::SpinPieces::spells_on))]
pub(crate) fn spells_on(
    alloc: Global,
    track: Track,
    happenings: &[Happening],
) -> Result<Vec<Spell>, AllocError>
    ensures { IfOk result (λ v. v.items ≡ spells_on track happenings.now) }
{
    let mut found = Vec::new(alloc);
    for x in happenings {
        push_spell(track, x, &mut found)?;
    }
    Ok(found)
}

fn goes_on(x: Spell, y: Spell) -> bool
    ensures { result ≡ goes_on x y }
{
    x.lock.0 == y.lock.0 && x.to == y.from
}

fn extended(x: Spell, y: Spell) -> Spell
    ensures { result ≡ extended x y }
{
    Spell {
        last: y.last,
        to: y.to,
        ..x
    }
}

// Those that follow one another in time, for one lock, as one.
#[tactic(auto, unfolding(crate::specs::SpinPieces::spells_of, crate::specs::SpinPieces::spells_from))]
fn joined(alloc: Global, spells: &[Spell]) -> Result<Vec<Spell>, AllocError>
    ensures { IfOk result (λ v. v.items ≡ spells_of spells.now) }
{
    let mut found = Vec::new(alloc);
    let Some((first, rest)) = spells.split_first() else {
        return Ok(found);
    };
    let mut current = *first;
    let mut left = rest;
    while let Some((x, more)) = left.split_first() {
        if goes_on(current, *x) {
            current = extended(current, *x);
        } else {
            found.push(current)?;
            current = *x;
        }
        left = more;
    }
    found.push(current)?;
    Ok(found)
}

// How many of them belong to the stretch that this entry ends.
fn within(spells: &[Spell], last: u64) -> usize
    ensures value { result ≡ spells_within spells.now last }
    ensures bound { result ≤ length spells.now }
{
    spells.iter().take_while(|s| s.first < last).count()
}

// What the thread does before the spell, where it takes a tick.
fn push_before(x: Stretch, s: Spell, out: &mut Vec<Stretch>) -> Result<(), AllocError>
    ensures { OnOk result (out.new.items ≡ out.old.items ++ before x s) }
{
    if x.from < s.from {
        out.push(Stretch {
            last: s.first.saturating_sub(1),
            to: s.from,
            ..x
        })?;
    }
    Ok(())
}

fn piece_start(x: Stretch, s: Spell) -> u64
    ensures { result ≡ piece_start x s }
{
    if x.from < s.from { s.first } else { x.first }
}

// The spell, as far as it is in the stretch.
fn spun(c: CpuId, x: Stretch, s: Spell) -> Stretch
    ensures { result ≡ spun c x s }
{
    Stretch {
        first: piece_start(x, s),
        last: if s.to < x.to { s.last } else { x.last },
        from: x.from.max(s.from),
        to: s.to.min(x.to),
        doing: Doing::Spinning(c, s.lock),
        ..x
    }
}

// What is left of the stretch behind the spell.
fn rest_after(x: Stretch, s: Spell) -> Stretch
    ensures { result ≡ rest_after x s }
{
    Stretch {
        first: s.last.saturating_add(1),
        from: s.to,
        ..x
    }
}

// A stretch of processor `c`, cut at the spells.
#[tactic(auto, unfolding(crate::specs::SpinPieces::cut))]
fn push_cut(
    c: CpuId,
    x: Stretch,
    spells: &[Spell],
    out: &mut Vec<Stretch>,
) -> Result<(), AllocError>
    ensures { OnOk result (out.new.items ≡ out.old.items ++ cut c x spells.now) }
{
    let mut rest = x;
    let mut left = spells;
    while let Some((s, more)) = left.split_first() {
        push_before(rest, *s, out)?;
        out.push(spun(c, rest, *s))?;
        if rest.to <= s.to {
            return Ok(());
        }
        rest = rest_after(rest, *s);
        left = more;
    }
    out.push(rest)?;
    Ok(())
}

// The stretch, cut at the spells where a thread runs.
fn push_pieces(
    alloc: Global,
    x: Stretch,
    spells: &[Spell],
    out: &mut Vec<Stretch>,
) -> Result<(), AllocError>
    ensures { OnOk result (out.new.items ≡ out.old.items ++ pieces_of x spells.now) }
{
    match x.doing {
        Doing::Running(c) => {
            let spells = joined(alloc, spells)?;
            push_cut(c, x, &spells, out)
        }
        _ => {
            out.push(x)?;
            Ok(())
        }
    }
}

// All stretches, cut at the spells of each.
#[tactic(auto, unfolding(crate::specs::SpinPieces::cut_all))]
fn cut_all(alloc: Global, own: &[Stretch], spells: &[Spell]) -> Result<Vec<Stretch>, AllocError>
    ensures { IfOk result (λ v. v.items ≡ cut_all own.now spells.now) }
{
    let mut found = Vec::new(alloc);
    let mut left = own;
    let mut ahead = spells;
    while let Some((x, more)) = left.split_first() {
        let (inside, behind) = ahead.split_at(within(ahead, x.last));
        push_pieces(alloc, *x, inside, &mut found)?;
        ahead = behind;
        left = more;
    }
    Ok(found)
}

fn track_stretches(
    alloc: Global,
    track: Track,
    history: &ByThread,
    end: u32,
) -> Result<Vec<Stretch>, AllocError>
    ensures { IfOk result (λ v. v.items ≡ track_stretches track history.now end) }
{
    match track {
        Track::Cpu(c) => slices(
            alloc,
            &history.history.onsets,
            c,
            history.history.entries,
            end,
        ),
        Track::Thread(t) => stretches(alloc, history, t, end),
    }
}

fn track_spells(alloc: Global, track: Track, history: &ByThread) -> Result<Vec<Spell>, AllocError>
    ensures { IfOk result (λ v. v.items ≡ spells_on track history.now.happenings.items) }
{
    match track {
        Track::Cpu(_) => spells_on(alloc, track, &history.history.happenings),
        Track::Thread(t) => history.spells_of(alloc, t),
    }
}

/// The stretches of a thread, or the slices of a processor, in order, from the history of a run that ended at this tick; where a
/// thread runs they are cut at the ticks that it spends spinning.
#[tactic(auto, unfolding(crate::specs::SpinPieces::pieces))]
pub fn pieces(
    alloc: Global,
    track: Track,
    history: &ByThread,
    end: u32,
) -> Result<Vec<Stretch>, AllocError>
    ensures { IfOk result (λ v. v.items ≡ pieces track history.now end) }
{
    let whole = track_stretches(alloc, track, history, end)?;
    let spells = track_spells(alloc, track, history)?;
    if spells.is_empty() {
        return Ok(whole);
    }
    cut_all(alloc, &whole, &spells)
}
