//! The arrows: from waiters to the owners that inherit from them, and from threads that wake to those that they wake.

ghost use Rattle.std.specs.Prelude.{◌≡◌, ◌++◌, ◌∷◌, [], IfOk, OnOk, flat_map, if◌then◌else◌};
ghost use Rattle.sd_timeline.specs.Arrows.{arrow_start, drawn_hands, hand_path, hand_rows, hand_text, hand_texts, hand_title, has_row, has_row_if, heights, is_drawn_hand, is_drawn_wake, nth_at, waiter_text, wake_by, wake_path, wake_rows, wake_text, wake_title};

use crate::parts::{Part, put_parts};
use crate::pieces::{put_path_end, put_path_start};
use sd_layout::{Layout, Row};
use sd_stretches::{Doing, HandOver, History, Wakeup, put_doing, thread_name};
use sd_types::Work;
use std::alloc::{AllocError, Global};

// Who waits for what.
#[tactic(auto, unfolding(crate::specs::Arrows::waiter_text))]
fn put_waiter(work: &Work, x: &HandOver, waiter: usize, out: &mut Vec<u8>) -> Result<(), AllocError>
    ensures { OnOk result (out.new.items ≡ out.old.items ++ waiter_text work.now x.now waiter) }
{
    let parts = [
        Part::Text(b"entry "),
        Part::Number(x.entry),
        Part::Text(b": "),
        Part::Text(thread_name(work, waiter)),
        Part::Text(b" "),
    ];
    put_parts(&parts, out)?;
    put_doing(work, Doing::Waiting(x.lock), out)
}

// What is shown on an arrow to an owner.
#[tactic(auto, unfolding(crate::specs::Arrows::hand_title))]
fn put_hand_title(
    work: &Work,
    x: &HandOver,
    waiter: usize,
    out: &mut Vec<u8>,
) -> Result<(), AllocError>
    ensures { OnOk result (out.new.items ≡ out.old.items ++ hand_title work.now x.now waiter) }
{
    put_waiter(work, x, waiter, out)?;
    let parts = [
        Part::Text(b", so "),
        Part::Text(thread_name(work, x.owner.0 as usize)),
        Part::Text(b" has "),
        Part::Number(x.priority as u64),
    ];
    put_parts(&parts, out)
}

// From which height to which an arrow goes from the bar of one thread to that of another, or to the locks under it.
fn heights(layout: &Layout, from: u16, to: u16) -> (u64, u64)
    ensures { result ≡ heights layout.now from to }
{
    if to < from {
        (layout.top(Row::Thread(from)), layout.landing(to))
    } else {
        (layout.floor(Row::Thread(from)), layout.top(Row::Thread(to)))
    }
}

// The start of an arrow.
#[tactic(auto, unfolding(crate::specs::Arrows::arrow_start))]
fn put_arrow_start(
    class: &[u8],
    column: u64,
    layout: &Layout,
    from: u16,
    to: u16,
    out: &mut Vec<u8>,
) -> Result<(), AllocError>
    ensures { OnOk result (out.new.items ≡ out.old.items ++ arrow_start class.now column layout.now from to) }
{
    put_path_start(class, column, heights(layout, from, to), out)
}

#[tactic(auto, unfolding(crate::specs::Arrows::hand_path))]
fn put_hand_path(
    work: &Work,
    layout: &Layout,
    nth: u64,
    x: &HandOver,
    waiter: usize,
    rows: (u16, u16),
    out: &mut Vec<u8>,
) -> Result<(), AllocError>
    ensures { OnOk result (out.new.items ≡ out.old.items ++ hand_path work.now layout.now nth x.now waiter rows) }
{
    put_arrow_start(
        b"will",
        layout.shifted(x.tick, nth),
        layout,
        rows.0,
        rows.1,
        out,
    )?;
    put_hand_title(work, x, waiter, out)?;
    put_path_end(out)
}

// The arrow from a waiter to an owner.
fn put_hand_over(
    work: &Work,
    layout: &Layout,
    nth: u64,
    x: &HandOver,
    out: &mut Vec<u8>,
) -> Result<(), AllocError>
    ensures { OnOk result (out.new.items ≡ out.old.items ++ hand_text work.now layout.now nth x.now x.now.waiter) }
{
    let Some(waiter) = x.waiter else {
        return Ok(());
    };
    match (layout.row_of(waiter), layout.row_of(x.owner.0 as usize)) {
        (Some(from), Some(to)) => put_hand_path(work, layout, nth, x, waiter, (from, to), out),
        _ => Ok(()),
    }
}

/// The thread has a row.
pub(crate) fn has_row(layout: &Layout, t: usize) -> bool
    ensures { result ≡ has_row layout.now t }
{
    layout.row_of(t).is_some()
}

fn has_row_if(layout: &Layout, t: Option<usize>) -> bool
    ensures { result ≡ has_row_if layout.now t }
{
    match t {
        Some(t) => has_row(layout, t),
        None => false,
    }
}

// Something was inherited, and the tick and the rows of both are drawn.
fn is_drawn_hand(layout: &Layout, x: &HandOver) -> bool
    ensures { result ≡ is_drawn_hand layout.now x.now }
{
    x.inherited
        && layout.shows(x.tick)
        && has_row_if(layout, x.waiter)
        && has_row(layout, x.owner.0 as usize)
}

fn push_hand(layout: &Layout, x: &HandOver, found: &mut Vec<HandOver>) -> Result<(), AllocError>
    ensures { OnOk result (found.new.items ≡ found.old.items ++ (if is_drawn_hand layout.now x.now then x.now ∷ [] else [])) }
{
    if is_drawn_hand(layout, x) {
        found.push(*x)?;
    }
    Ok(())
}

/// The entries that hand priority on and have an arrow.
#[tactic(auto, unfolding(crate::specs::Arrows::drawn_hands))]
pub(crate) fn drawn_hands(
    alloc: Global,
    layout: &Layout,
    history: &History,
) -> Result<Vec<HandOver>, AllocError>
    ensures { IfOk result (λ v. v.items ≡ drawn_hands layout.now history.now) }
{
    let mut found = Vec::new(alloc);
    for x in &history.hand_overs {
        push_hand(layout, x, &mut found)?;
    }
    Ok(found)
}

// Which one it is at its tick, from 0.
fn nth_at(earlier: Option<u32>, nth: u64, tick: u32) -> u64
    ensures { result ≡ nth_at earlier nth tick }
{
    match earlier {
        Some(before) if before == tick => (nth % 8 + 1) % 8,
        _ => 0,
    }
}

/// The arrows from waiters to owners, of these that are drawn. Those of one tick stand beside one another.
pub(crate) fn put_hand_overs(
    work: &Work,
    layout: &Layout,
    hand_overs: &[HandOver],
    out: &mut Vec<u8>,
) -> Result<(), AllocError>
    ensures { OnOk result (out.new.items ≡ out.old.items ++ hand_texts work.now layout.now None 0 hand_overs.now) }
{
    let mut earlier = None;
    let mut nth = 0;
    let mut left = hand_overs;
    while let Some((x, rest)) = left.split_first() {
        nth = nth_at(earlier, nth, x.tick);
        put_hand_over(work, layout, nth, x, out)?;
        earlier = Some(x.tick);
        left = rest;
    }
    Ok(())
}

// What is shown on an arrow to a thread that is woken.
#[tactic(auto, unfolding(crate::specs::Arrows::wake_title))]
fn put_wake_title(
    work: &Work,
    x: &Wakeup,
    waker: usize,
    out: &mut Vec<u8>,
) -> Result<(), AllocError>
    ensures { OnOk result (out.new.items ≡ out.old.items ++ wake_title work.now x.now waker) }
{
    let parts = [
        Part::Text(b"entry "),
        Part::Number(x.entry),
        Part::Text(b": "),
        Part::Text(thread_name(work, waker)),
        Part::Text(b" wakes "),
        Part::Text(thread_name(work, x.woken.0 as usize)),
    ];
    put_parts(&parts, out)
}

#[tactic(auto, unfolding(crate::specs::Arrows::wake_path))]
fn put_wake_path(
    work: &Work,
    layout: &Layout,
    x: &Wakeup,
    waker: usize,
    rows: (u16, u16),
    out: &mut Vec<u8>,
) -> Result<(), AllocError>
    ensures { OnOk result (out.new.items ≡ out.old.items ++ wake_path work.now layout.now x.now waker rows) }
{
    put_arrow_start(b"wake", layout.column(x.tick), layout, rows.0, rows.1, out)?;
    put_wake_title(work, x, waker, out)?;
    put_path_end(out)
}

fn put_wake_by(
    work: &Work,
    layout: &Layout,
    x: &Wakeup,
    out: &mut Vec<u8>,
) -> Result<(), AllocError>
    ensures { OnOk result (out.new.items ≡ out.old.items ++ wake_by work.now layout.now x.now x.now.waker) }
{
    let Some(waker) = x.waker else {
        return Ok(());
    };
    match (layout.row_of(waker), layout.row_of(x.woken.0 as usize)) {
        (Some(from), Some(to)) => put_wake_path(work, layout, x, waker, (from, to), out),
        _ => Ok(()),
    }
}

/// The tick of a wakeup and the rows of both threads are drawn.
pub(crate) fn is_drawn_wake(layout: &Layout, x: &Wakeup) -> bool
    ensures { result ≡ is_drawn_wake layout.now x.now }
{
    layout.shows(x.tick) && has_row_if(layout, x.waker) && has_row(layout, x.woken.0 as usize)
}

fn put_wakeup(work: &Work, layout: &Layout, x: &Wakeup, out: &mut Vec<u8>) -> Result<(), AllocError>
    ensures { OnOk result (out.new.items ≡ out.old.items ++ wake_text work.now layout.now x.now) }
{
    if is_drawn_wake(layout, x) {
        put_wake_by(work, layout, x, out)
    } else {
        Ok(())
    }
}

/// The arrows from threads that wake to those that they wake. A nap that ends has none.
pub(crate) fn put_wakeups(
    work: &Work,
    layout: &Layout,
    wakeups: &[Wakeup],
    out: &mut Vec<u8>,
) -> Result<(), AllocError>
    ensures { OnOk result (out.new.items ≡ out.old.items ++ flat_map (wake_text work.now layout.now) wakeups.now) }
{
    for x in wakeups {
        put_wakeup(work, layout, x, out)?;
    }
    Ok(())
}
