//! Which entries of a run are told.

ghost use Rattle.std.specs.Prelude.{◌≡◌, ◌&&◌, ◌||◌, nat_le};
ghost use Rattle.sd_types.specs.Works.{same_bytes};
ghost use Rattle.sd_state.specs.States.{cpu_of};
ghost use Rattle.sd_stretches.specs.Named.{first_named, second_named};
ghost use Rattle.sd_story.specs.Selections.{has_thread, is_named, is_told, tick_of};

use crate::scene::Scene;
use arrayvec::ArrayVec;
use sd_stretches::{first_named, second_named, thread_name};
use sd_types::{Entry, Event, ThreadDecl, ThreadId, Work};

/// Which entries are told: those that are made at a tick from `from` to `to`, where the tick of an entry is the count of its
/// processor before it; or those that name a thread.
#[derive(Drop)]
pub enum Selection {
    Ticks { from: u32, to: u32 },
    Thread { name: ArrayVec<u8, 16> },
}

fn is_same(name: &[u8], other: &[u8]) -> bool
    ensures { result ≡ same_bytes name.now other.now }
{
    name == other
}

fn is_named(work: &Work, name: &[u8], t: Option<ThreadId>) -> bool
    ensures { result ≡ is_named work.now name.now t }
{
    match t {
        Some(t) => is_same(thread_name(work, t.0 as usize), name),
        None => false,
    }
}

// The event names the thread.
fn names(work: &Work, name: &[u8], event: &Event) -> bool
    ensures { result ≡ (is_named work.now name.now (first_named event.now) || is_named work.now name.now (second_named event.now)) }
{
    is_named(work, name, first_named(event)) || is_named(work, name, second_named(event))
}

/// The count of its processor before an entry.
pub(crate) fn tick_of<S: Scene>(s: &S, entry: &Entry) -> u32
    requires good { S.good s.now }
    ensures { result ≡ tick_of (S.state s.now) entry.now }
{
    s.ticks(entry.cpu)
}

fn is_between(from: u32, tick: u32, to: u32) -> bool
    ensures { result ≡ (nat_le from tick && nat_le tick to) }
{
    from <= tick && tick <= to
}

/// Whether an entry is told that is made in the state.
pub(crate) fn is_told<S: Scene>(work: &Work, selection: &Selection, s: &S, entry: &Entry) -> bool
    requires good { S.good s.now }
    ensures { result ≡ is_told work.now selection.now (S.state s.now) entry.now }
{
    match selection {
        Selection::Ticks { from, to } => is_between(*from, tick_of(s, entry), *to),
        Selection::Thread { name } => names(work, name.as_slice(), &entry.event),
    }
}

fn has_name(thread: &ThreadDecl, name: &[u8]) -> bool
    ensures { result ≡ same_bytes thread.now.name.text.items name.now }
{
    thread.name.bytes() == name
}

/// Whether a thread of the workload has this name.
#[tactic(auto, unfolding(crate::specs::Selections::has_thread))]
pub fn has_thread(work: &Work, name: &[u8]) -> bool
    ensures { result ≡ has_thread work.now name.now }
{
    work.threads
        .items()
        .iter()
        .any(|thread| has_name(thread, name))
}
