//! How much of a run a timeline shows.

ghost use Rattle.std.specs.Prelude.{◌≡◌};
ghost use Rattle.sd_viewer.specs.Drawings.{cut_tick, first_tick, frame_of, last_tick, rows, shown_act};

use sd_layout::{Frame, last_act};
use sd_stretches::History;
use sd_types::{GREATEST_LIMIT, Work};

// The most ticks and threads that one picture shows.
const MOST_TICKS_SHOWN: u32 = 2000;

pub(crate) const MOST_THREADS_SHOWN: usize = 100;

fn first_tick(work: &Work, from: u32) -> u32
    ensures { result ≡ first_tick work.now from }
{
    from.min(work.limit)
}

/// The last tick that is drawn of those from `from` to `to`.
pub(crate) fn last_tick(work: &Work, from: u32, to: u32) -> u32
    ensures { result ≡ last_tick work.now from to }
{
    to.min(work.limit)
        .min(first_tick(work, from).saturating_add(MOST_TICKS_SHOWN))
}

fn rows(work: &Work) -> u16
    ensures { result ≡ rows work.now }
{
    work.threads.items().len().min(MOST_THREADS_SHOWN) as u16
}

// A tenth more of the ticks up to the last at which anything happens, and one, so that it is seen how things stand then.
fn shown_act(history: &History) -> u64
    ensures { result ≡ shown_act history.now }
{
    let last = u64::from(last_act(&history.happenings));
    last + last / 10 + 1
}

// Where all ticks are asked for, those behind it are cut off, but for the first one of all.
fn cut_tick(work: &Work, history: &History, from: u32, to: u32) -> u32
    ensures { result ≡ cut_tick work.now history.now from to }
{
    let last = last_tick(work, from, to);
    if to == GREATEST_LIMIT {
        let first = u64::from(first_tick(work, from));
        u64::from(last).min(shown_act(history).max(first + 1)) as u32
    } else {
        last
    }
}

/// The frame of the ticks from `from` to `to`: as far as the run goes, and of these the first 2,000, and the first 100 threads. Where all
/// ticks are asked for, it goes as far as anything happens.
pub(crate) fn frame_of(work: &Work, history: &History, from: u32, to: u32) -> Frame
    ensures { result ≡ frame_of work.now history.now from to }
{
    Frame {
        from: first_tick(work, from),
        to: cut_tick(work, history, from, to),
        cpus: work.cpus,
        threads: rows(work),
    }
}
