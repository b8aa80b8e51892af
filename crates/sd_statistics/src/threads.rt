//! The rows of threads.

ghost use Rattle.std.specs.Prelude.{◌≡◌, ◌++◌, IfOk, OnOk, length, sum_by};
ghost use Rattle.std.specs.List.{flat_map, range_with_len};
ghost use Rattle.sd_statistics.specs.Rows.{row_if};
ghost use Rattle.sd_statistics.specs.Spans.{at_most_u64};
ghost use Rattle.sd_statistics.specs.Threads.{activity_row, activity_rows, delay_row, doing_rows, inherited_row, lock_rows, other_rows, thread_part, thread_rows, ticks_behind, twice_row};

use crate::activities::{Activity, spans_of};
use crate::delays::delays_of;
use crate::inherited::{all_inherited, greatest_inherited};
use crate::rows::{Figures, Measure, Row, Subject, all_of, push_row, tick_figures};
use crate::spans::summary_of;
use sd_stretches::{ByThread, Level, Stretch, Track, Wakeup, levels, pieces, stretches};
use sd_types::{LockId, Work};
use std::alloc::{AllocError, Global};

// The row of one activity of the thread, where it occurs.
fn push_activity(
    alloc: Global,
    t: usize,
    own: &[Stretch],
    activity: Activity,
    out: &mut Vec<Row>,
) -> Result<(), AllocError>
    ensures { OnOk result (out.new.items ≡ out.old.items ++ activity_row t own.now activity) }
{
    let spans = spans_of(alloc, activity, own)?;
    push_row(
        Row {
            subject: Subject::Thread(t),
            measure: Measure::Does(activity),
            figures: all_of(summary_of(&spans)),
        },
        out,
    )
}

// The rows of what a thread does, whatever the lock.
#[tactic(auto, unfolding(crate::specs::Threads::activity_rows))]
fn push_activities(
    alloc: Global,
    t: usize,
    own: &[Stretch],
    out: &mut Vec<Row>,
) -> Result<(), AllocError>
    ensures { OnOk result (out.new.items ≡ out.old.items ++ activity_rows t own.now) }
{
    push_activity(alloc, t, own, Activity::Running, out)?;
    push_activity(alloc, t, own, Activity::Spinning, out)?;
    push_activity(alloc, t, own, Activity::Runnable, out)?;
    push_activity(alloc, t, own, Activity::Waiting, out)?;
    push_activity(alloc, t, own, Activity::Asleep, out)?;
    push_activity(alloc, t, own, Activity::Napping, out)?;
    push_activity(alloc, t, own, Activity::Ended, out)
}

// The rows of its waits by lock.
#[tactic(auto, unfolding(crate::specs::Threads::lock_rows))]
fn push_locks(
    alloc: Global,
    work: &Work,
    t: usize,
    own: &[Stretch],
    out: &mut Vec<Row>,
) -> Result<(), AllocError>
    ensures { OnOk result (out.new.items ≡ out.old.items ++ lock_rows work.now t own.now) }
{
    for l in 0..work.locks.items().len() {
        push_activity(alloc, t, own, Activity::WaitingFor(LockId(l as u16)), out)?;
    }
    Ok(())
}

// By how many ticks the processor that ended a stretch was behind the one that began it.
fn ticks_behind(x: &Stretch) -> u32
    ensures { result ≡ ticks_behind x.now }
{
    x.from.saturating_sub(x.to)
}

// The ticks that lie in two states.
fn twice(own: &[Stretch]) -> u64
    ensures { result ≡ at_most_u64 (sum_by ticks_behind own.now) }
{
    let mut ticks = 0u64;
    for x in own {
        ticks = ticks.saturating_add(u64::from(ticks_behind(x)));
    }
    ticks
}

fn push_twice(t: usize, own: &[Stretch], out: &mut Vec<Row>) -> Result<(), AllocError>
    ensures { OnOk result (out.new.items ≡ out.old.items ++ twice_row t own.now) }
{
    push_row(
        Row {
            subject: Subject::Thread(t),
            measure: Measure::Twice,
            figures: tick_figures(twice(own)),
        },
        out,
    )
}

// The rows of what the thread does; `own` are the pieces of its stretches.
#[tactic(auto, unfolding(crate::specs::Threads::doing_rows))]
fn push_doings(
    alloc: Global,
    work: &Work,
    t: usize,
    own: &[Stretch],
    out: &mut Vec<Row>,
) -> Result<(), AllocError>
    ensures { OnOk result (out.new.items ≡ out.old.items ++ doing_rows work.now t own.now) }
{
    push_activities(alloc, t, own, out)?;
    push_locks(alloc, work, t, own, out)?;
    push_twice(t, own, out)
}

// The row of the times from its wakeups to its running.
fn push_delay_row(
    alloc: Global,
    t: usize,
    own: &[Stretch],
    wakeups: &[Wakeup],
    out: &mut Vec<Row>,
) -> Result<(), AllocError>
    ensures { OnOk result (out.new.items ≡ out.old.items ++ delay_row t own.now wakeups.now) }
{
    let spans = delays_of(alloc, t, own, wakeups)?;
    push_row(
        Row {
            subject: Subject::Thread(t),
            measure: Measure::WakeupToRun,
            figures: all_of(summary_of(&spans)),
        },
        out,
    )
}

// The same, by its own wakeups alone where these stand apart.
fn push_delays(
    alloc: Global,
    history: &ByThread,
    t: usize,
    own: &[Stretch],
    out: &mut Vec<Row>,
) -> Result<(), AllocError>
    ensures { OnOk result (out.new.items ≡ out.old.items ++ delay_row t own.now history.now.wakeups.items) }
{
    match history.wakeup_row(t) {
        Some(wakeups) => push_delay_row(alloc, t, own, wakeups, out),
        None => push_delay_row(alloc, t, own, &history.history.wakeups, out),
    }
}

// The row of its inherited priority.
fn push_inherited(t: usize, own: &[Level], out: &mut Vec<Row>) -> Result<(), AllocError>
    ensures { OnOk result (out.new.items ≡ out.old.items ++ inherited_row t own.now) }
{
    push_row(
        Row {
            subject: Subject::Thread(t),
            measure: Measure::Inherits,
            figures: Figures {
                number: None,
                ticks: Some(all_inherited(own)),
                longest: None,
                priority: Some(u64::from(greatest_inherited(own))),
            },
        },
        out,
    )
}

// The rows of its wakeups and of its priority.
#[tactic(auto, unfolding(crate::specs::Threads::other_rows))]
fn push_others(
    alloc: Global,
    work: &Work,
    history: &ByThread,
    t: usize,
    out: &mut Vec<Row>,
) -> Result<(), AllocError>
    ensures { OnOk result (out.new.items ≡ out.old.items ++ other_rows work.now history.now t) }
{
    let own = stretches(alloc, history, t, work.limit)?;
    push_delays(alloc, history, t, &own, out)?;
    let own = levels(alloc, history, t, work.limit)?;
    push_inherited(t, &own, out)
}

#[tactic(auto, unfolding(crate::specs::Threads::thread_part))]
fn push_thread(
    alloc: Global,
    work: &Work,
    history: &ByThread,
    t: usize,
    out: &mut Vec<Row>,
) -> Result<(), AllocError>
    ensures { OnOk result (out.new.items ≡ out.old.items ++ thread_part work.now history.now t) }
{
    let own = pieces(alloc, Track::Thread(t), history, work.limit)?;
    push_doings(alloc, work, t, &own, out)?;
    push_others(alloc, work, history, t, out)
}

/// The rows of the threads of a run of the workload, of which this is the history: what each does, in total and its waits by lock;
/// the ticks that lie in two states; the time from its wakeups to its running; and its inherited priority. A row that would have
/// nothing to count is left out.
#[tactic(auto, unfolding(crate::specs::Threads::thread_rows))]
pub fn thread_rows(alloc: Global, work: &Work, history: &ByThread) -> Result<Vec<Row>, AllocError>
    ensures { IfOk result (λ v. v.items ≡ thread_rows work.now history.now) }
{
    let mut rows = Vec::new(alloc);
    for t in 0..work.threads.items().len() {
        push_thread(alloc, work, history, t, &mut rows)?;
    }
    Ok(rows)
}
