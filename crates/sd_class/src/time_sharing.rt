//! The time-sharing class: what a tick, a wakeup, a second of waiting and a requeue make of a thread's state.
//! No call allocates, and none can fail.
//!
//! Source: Solaris Internals (the TS class), `ts_dptbl`(4).

ghost use Rattle.std.specs.Prelude.{◌≡◌, ◌≤◌};
ghost use Rattle.sd_types.specs.ClassNumbers.{TsNumbers};
ghost use Rattle.sd_types.specs.Priorities.{umdpri};
ghost use Rattle.sd_types.specs.declared.tables.TsTable.{TsTable};
ghost use Rattle.sd_rules.specs.ClassRules.{ts_at_level, ts_tick, ts_expires, ts_wake, ts_second, ts_is_lifted, ts_requeue, end_of};

use sd_types::{End, TsState, TsTable};

/// The base priority, 0 to 59: the sum of `cpupri` and the user priority, within the levels of the class.
pub fn ts_global(s: &TsState) -> u8
    ensures value { result ≡ umdpri s.now }
    ensures level { result ≤ 59 }
{
    s.base()
}

/// The thread at this level, with the ticks of the level's row.
fn at_level(s: &TsState, t: &TsTable, level: u8) -> TsState
    requires { level ≤ 59 }
    ensures { result ≡ ts_at_level t.now s.now level }
{
    TsState {
        cpupri: level,
        left: t.row(level).ticks,
        ..*s
    }
}

/// A tick of the running thread: `left` falls by one. Returns true exactly where the quantum has expired;
/// the thread is then at the level `ts_tqexp` of its row, with the ticks of that level's row.
#[tactic(auto, unfolding(sd_rules::specs::ClassRules::ts_tick))]
pub fn ts_tick(s: &mut TsState, t: &TsTable) -> bool
    ensures state { s.new ≡ ts_tick t.now s.old }
    ensures expired { result ≡ ts_expires s.old }
{
    if s.left <= 1 {
        let level = t.row(s.cpupri).tqexp;
        *s = at_level(s, t, level);
        true
    } else {
        *s = TsState {
            left: s.left - 1,
            ..*s
        };
        false
    }
}

/// A wakeup, however short the sleep was: the thread comes to the level `ts_slpret` of its row,
/// with the ticks of that level's row, and has waited for no second.
#[tactic(auto, unfolding(sd_rules::specs::ClassRules::ts_wake))]
pub fn ts_wake(s: &mut TsState, t: &TsTable)
    ensures { s.new ≡ ts_wake t.now s.old }
{
    let level = t.row(s.cpupri).slpret;
    let woken = at_level(s, t, level);
    *s = TsState { wait: 0, ..woken };
}

/// One more second on a dispatch queue. Returns true exactly where the thread has now waited for more seconds than
/// `ts_maxwait` of the row of its base priority; it is then at the level `ts_lwait` of the row of `cpupri`,
/// with the ticks that it had, and its seconds are counted anew.
#[tactic(auto, unfolding(sd_rules::specs::ClassRules::ts_second))]
pub fn ts_second(s: &mut TsState, t: &TsTable) -> bool
    ensures state { s.new ≡ ts_second t.now s.old }
    ensures lifted { result ≡ ts_is_lifted t.now s.old }
{
    if s.wait + 1 > t.row(ts_global(s)).maxwait {
        *s = TsState {
            cpupri: t.row(s.cpupri).lwait,
            wait: 0,
            ..*s
        };
        true
    } else {
        *s = TsState {
            wait: s.wait + 1,
            ..*s
        };
        false
    }
}

/// The thread is put on a dispatch queue: at the back, with its seconds counted anew, exactly where its quantum
/// has expired, and else at the front.
pub fn ts_requeue(s: &mut TsState, expired: bool) -> End
    ensures state { s.new ≡ ts_requeue expired s.old }
    ensures end { result ≡ end_of expired }
{
    if expired {
        *s = TsState { wait: 0, ..*s };
        End::Back
    } else {
        End::Front
    }
}

/// Law: a wakeup never leaves a thread with a longer wait, whatever the table.
#[tactic(auto, unfolding(sd_rules::specs::ClassRules::ts_wake))]
pub fn wakes_without_longer_wait()
    ensures { (t : TsTable) (s : TsNumbers) → (ts_wake t s).wait ≤ s.wait }
{}
