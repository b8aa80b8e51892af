//! Two processors at one table, each on a thread of the host of its own.

ghost use Rattle.std.specs.Prelude.{◌≡◌, ℕ, IfOk};
ghost use Rattle.sd_hand.specs.Hands.{how_many_held};
ghost use Rattle.sd_shared_table.specs.Seats.{Fits, id_of, work_of};
ghost use Rattle.sd_shared_table.specs.Whole.{IsSeatOf};

use crate::counting::try_turns;
use crate::deeds::Done;
use crate::sharing::{four_turns, try_often};
use crate::tables::Seats;
use sd_shared_table::{Seat, Shared};
use sd_types::Work;
use std::marker::Sync;
use std::sync::Wait;
use std::thread;
use std::thread::Threads;

/// What a processor does.
#[derive(Clone, Copy)]
pub(crate) enum Act {
    /// Four turns.
    Turns,
    /// A thousand tries to take one home.
    Tries,
    /// Attempts that are counted.
    Attempts,
}

/// A processor after that: whether its entries and what it counted are as they should be, and how many entries it made, or of tries, how
/// often it took the home.
#[derive(Drop)]
pub(crate) struct Acted {
    pub(crate) seat: Seat,
    pub(crate) is_right: bool,
    pub(crate) count: u64,
}

/// Both processors after that.
#[derive(Drop)]
struct Both {
    first: Acted,
    second: Acted,
}

fn act_alone<R: Wait>(rt: &R, shared: &Shared, work: &Work, seat: Seat, act: Act) -> Acted
    requires work { work.now ≡ work_of shared.now }
    requires fits { Fits (id_of shared.now) (work_of shared.now) seat }
    requires free { how_many_held seat.acting.hand.slots ≡ 0 }
    ensures { (c : ℕ) → IsSeatOf (id_of shared.now) (work_of shared.now) c seat → IsSeatOf (id_of shared.now) (work_of shared.now) c result.seat }
{
    match act {
        Act::Turns => four_turns(rt, shared, work, seat),
        Act::Tries => try_often(shared, seat),
        Act::Attempts => try_turns(shared, work, seat),
    }
}

/// Both act, each on a thread of its own.
fn act_both<R: Threads + Wait + Sync>(
    rt: &R,
    shared: &Shared,
    work: &Work,
    seats: Seats,
    act: Act,
) -> Both
    requires work { work.now ≡ work_of shared.now }
    requires first { IsSeatOf (id_of shared.now) (work_of shared.now) 0 seats.first }
    requires second { IsSeatOf (id_of shared.now) (work_of shared.now) 1 seats.second }
    ensures first { IsSeatOf (id_of shared.now) (work_of shared.now) 0 result.first.seat }
    ensures second { IsSeatOf (id_of shared.now) (work_of shared.now) 1 result.second.seat }
{
    let Seats { first, second } = seats;
    let one = || -> Acted
        requires { (work.now ≡ work_of shared.now) × IsSeatOf (id_of shared.now) (work_of shared.now) 0 first }
        ensures { IsSeatOf (id_of shared.entry.now) (work_of shared.entry.now) 0 result.seat }
    { act_alone(rt, shared, work, first, act) };
    let other = || -> Acted
        requires { (work.now ≡ work_of shared.now) × IsSeatOf (id_of shared.now) (work_of shared.now) 1 second }
        ensures { IsSeatOf (id_of shared.entry.now) (work_of shared.entry.now) 1 result.seat }
    { act_alone(rt, shared, work, second, act) };
    let (first, second) = thread::join(rt, one, other);
    Both { first, second }
}

/// Both made what they were to make. The first try of all finds the home free, whichever processor makes it.
fn are_right(both: &Both, act: Act) -> bool {
    let right = both.first.is_right && both.second.is_right;
    match act {
        Act::Turns | Act::Attempts => right,
        Act::Tries => right && (both.first.count > 0 || both.second.count > 0),
    }
}

/// How many entries the table is to have after that. A try makes none.
fn made_by(both: &Both, act: Act) -> u64 {
    match act {
        Act::Turns => 8,
        Act::Tries => 0,
        Act::Attempts => both.first.count.saturating_add(both.second.count),
    }
}

/// Both act, and are judged. `Err` says what went otherwise.
pub(crate) fn both_done<R: Threads + Wait + Sync>(
    rt: &R,
    shared: &Shared,
    work: &Work,
    seats: Seats,
    act: Act,
) -> Result<Done, &'static str>
    requires work { work.now ≡ work_of shared.now }
    requires first { IsSeatOf (id_of shared.now) (work_of shared.now) 0 seats.first }
    requires second { IsSeatOf (id_of shared.now) (work_of shared.now) 1 seats.second }
    ensures first { IfOk result (λ r. IsSeatOf (id_of shared.now) (work_of shared.now) 0 r.seats.first) }
    ensures second { IfOk result (λ r. IsSeatOf (id_of shared.now) (work_of shared.now) 1 r.seats.second) }
{
    let both = act_both(rt, shared, work, seats, act);
    if !are_right(&both, act) {
        return Err("what a processor made or counted");
    }
    let made = made_by(&both, act);
    let Both { first, second } = both;
    Ok(Done {
        seats: Seats {
            first: first.seat,
            second: second.seat,
        },
        made,
    })
}
