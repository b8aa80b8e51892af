//! Which of two threads goes first.

ghost use Rattle.std.specs.Prelude.{◌≡◌};
ghost use Rattle.sd_machine.specs.Threads.{due_of, naps_less};
ghost use Rattle.sd_state.specs.Best.{beats, queue_rank};
ghost use Rattle.sd_state.specs.States.{key_of};

use sd_state::{Place, ThreadState};

fn key_of(place: &Place) -> i64
    ensures { result ≡ key_of place.now }
{
    match place {
        Place::Queued(_, key) => *key,
        Place::RealTime(_, key) => *key,
        Place::Waiting(_, _, key) => *key,
        Place::Asleep(_, key) => *key,
        _ => 0,
    }
}

fn queue_rank(place: &Place) -> u8
    ensures { result ≡ queue_rank place.now }
{
    match place {
        Place::RealTime(_, _) => 0,
        _ => 1,
    }
}

/// `x` goes before `y`: by the greater priority, then the real-time queue, then the smaller key.
pub(crate) fn beats(x: &ThreadState, y: &ThreadState) -> bool
    ensures { result ≡ beats x.now y.now }
{
    let p = x.body.effective();
    let q = y.body.effective();
    let rank = queue_rank(&x.place);
    let other = queue_rank(&y.place);
    q < p || p == q && (rank < other || rank == other && key_of(&x.place) < key_of(&y.place))
}

fn due_of(place: &Place) -> u32
    ensures { result ≡ due_of place.now }
{
    match place {
        Place::Napping(_, due) => *due,
        _ => 0,
    }
}

/// The nap of `x` is over before that of `y`.
pub(crate) fn naps_less(x: &ThreadState, y: &ThreadState) -> bool
    ensures { result ≡ naps_less x.now y.now }
{
    due_of(&x.place) < due_of(&y.place)
}
