//! What a processor reads of others before it puts a thread somewhere or steals one.

ghost use Rattle.std.specs.Prelude.{◌≡◌, ◌≤◌, ℕ, [], ◌∷◌, IfOk, length, option_map};
ghost use Rattle.sd_types.specs.Limits.{most_processors};
ghost use Rattle.sd_machine.specs.Choosing.{neighbours};
ghost use Rattle.sd_state.specs.States.{set_of};
ghost use Rattle.sd_machine.specs.Hints.{hints_fit, read_for, read_of, reads_for, same_which};
ghost use Rattle.sd_state.specs.declared.states.State.{State};
ghost use Rattle.sd_dispatcher.specs.Reading.{parts};
ghost use Rattle.sd_store.specs.Parts.{actor_part, ready_parts, real_time_part, thread_part};
ghost use Rattle.sd_store.specs.Words.{Lacks};

use crate::choosing::{choices_of, copied, is_settled, neighbours};
use arrayvec::ArrayVec;
use sd_store::Look;
use sd_types::{CpuId, Hints, ThreadId, Which, Work};

/// Which numbers are read, and of which processors, in rising order.
#[derive(Drop)]
pub struct Reading {
    pub which: Which,
    pub cpus: ArrayVec<CpuId, 64>,
}

/// The running threads of these processors are read, unless the choice is settled.
fn read_for(cpus: &[CpuId], last: CpuId, warm: bool) -> Option<Reading>
    requires { length cpus.now ≤ most_processors }
    ensures { option_map parts result ≡ read_for cpus.now last warm }
{
    if is_settled(cpus, last, warm) {
        None
    } else {
        Some(Reading {
            which: Which::Running,
            cpus: copied(cpus),
        })
    }
}

/// What processor `c` reads before it makes thread `t` runnable.
#[tactic(auto, unfolding(sd_machine::specs::Hints::reads_for))]
pub fn reads_for<L: Look>(
    work: &Work,
    x: &L,
    c: CpuId,
    t: ThreadId,
) -> Result<Option<Reading>, L::Lack>
    ensures value { IfOk result (λ r. (n : ℕ) (s : State) → L.shows x.now n s → option_map parts r ≡ reads_for work.now s c.0 t.0) }
    ensures lack { Lacks L.part (L.shows x.now) (L.has x.now) result (λ s. actor_part c ∷ thread_part t ∷ real_time_part (set_of work.now t.0) ∷ []) }
{
    let choices = choices_of(work, x, c, t)?;
    Ok(read_for(choices.cpus.as_slice(), choices.last, choices.warm))
}

/// The queues of the neighbours are read, where there are any.
fn read_of(cpus: ArrayVec<CpuId, 64>) -> Option<Reading>
    ensures { option_map parts result ≡ read_of cpus.items }
{
    if cpus.is_empty() {
        None
    } else {
        Some(Reading {
            which: Which::Queued,
            cpus,
        })
    }
}

/// What processor `c` reads before it searches for a thread to steal.
pub fn reads_to_steal<L: Look>(x: &L, c: CpuId) -> Result<Option<Reading>, L::Lack>
    ensures value { IfOk result (λ r. (n : ℕ) (s : State) → L.shows x.now n s → option_map parts r ≡ read_of (neighbours s c.0)) }
    ensures lack { Lacks L.part (L.shows x.now) (L.has x.now) result (λ s. ready_parts s c) }
{
    Ok(read_of(neighbours(x, c)?))
}

fn same_which(which: Which, other: Which) -> bool
    ensures { result ≡ same_which which other }
{
    match (which, other) {
        (Which::Running, Which::Running) => true,
        (Which::Queued, Which::Queued) => true,
        _ => false,
    }
}

/// Numbers are there exactly where something is read, of that kind and of so many processors.
pub fn hints_fit(reading: &Option<Reading>, hints: &Option<Hints>) -> bool
    ensures { result ≡ hints_fit (option_map parts reading.now) hints.now }
{
    match (reading, hints) {
        (None, None) => true,
        (Some(reading), Some(hints)) => {
            same_which(reading.which, hints.which) && hints.numbers.len() == reading.cpus.len()
        }
        _ => false,
    }
}
