//! A state with its rank for each key: how many keys of the state are smaller. Keys count only by their order, so states whose
//! keys have the same order become one.

ghost use Rattle.std.specs.Prelude.{◌≡◌, ◌≤◌, ◌++◌, Some, OnOk, length, map};
ghost use Rattle.std.specs.List.{All, count_by};
ghost use Rattle.sd_encoding.specs.Fits.{FitsCpu, FitsState, FitsThread};
ghost use Rattle.sd_encoding.specs.Numbers.{cpu as cpu_numbers, listed, thread as thread_numbers, vector};
ghost use Rattle.sd_encoding.specs.Order.{is_below, key_at, key_in};
ghost use Rattle.sd_encoding.specs.Ranks.{many_below, rank, ranked, ranked_cpu, ranked_duty, ranked_place, ranked_thread};

use crate::items::write_items;
use crate::packed::Packed;
use crate::writer::Writer;
use sd_state::{CpuState, Place, State, ThreadState};
use sd_types::Duty;
use std::alloc::AllocError;

/// The key of a thread that stands on a queue, on a turnstile or on a sleep queue.
fn key_at(place: Place) -> Option<i64>
    ensures { result ≡ key_at place }
{
    match place {
        Place::Queued(_, key)
        | Place::RealTime(_, key)
        | Place::Waiting(_, _, key)
        | Place::Asleep(_, key) => Some(key),
        _ => None,
    }
}

/// The key of a processor that walks along a chain or wakes sleepers.
fn key_in(duty: Duty) -> Option<i64>
    ensures { result ≡ key_in duty }
{
    match duty {
        Duty::Walk { key, .. } | Duty::Rouse(_, key) => Some(key),
        _ => None,
    }
}

/// Whether there is a key, and it is below this one.
fn is_below(one: Option<i64>, key: i64) -> bool
    ensures { result ≡ is_below one (Some key) }
{
    match one {
        Some(other) => other < key,
        None => false,
    }
}

/// How many threads have a smaller key.
fn threads_below(threads: &[ThreadState], key: i64) -> usize
    ensures many { result ≡ count_by (λ x. is_below (key_at x.place) (Some key)) threads.now }
    ensures few { result ≤ length threads.now }
{
    let mut many = 0;
    for thread in threads {
        if is_below(key_at(thread.place), key) {
            many += 1;
        }
    }
    many
}

/// How many duties have a smaller key.
fn duties_below(cpus: &[CpuState], key: i64) -> usize
    ensures many { result ≡ count_by (λ x. is_below (key_in x.duty) (Some key)) cpus.now }
    ensures few { result ≤ length cpus.now }
{
    let mut many = 0;
    for cpu in cpus {
        if is_below(key_in(cpu.duty), key) {
            many += 1;
        }
    }
    many
}

/// How many keys of the state are smaller.
fn rank_of(state: &State, key: i64) -> i64
    ensures { result ≡ rank state.now key }
{
    let threads = threads_below(state.threads.items(), key);
    let duties = duties_below(state.cpus.items(), key);
    (threads + duties) as i64
}

/// The place with the rank of its key.
fn ranked_place(state: &State, place: Place) -> Place
    ensures { result ≡ ranked_place state.now place }
{
    match place {
        Place::Queued(cpu, key) => Place::Queued(cpu, rank_of(state, key)),
        Place::RealTime(set, key) => Place::RealTime(set, rank_of(state, key)),
        Place::Waiting(lock, side, key) => Place::Waiting(lock, side, rank_of(state, key)),
        Place::Asleep(chan, key) => Place::Asleep(chan, rank_of(state, key)),
        Place::Running(_) | Place::Napping(_, _) | Place::Ended => place,
    }
}

/// The duty with the rank of its key.
fn ranked_duty(state: &State, duty: Duty) -> Duty
    ensures { result ≡ ranked_duty state.now duty }
{
    match duty {
        Duty::Walk { lock, seek, key } => Duty::Walk {
            lock,
            seek,
            key: rank_of(state, key),
        },
        Duty::Rouse(chan, below) => Duty::Rouse(chan, rank_of(state, below)),
        Duty::Nothing
        | Duty::WakeMutex(_)
        | Duty::GrantWriter(_)
        | Duty::GrantReaders(_)
        | Duty::Age(_) => duty,
    }
}

/// Writes the numbers of a thread with the rank of its key.
#[tactic(auto, unfolding(crate::specs::Numbers::thread))]
fn write_ranked_thread(
    state: &State,
    thread: &ThreadState,
    into: &mut Writer,
) -> Result<(), AllocError>
    ensures written { OnOk result (into.new ≡ into.old ++ thread_numbers (ranked_thread state.now thread.now)) }
    ensures fits { OnOk result (FitsThread (ranked_thread state.now thread.now)) }
{
    thread.body.write(into)?;
    ranked_place(state, thread.place).write(into)
}

/// Writes the numbers of a processor with the rank of its key.
fn write_ranked_cpu(state: &State, cpu: &CpuState, into: &mut Writer) -> Result<(), AllocError>
    ensures written { OnOk result (into.new ≡ into.old ++ cpu_numbers (ranked_cpu state.now cpu.now)) }
    ensures fits { OnOk result (FitsCpu (ranked_cpu state.now cpu.now)) }
{
    let duty = ranked_duty(state, cpu.duty);
    let ranked = CpuState { duty, ..*cpu };
    ranked.write(into)
}

/// Writes how many threads there are, and the numbers of each with the rank of its key.
fn write_ranked_threads(
    state: &State,
    threads: &[ThreadState],
    into: &mut Writer,
) -> Result<(), AllocError>
    ensures written { OnOk result (into.new ≡ into.old ++ listed thread_numbers (map (ranked_thread state.now) threads.now)) }
    ensures fits { OnOk result (All FitsThread (map (ranked_thread state.now) threads.now)) }
{
    into.push(threads.len() as u64)?;
    for thread in threads {
        write_ranked_thread(state, thread, into)?;
    }
    Ok(())
}

/// Writes how many processors there are, and the numbers of each with the rank of its key.
fn write_ranked_cpus(state: &State, cpus: &[CpuState], into: &mut Writer) -> Result<(), AllocError>
    ensures written { OnOk result (into.new ≡ into.old ++ listed cpu_numbers (map (ranked_cpu state.now) cpus.now)) }
    ensures fits { OnOk result (All FitsCpu (map (ranked_cpu state.now) cpus.now)) }
{
    into.push(cpus.len() as u64)?;
    for cpu in cpus {
        write_ranked_cpu(state, cpu, into)?;
    }
    Ok(())
}

/// Writes the numbers of a state with its rank for each key.
#[tactic(auto, unfolding(crate::specs::Numbers::vector))]
pub(crate) fn write_ranked(state: &State, into: &mut Writer) -> Result<(), AllocError>
    ensures written { OnOk result (into.new ≡ into.old ++ vector (ranked state.now)) }
    ensures fits { OnOk result (FitsState (ranked state.now)) }
{
    write_ranked_threads(state, state.threads.items(), into)?;
    write_items(state.locks.items(), into)?;
    write_ranked_cpus(state, state.cpus.items(), into)?;
    write_items(state.counts.items(), into)?;
    write_items(state.open_cpus.items(), into)?;
    Ok(())
}
