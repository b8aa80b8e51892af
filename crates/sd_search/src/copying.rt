//! A state once more: a turn is made on a copy, so that the state from which it leads stays for the other processors. The copy
//! goes where another state of the same workload stands, so that it takes no memory.

ghost use Rattle.std.specs.Prelude.{◌≡◌, length, IfOk, OnOk};

use arrayvec::ArrayVec;
use sd_record::{copied, copied_body};
use sd_state::{State, ThreadState};
use sd_types::{CpuId, List, ThreadBody};
use std::alloc::{AllocError, Global};

fn copied_threads(alloc: Global, threads: &[ThreadState]) -> Result<Vec<ThreadState>, AllocError>
    ensures { IfOk result (λ copies. copies.items ≡ threads.now) }
{
    let mut copies = Vec::with_capacity(alloc, threads.len())?;
    for thread in threads {
        copies.push(ThreadState {
            body: copied_body(&thread.body),
            place: thread.place,
        })?;
    }
    Ok(copies)
}

/// Makes the one list as the other is. Most lists of threads are empty, and then nothing is written.
#[inline(always)]
fn put_list<T: Copy + Default + Drop, const N: usize>(
    list: &mut ArrayVec<T, N>,
    from: &ArrayVec<T, N>,
)
    ensures { list.new.items ≡ from.now.items }
{
    if list.len() > 0 || from.len() > 0 {
        *list = copied(from);
    }
}

/// Makes the one body as the other is, field by field.
#[inline(always)]
fn put_body(body: &mut ThreadBody, from: &ThreadBody)
    ensures { body.new ≡ from.now }
{
    body.class = from.class;
    put_list(&mut body.willed, &from.willed);
    put_list(&mut body.held, &from.held);
    body.op = from.op;
    body.run_left = from.run_left;
    body.back = from.back;
    body.last = from.last;
    body.left_at = from.left_at;
    body.looped = from.looped;
    body.bound = from.bound;
}

fn put_threads(threads: &mut [ThreadState], from: &[ThreadState])
    requires { length threads.old ≡ length from.now }
    ensures { threads.new ≡ from.now }
{
    for i in 0..from.len() {
        let thread = &mut threads[i];
        put_body(&mut thread.body, &from[i].body);
        thread.place = from[i].place;
    }
}

fn copy_threads(
    alloc: Global,
    from: &[ThreadState],
    threads: &mut List<ThreadState>,
) -> Result<(), AllocError>
    ensures { OnOk result (threads.new ≡ from.now) }
{
    if threads.items().len() == from.len() {
        put_threads(threads.items_mut(), from);
    } else {
        *threads = List::from_vec(copied_threads(alloc, from)?);
    }
    Ok(())
}

fn copied_sets(
    alloc: Global,
    sets: &[ArrayVec<CpuId, 64>],
) -> Result<Vec<ArrayVec<CpuId, 64>>, AllocError>
    ensures { IfOk result (λ copies. copies.items ≡ sets.now) }
{
    let mut copies = Vec::with_capacity(alloc, sets.len())?;
    for set in sets {
        copies.push(copied(set))?;
    }
    Ok(copies)
}

fn put_sets(sets: &mut [ArrayVec<CpuId, 64>], from: &[ArrayVec<CpuId, 64>])
    requires { length sets.old ≡ length from.now }
    ensures { sets.new ≡ from.now }
{
    for i in 0..from.len() {
        sets[i] = copied(&from[i]);
    }
}

fn copy_sets(
    alloc: Global,
    from: &[ArrayVec<CpuId, 64>],
    sets: &mut List<ArrayVec<CpuId, 64>>,
) -> Result<(), AllocError>
    ensures { OnOk result (sets.new ≡ from.now) }
{
    if sets.items().len() == from.len() {
        put_sets(sets.items_mut(), from);
    } else {
        *sets = List::from_vec(copied_sets(alloc, from)?);
    }
    Ok(())
}

fn copy_items<T: Copy + Drop>(
    alloc: Global,
    from: &[T],
    items: &mut List<T>,
) -> Result<(), AllocError>
    ensures { OnOk result (items.new ≡ from.now) }
{
    if items.items().len() == from.len() {
        items.items_mut().copy_from_slice(from);
    } else {
        *items = List::from_vec(Vec::from_slice(alloc, from)?);
    }
    Ok(())
}

/// Makes the one state as the other is. It takes memory only where a list has another length.
pub(crate) fn copy_state(alloc: Global, from: &State, state: &mut State) -> Result<(), AllocError>
    ensures { OnOk result (state.new ≡ from.now) }
{
    copy_threads(alloc, from.threads.items(), &mut state.threads)?;
    copy_items(alloc, from.locks.items(), &mut state.locks)?;
    copy_items(alloc, from.cpus.items(), &mut state.cpus)?;
    copy_items(alloc, from.counts.items(), &mut state.counts)?;
    copy_sets(alloc, from.open_cpus.items(), &mut state.open_cpus)?;
    Ok(())
}
