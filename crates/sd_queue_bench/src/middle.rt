//! Boxes that come and go in the middle of a level of a dispatch queue.

use crate::items::{Made, Tag, node};
use crate::measure::{CALLS, GUEST, Measured, STANDING, guest, standing, time_of};
use sd_dispq::DispQueue;
use std::alloc::{AllocError, Global};
use std::io;
use std::time::{Clock, Instant};

fn fill<T: Made + Drop>(alloc: Global, queue: &mut DispQueue<T>) -> Result<(), AllocError> {
    for id in 0..STANDING {
        queue.put_back(node(alloc, standing(id))?);
    }
    Ok(())
}

fn put_guests<T: Made + Drop>(alloc: Global, queue: &mut DispQueue<T>) -> Result<(), AllocError> {
    for _ in 0..CALLS {
        queue.put_ranked(node(alloc, guest())?);
    }
    Ok(())
}

fn find_guests<T: Made + Drop>(queue: &DispQueue<T>) -> u32 {
    let mut done = 0u32;
    for _ in 0..CALLS {
        if queue.find(GUEST).is_some() {
            done = done.saturating_add(1);
        }
    }
    done
}

// Puts an item made anew in place of the one with this id.
fn renew<T: Made + Drop>(
    alloc: Global,
    queue: &mut DispQueue<T>,
    id: u32,
) -> Result<bool, AllocError> {
    let tag = match queue.find(id) {
        None => return Ok(false),
        Some(item) => Tag {
            rank: item.rank(),
            key: item.key(),
            id: item.id(),
        },
    };
    let item = T::made(alloc, tag)?;
    Ok(queue.replace(id, item).is_some())
}

fn renew_guests<T: Made + Drop>(
    alloc: Global,
    queue: &mut DispQueue<T>,
) -> Result<u32, AllocError> {
    let mut done = 0u32;
    for _ in 0..CALLS {
        if renew(alloc, queue, GUEST)? {
            done = done.saturating_add(1);
        }
    }
    Ok(done)
}

fn take_guests<T: Made + Drop>(queue: &mut DispQueue<T>) -> u32 {
    let mut done = 0u32;
    for _ in 0..CALLS {
        if queue.take(GUEST).is_some() {
            done = done.saturating_add(1);
        }
    }
    done
}

fn measure_queue<T: Made + Drop>(
    clock: &impl Clock,
    alloc: Global,
    queue: &mut DispQueue<T>,
) -> io::Result<[Measured; 4]> {
    fill(alloc, queue)?;
    let start = Instant::now(clock)?;
    put_guests(alloc, queue)?;
    let put = time_of(clock, start, CALLS)?;
    let start = Instant::now(clock)?;
    let found = time_of(clock, start, find_guests(queue))?;
    let start = Instant::now(clock)?;
    let replaced = time_of(clock, start, renew_guests(alloc, queue)?)?;
    let start = Instant::now(clock)?;
    let taken = time_of(clock, start, take_guests(queue))?;
    Ok([put, found, replaced, taken])
}

/// The calls in the middle of a level of a dispatch queue: `put_ranked`, `find`, `find` with `replace`, and
/// `take`.
pub fn measure_middle<T: Made + Drop>(
    clock: &impl Clock,
    alloc: Global,
) -> io::Result<[Measured; 4]> {
    let mut queue: DispQueue<T> = DispQueue::new(alloc)?;
    measure_queue(clock, alloc, &mut queue)
}
