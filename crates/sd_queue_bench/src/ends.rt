//! Boxes that are put at the back of a queue and taken from its front. The queue is owned apart from what is done with it, so that no call that
//! fails has to drop it.

use crate::items::{Made, Tag, node};
use crate::measure::{Measured, standing, time_of};
use sd_boxq::BoxQueue;
use sd_dispq::DispQueue;
use std::alloc::{AllocError, Global};
use std::io;
use std::time::{Clock, Instant};

fn push_all<T: Made + Drop>(
    alloc: Global,
    queue: &mut BoxQueue<T>,
    count: u32,
) -> Result<(), AllocError> {
    for id in 0..count {
        queue.push_back(node(alloc, standing(id))?);
    }
    Ok(())
}

fn pop_all<T: Made + Drop>(queue: &mut BoxQueue<T>, count: u32) -> u32 {
    let mut done = 0u32;
    for _ in 0..count {
        if queue.pop_front().is_some() {
            done = done.saturating_add(1);
        }
    }
    done
}

fn measure_queue<T: Made + Drop>(
    clock: &impl Clock,
    alloc: Global,
    queue: &mut BoxQueue<T>,
    count: u32,
) -> io::Result<[Measured; 2]> {
    let start = Instant::now(clock)?;
    push_all(alloc, queue, count)?;
    let put = time_of(clock, start, count)?;
    let start = Instant::now(clock)?;
    let done = pop_all(queue, count);
    Ok([put, time_of(clock, start, done)?])
}

/// Boxes that are put at the back of a queue, and taken from its front.
pub fn measure_ends<T: Made + Drop>(
    clock: &impl Clock,
    alloc: Global,
    count: u32,
) -> io::Result<[Measured; 2]> {
    let mut queue: BoxQueue<T> = BoxQueue::new();
    measure_queue(clock, alloc, &mut queue, count)
}

fn put_all<T: Made + Drop>(
    alloc: Global,
    queue: &mut DispQueue<T>,
    count: u32,
) -> Result<(), AllocError> {
    for id in 0..count {
        let rank = (id % 160) as u8;
        queue.put_back(node(alloc, Tag { rank, key: 0, id })?);
    }
    Ok(())
}

fn take_all<T: Made + Drop>(queue: &mut DispQueue<T>, count: u32) -> u32 {
    let mut done = 0u32;
    for _ in 0..count {
        if queue.take_best().is_some() {
            done = done.saturating_add(1);
        }
    }
    done
}

fn measure_dispatch_queue<T: Made + Drop>(
    clock: &impl Clock,
    alloc: Global,
    queue: &mut DispQueue<T>,
    count: u32,
) -> io::Result<[Measured; 2]> {
    let start = Instant::now(clock)?;
    put_all(alloc, queue, count)?;
    let put = time_of(clock, start, count)?;
    let start = Instant::now(clock)?;
    let done = take_all(queue, count);
    Ok([put, time_of(clock, start, done)?])
}

/// Boxes that are put into a dispatch queue, over all its levels, and of which the best is taken until none
/// is left.
pub fn measure_levels<T: Made + Drop>(
    clock: &impl Clock,
    alloc: Global,
    count: u32,
) -> io::Result<[Measured; 2]> {
    let mut queue: DispQueue<T> = DispQueue::new(alloc)?;
    measure_dispatch_queue(clock, alloc, &mut queue, count)
}
