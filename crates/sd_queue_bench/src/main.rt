//! Measures the queues with small items and with big ones. It prints how many calls had their effect, and
//! where its arguments have `time` the nanoseconds that each call took.
#![tactic(auto)]

mod chains;
mod ends;
mod items;
mod measure;
mod middle;

use chains::{measure_sleepers, measure_waiters};
use ends::{measure_ends, measure_levels};
use items::{Big, Made, Small};
use measure::{Measured, STANDING};
use middle::measure_middle;
use std::{env, io};

const SIZES: [u32; 3] = [100, 10_000, 1_000_000];

fn print_with_time(rt: &impl io::Print, call: &str, done: u32, time: u128) -> io::Result<()> {
    println!(rt; "  {call}: {done} at {time} ns")
}

fn print(rt: &impl io::Print, call: &str, measured: Measured, with_time: bool) -> io::Result<()> {
    let Measured { done, time } = measured;
    if with_time {
        return print_with_time(rt, call, done, time.as_nanos());
    }
    println!(rt; "  {call}: {done}")
}

fn print_each(
    rt: &impl io::Print,
    calls: &[&str],
    measured: &[Measured],
    with_time: bool,
) -> io::Result<()> {
    for (call, each) in calls.iter().zip(measured) {
        print(rt, call, *each, with_time)?;
    }
    Ok(())
}

fn print_ends<T: Made + Drop>(
    rt: &HostRuntime,
    item: &str,
    count: u32,
    with_time: bool,
) -> io::Result<()> {
    println!(rt;
        "{count} {item} items at the ends of a queue, and over all levels of a dispatch queue"
    )?;
    let ends = measure_ends::<T>(rt, rt.alloc(), count)?;
    print_each(rt, &["push_back", "pop_front"], &ends, with_time)?;
    let levels = measure_levels::<T>(rt, rt.alloc(), count)?;
    print_each(rt, &["put_back", "take_best"], &levels, with_time)
}

fn print_sizes<T: Made + Drop>(rt: &HostRuntime, item: &str, with_time: bool) -> io::Result<()> {
    for count in SIZES {
        print_ends::<T>(rt, item, count, with_time)?;
    }
    Ok(())
}

const MIDDLE: [&str; 4] = ["put_ranked", "find", "find and replace", "take"];

fn print_middle<T: Made + Drop>(rt: &HostRuntime, item: &str, with_time: bool) -> io::Result<()> {
    println!(rt; "in the middle of {STANDING} {item} items")?;
    let middle = measure_middle::<T>(rt, rt.alloc())?;
    print_each(rt, &MIDDLE, &middle, with_time)?;
    let sleepers = measure_sleepers::<T>(rt, rt.alloc())?;
    print_each(rt, &["sleep", "take a sleeper"], &sleepers, with_time)?;
    let waiters = measure_waiters::<T>(rt, rt.alloc())?;
    print_each(rt, &["block", "take a waiter"], &waiters, with_time)
}

/// Whether one of the arguments is `time`.
fn is_time_asked(rt: &HostRuntime) -> io::Result<bool> {
    let mut is_asked = false;
    for argument in env::args(rt)? {
        if argument.as_str() == "time" {
            is_asked = true;
        }
    }
    Ok(is_asked)
}

fn main(rt: HostRuntime) -> io::Result<()> {
    let with_time = is_time_asked(&rt)?;
    print_middle::<Small>(&rt, "small", with_time)?;
    print_middle::<Big>(&rt, "big", with_time)?;
    // The big ones first: many small blocks that were freed are joined at the next bigger one.
    print_sizes::<Big>(&rt, "big", with_time)?;
    print_sizes::<Small>(&rt, "small", with_time)
}
