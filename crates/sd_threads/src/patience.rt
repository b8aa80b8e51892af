//! How long a processor waits for ticks of others before its stint ends. No clause depends on it: a stint may end after any phase.

use sd_cpu::{Phased, Turned};
use std::sync::Wait;
use std::thread::{Parker, yield_now};
use std::time::Duration;

/// So many phases in a row without an entry end a stint in which no wait has come to an end yet. The host may have given no thread to the
/// others, and then nothing comes while this processor waits.
const FIRST_IDLE_PHASES: u32 = 200;

/// The same once a wait has come to an end: others go on side by side, and may only lack a processor of the host for a while.
const LATER_IDLE_PHASES: u32 = 1_000;

/// After so many phases without an entry the thread naps between two of them. Yielding alone would keep a processor of the host busy.
const YIELDS: u32 = 100;

/// A nap, in microseconds.
const NAP: u64 = 50;

/// How many phases in a row made no entry, and after how many of them the stint ends.
#[derive(Clone, Copy)]
pub(crate) struct Patience {
    idle: u32,
    most: u32,
}

// Lets other threads of the host go first.
fn wait<R: Wait>(rt: &R, idle: u32) {
    if idle < YIELDS {
        yield_now();
    } else {
        Parker::new().park_timeout(rt, Duration::from_micros(NAP));
    }
}

impl Patience {
    /// That of a stint that begins.
    pub(crate) fn first() -> Patience {
        Patience {
            idle: 0,
            most: FIRST_IDLE_PHASES,
        }
    }

    /// That after one more phase. After one without an entry it waits.
    pub(crate) fn after<R: Wait>(self, rt: &R, phased: Phased) -> Patience {
        if phased.entries == 0 {
            wait(rt, self.idle);
            return Patience {
                idle: self.idle.saturating_add(1),
                most: self.most,
            };
        }
        if self.idle == 0 {
            return self;
        }
        Patience {
            idle: 0,
            most: LATER_IDLE_PHASES,
        }
    }

    /// The stint ends with this phase: all ticks are counted and nothing is left to do, or too many phases made no entry.
    pub(crate) fn is_over(self, phased: Phased) -> bool {
        match phased.end {
            Turned::Finished => true,
            _ => self.idle >= self.most,
        }
    }
}
