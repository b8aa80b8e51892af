//! Sleep queues: four channels of one chain, by hand.
ghost use Rattle.std.specs.Prelude.{◌≡◌};

use crate::items::{Item, id_of, node, sent, taken};
use crate::judging::is_so;
use sd_boxq::{Node, Ranked};
use sd_sleepq::SleepChain;
use sd_types::ChanId;
use std::alloc::AllocError;

// The channel on which the taken one slept, and 0 where there was none.
fn woken(taken: Option<(ChanId, Node<Item>)>) -> u16 {
    match taken {
        Some((channel, _node)) => channel.0,
        None => 0,
    }
}

// The channel, the rank, the key and the id.
const SLEEPERS: [(u16, u8, i64, u32); 7] = [
    (3, 50, 7, 1),
    (67, 50, 8, 2),
    (131, 50, 9, 3),
    (195, 50, 10, 4),
    (67, 60, 20, 5),
    (67, 50, 8, 6),
    (67, 40, -3, 7),
];

// Whether all of them could be put to sleep on channels of this chain.
fn sleep_all(rt: &HostRuntime, chain: &mut SleepChain<Item>) -> Result<bool, AllocError> {
    for row in &SLEEPERS {
        let (channel, rank, key, id) = *row;
        if channel >= 256 || channel % 64 != u16::from(chain.number()) {
            return Ok(false);
        }
        chain.sleep(ChanId(channel), node(rt, rank, key, id)?);
    }
    Ok(true)
}

// Whether what is found of each id has the id beside it, with 0 for none.
fn are_found(chain: &SleepChain<Item>, rows: &[(u32, u32)]) -> bool {
    for row in rows {
        let (id, found) = *row;
        if id_of(chain.find(id)) != found {
            return false;
        }
    }
    true
}

// Whether these are the best on channel 67 with keys below these.
fn are_best(chain: &SleepChain<Item>, rows: &[(i64, u32)]) -> bool {
    for row in rows {
        let (below, id) = *row;
        if chain.number() != 3 || id_of(chain.best(ChanId(67), below)) != id {
            return false;
        }
    }
    true
}

// Whether these are the best on channel 67, as each of them is taken.
fn leave_in_turn(chain: &mut SleepChain<Item>, rows: &[(i64, u32)]) -> bool {
    for row in rows {
        let (below, id) = *row;
        if chain.number() != 3 || taken(chain.take_best(ChanId(67), below)) != id {
            return false;
        }
    }
    true
}

// Whether each of these ids is taken from this channel.
fn are_woken(chain: &mut SleepChain<Item>, rows: &[(u32, u16)]) -> bool {
    for row in rows {
        let (id, channel) = *row;
        if woken(chain.take(id)) != channel {
            return false;
        }
    }
    true
}

fn is_asleep(chain: &SleepChain<Item>) -> bool {
    are_found(chain, &[(1, 1), (4, 4), (5, 5), (6, 6), (7, 7), (8, 0)])
        // Channel 67 has 5, 2, 6 and 7: the greater rank first, and of the equal keys the earlier sleeper.
        && are_best(chain, &[(21, 5), (20, 2), (9, 2), (8, 7), (-2, 7), (-3, 0)])
}

fn is_woken(chain: &mut SleepChain<Item>) -> bool {
    leave_in_turn(
        chain,
        &[(-3, 0), (8, 7), (20, 2), (21, 5), (8, 0), (9, 6), (100, 0)],
    ) && are_woken(chain, &[(6, 0), (3, 131), (3, 0), (4, 195), (1, 3), (1, 0)])
}

fn wakes_all(rt: &HostRuntime, chain: &mut SleepChain<Item>) -> Result<bool, AllocError> {
    let all = sleep_all(rt, chain)?;
    Ok(all && is_asleep(chain) && is_woken(chain))
}

fn wakes(rt: &HostRuntime) -> Result<bool, AllocError> {
    let mut chain = SleepChain::new(3);
    wakes_all(rt, &mut chain)
}

#[test]
fn sleeps_and_wakes(rt: HostRuntime) {
    is_so(&rt, wakes(&rt));
}

fn chain_is_sent<T: Ranked + Send>(chain: SleepChain<T>) -> SleepChain<T>
    ensures { result ≡ chain }
{
    sent(chain)
}

// What goes to another thread.
fn sends(rt: &HostRuntime) -> Result<bool, AllocError> {
    let mut chain = SleepChain::new(1);
    chain.sleep(ChanId(65), node(rt, 10, 1, 5)?);
    let mut chain = chain_is_sent(chain);
    Ok(woken(chain.take(5)) == 65)
}

#[test]
fn is_send(rt: HostRuntime) {
    is_so(&rt, sends(&rt));
}
