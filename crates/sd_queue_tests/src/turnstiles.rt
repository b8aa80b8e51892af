//! Turnstiles: four locks of one chain, each with waiters on both sides, taken in turn.
ghost use Rattle.std.specs.Prelude.{◌≡◌, IfOk, IsTrue};
ghost use Rattle.sd_turnstile.specs.Waiters.{nobody, IsIdle, IsOfChain};

use crate::items::{Item, id_of, node, sent};
use crate::judging::is_so;
use sd_boxq::{Node, Ranked};
use sd_turnstile::{Rack, Turnstile, TurnstileChain};
use sd_types::{LockId, Side};
use std::alloc::AllocError;

fn turnstile(rt: &HostRuntime) -> Result<Turnstile<Item>, AllocError>
    ensures { IfOk result (λ t. t ≡ nobody) }
{
    Turnstile::new(rt.alloc())
}

fn best(taken: Option<(Node<Item>, Turnstile<Item>)>) -> u32 {
    match taken {
        Some((node, _turnstile)) => node.item().id,
        None => 0,
    }
}

// The lock for which the taken one waited, and whether as a writer.
fn left(taken: Option<(LockId, Side, Node<Item>, Turnstile<Item>)>) -> (u16, bool) {
    match taken {
        Some((lock, side, _node, _turnstile)) => (lock.0, side == Side::Writer),
        None => (0, false),
    }
}

fn side(writes: bool) -> Side {
    if writes { Side::Writer } else { Side::Reader }
}

// The lock, whether as a writer, the rank, the key and the id.
const WAITERS: [(u16, bool, u8, i64, u32); 9] = [
    (5, true, 10, 1, 1),
    (5, false, 30, 2, 2),
    (69, false, 20, 3, 3),
    (69, true, 20, 4, 4),
    (133, true, 40, 6, 5),
    (133, true, 40, 5, 6),
    (133, false, 15, 9, 9),
    (197, false, 50, 7, 7),
    (197, true, 60, 8, 8),
];

// Whether this is a lock of that chain.
fn is_of(chain: &TurnstileChain<Item>, lock: u16) -> bool
    ensures { IsTrue result → IsOfChain chain.now lock }
{
    lock < 256 && lock % 64 == u16::from(chain.number())
}

// Whether all of them could wait for locks of this chain.
fn block_all(rt: &HostRuntime, chain: &mut TurnstileChain<Item>) -> Result<bool, AllocError> {
    for row in &WAITERS {
        let (lock, writes, rank, key, id) = *row;
        if !is_of(chain, lock) {
            return Ok(false);
        }
        let own = turnstile(rt)?;
        chain.block(LockId(lock), side(writes), node(rt, rank, key, id)?, own);
    }
    Ok(true)
}

// Whether these are the greatest ranks of the waiters for these locks.
fn are_greatest(chain: &TurnstileChain<Item>, rows: &[(u16, u8)]) -> bool {
    for row in rows {
        let (lock, rank) = *row;
        if !is_of(chain, lock) || chain.greatest(LockId(lock)) != Some(rank) {
            return false;
        }
    }
    true
}

// Whether these are the best for lock 133 on these sides.
fn are_best(chain: &TurnstileChain<Item>, rows: &[(Side, u32)]) -> bool {
    for row in rows {
        let (side, id) = *row;
        if !is_of(chain, 133) || id_of(chain.best(LockId(133), side)) != id {
            return false;
        }
    }
    true
}

// Whether these are taken in turn as the best for these locks, with 0 for none.
fn leave_in_turn(chain: &mut TurnstileChain<Item>, rows: &[(u16, bool, u32)]) -> bool {
    for row in rows {
        let (lock, writes, id) = *row;
        if !is_of(chain, lock) || best(chain.take_best(LockId(lock), side(writes))) != id {
            return false;
        }
    }
    true
}

// Whether each of these ids is taken from this lock and side.
fn leave_from(chain: &mut TurnstileChain<Item>, rows: &[(u32, u16, bool)]) -> bool {
    for row in rows {
        let (id, lock, writes) = *row;
        let (left_lock, left_writes) = left(chain.take(id));
        if left_lock != lock || left_writes != writes {
            return false;
        }
    }
    true
}

fn is_blocked(chain: &TurnstileChain<Item>) -> bool {
    are_greatest(chain, &[(5, 30), (69, 20), (133, 40), (197, 60)])
        && id_of(chain.find(7)) == 7
        && id_of(chain.find(10)) == 0
        && are_best(chain, &[(Side::Writer, 6), (Side::Reader, 9)])
}

// The lock, whether as a writer, and the id.
const BEST: [(u16, bool, u32); 7] = [
    (5, true, 1),
    (5, true, 0),
    (133, true, 6),
    (5, false, 2),
    (133, true, 5),
    (133, true, 0),
    (133, false, 9),
];

// The id, the lock, and whether as a writer.
const HOMES: [(u32, u16, bool); 5] = [
    (3, 69, false),
    (3, 0, false),
    (8, 197, true),
    (7, 197, false),
    (4, 69, true),
];

fn leave_all(rt: &HostRuntime, chain: &mut TurnstileChain<Item>) -> Result<bool, AllocError> {
    let all = block_all(rt, chain)?;
    Ok(all && is_blocked(chain) && leave_in_turn(chain, &BEST) && leave_from(chain, &HOMES))
}

fn takes_all(rt: &HostRuntime) -> Result<bool, AllocError> {
    let mut chain = TurnstileChain::new(5);
    leave_all(rt, &mut chain)
}

#[test]
fn blocks_and_takes(rt: HostRuntime) {
    is_so(&rt, takes_all(&rt));
}

fn gives_one(rack: &mut Rack<Item>) -> bool {
    rack.take().is_some()
}

// What an empty rack has and gives.
fn is_empty(rack: &mut Rack<Item>) -> bool
    requires { rack.old ≡ 0 }
    ensures { rack.new ≡ 0 }
{
    let has_none = rack.len() == 0;
    match rack.take() {
        None => has_none,
        Some(_turnstile) => false,
    }
}

fn put_three(rt: &HostRuntime, rack: &mut Rack<Item>) -> Result<bool, AllocError>
    requires { rack.old ≡ 0 }
{
    rack.put(turnstile(rt)?);
    rack.put(turnstile(rt)?);
    rack.put(turnstile(rt)?);
    Ok(rack.len() == 3)
}

fn gives_three(rack: &mut Rack<Item>) -> bool {
    gives_one(rack) && gives_one(rack) && gives_one(rack) && !gives_one(rack)
}

fn gives_what_it_has(rt: &HostRuntime, rack: &mut Rack<Item>) -> Result<bool, AllocError>
    requires { rack.old ≡ 0 }
{
    let none = is_empty(rack);
    let three = put_three(rt, rack)?;
    Ok(none && three && gives_three(rack))
}

fn gives(rt: &HostRuntime) -> Result<bool, AllocError> {
    let mut rack = Rack::new();
    gives_what_it_has(rt, &mut rack)
}

#[test]
fn racks(rt: HostRuntime) {
    is_so(&rt, gives(&rt));
}

fn chain_is_sent<T: Ranked + Send>(chain: TurnstileChain<T>) -> TurnstileChain<T>
    ensures { result ≡ chain }
{
    sent(chain)
}

fn rack_is_sent<T: Send>(rack: Rack<T>) -> Rack<T>
    ensures { result ≡ rack }
{
    sent(rack)
}

fn turnstile_is_sent<T: Send>(turnstile: Turnstile<T>) -> Turnstile<T>
    ensures { result ≡ turnstile }
{
    sent(turnstile)
}

fn sends_a_chain(rt: &HostRuntime, own: Turnstile<Item>) -> Result<bool, AllocError>
    requires { IsIdle own }
{
    let mut chain = TurnstileChain::new(9);
    chain.block(LockId(9), Side::Writer, node(rt, 10, 1, 5)?, own);
    let mut chain = chain_is_sent(chain);
    let (lock, writes) = left(chain.take(5));
    Ok(lock == 9 && writes)
}

// What goes to another thread.
fn sends(rt: &HostRuntime) -> Result<bool, AllocError> {
    let mut rack = Rack::new();
    rack.put(turnstile_is_sent(turnstile(rt)?));
    let mut rack = rack_is_sent(rack);
    match rack.take() {
        Some(own) => sends_a_chain(rt, own),
        None => Ok(false),
    }
}

#[test]
fn is_send(rt: HostRuntime) {
    is_so(&rt, sends(&rt));
}
