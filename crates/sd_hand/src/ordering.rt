//! Whether homes lie in the order of their numbers, as all homes of a run do. It is looked at once, when the homes come to a hand, and stays so
//! as long as none is given out; then none of them is sought.

ghost use Rattle.std.specs.Prelude.{◌≡◌, ◌+◌, ◌<◌, ◌≤◌, length, true};
ghost use Rattle.sd_hand.specs.Orders.{AreAt, IsOrder, numbered};
ghost use Rattle.sd_hand.specs.declared.ordering.Kind.TheVariants.{Cpu, RealTime, Chain, Sleepers};

use crate::hand::is_at;
use crate::order::Order;
use sd_homes::Home;
use sd_types::{CpuId, HomeId, SetId};

/// The kinds of homes.
#[derive(Clone, Copy)]
enum Kind {
    Cpu,
    RealTime,
    Chain,
    Sleepers,
}

/// The number of the `i`-th home of a kind.
fn number(kind: Kind, i: usize) -> HomeId
    requires { i < 256 }
    ensures { result ≡ numbered kind i }
{
    match kind {
        Kind::Cpu => HomeId::Cpu(CpuId(i as u16)),
        Kind::RealTime => HomeId::RealTime(SetId(i as u8)),
        Kind::Chain => HomeId::Chain(i as u8),
        Kind::Sleepers => HomeId::Sleepers(i as u8),
    }
}

/// So many homes of a kind lie one behind another from this slot on.
fn lie_in_order(slots: &[Option<Home>], kind: Kind, from: usize, count: usize) -> bool
    requires few { count ≤ 256 }
    requires inside { from + count ≤ length slots.now }
    ensures { result ≡ true → AreAt kind from count slots.now }
{
    for i in 0..count {
        if !is_at(number(kind, i), &slots[from + i]) {
            return false;
        }
    }
    true
}

/// The homes of so many processors, then of so many sets, then 64 chains of each kind are all that lie here, in this order.
fn are_all_in_order(slots: &[Option<Home>], cpus: usize, sets: usize) -> bool
    requires few { (cpus ≤ 256) × (sets ≤ 256) }
    requires all { length slots.now ≡ cpus + sets + 128 }
    ensures { result ≡ true → AreAt Cpu 0 cpus slots.now × AreAt RealTime cpus sets slots.now
        × AreAt Chain (cpus + sets) 64 slots.now × AreAt Sleepers (cpus + sets + 64) 64 slots.now }
{
    let chains = cpus + sets;
    lie_in_order(slots, Kind::Cpu, 0, cpus)
        && lie_in_order(slots, Kind::RealTime, cpus, sets)
        && lie_in_order(slots, Kind::Chain, chains, 64)
        && lie_in_order(slots, Kind::Sleepers, chains + 64, 64)
}

/// The order of the homes of so many processors and sets, where these are all homes of a run.
pub(crate) fn order_of(slots: &[Option<Home>], cpus: usize, sets: usize) -> Order
    ensures { IsOrder result slots.now }
{
    if cpus > 256 || sets > 256 || slots.len() != cpus + sets + 128 {
        return Order::none();
    }
    if !are_all_in_order(slots, cpus, sets) {
        return Order::none();
    }
    Order::of(cpus, sets)
}
