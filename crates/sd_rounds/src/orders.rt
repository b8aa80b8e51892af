//! The order in which the processors have their turns in each round.

ghost use Rattle.std.specs.Prelude.{◌≡◌, ◌-◌, None, length};
ghost use Rattle.sd_machine.specs.Runs.{rising};
ghost use Rattle.sd_rounds.specs.Orders.{generator_at, next_order, shuffled};
ghost use Rattle.sd_types.specs.declared.works.Work.{Work};

use arrayvec::ArrayVec;
use rand_core::utils::NextWord;
use rand_pcg::Lcg64Xsh32;
use sd_types::{CpuId, Work};

/// How the processors take turns: in each round in rising order, or in an order that is drawn by a generator which
/// begins with this seed.
#[derive(Clone, Copy)]
pub enum RoundOrder {
    Rising,
    Drawn { seed: u32 },
}

/// The generator with which a run begins, where orders are drawn.
#[tactic(auto, unfolding(crate::specs::Orders::generator))]
pub(crate) fn first_generator(orders: RoundOrder) -> Option<Lcg64Xsh32>
    ensures { (work : Work) → result ≡ generator_at work orders 0 }
{
    match orders {
        RoundOrder::Rising => None,
        RoundOrder::Drawn { seed } => Some(Lcg64Xsh32::new(u64::from(seed), 1)),
    }
}

/// The processors in rising order.
pub(crate) fn rising(work: &Work) -> ArrayVec<CpuId, 64>
    ensures { result.items ≡ rising work.now }
{
    let mut order = ArrayVec::new();
    for c in 0..work.cpus {
        order.push(CpuId(c));
    }
    order
}

/// Exchanges, from the last processor down to the second, each with one that is drawn among those up to it.
fn shuffle(generator: &mut Lcg64Xsh32, order: &mut [CpuId])
    ensures order { order.new ≡ (shuffled (length order.old - 1) generator.old order.old).0 }
    ensures generator { generator.new ≡ (shuffled (length order.old - 1) generator.old order.old).1 }
{
    let mut left = order.len();
    while left > 1 {
        left -= 1;
        let other = generator.next_word() as usize % (left + 1);
        order.swap(left, other);
    }
}

/// Draws the order of the next round, where orders are drawn. Where none is, the order stays as it is: rising.
pub(crate) fn draw_order(
    work: &Work,
    generator: &mut Option<Lcg64Xsh32>,
    order: &mut ArrayVec<CpuId, 64>,
)
    requires rising { generator.old ≡ None → order.old.items ≡ rising work.now }
    ensures order { order.new.items ≡ (next_order (rising work.now) generator.old).0 }
    ensures generator { generator.new ≡ (next_order (rising work.now) generator.old).1 }
    ensures rising { generator.new ≡ None → order.new.items ≡ rising work.now }
{
    if let Some(generator) = generator {
        *order = rising(work);
        shuffle(generator, order.as_mut_slice());
    }
}
