//! The partitions of a workload: the default partition and one for each processor set (psrset(1M)). Each processor is in one of them. They
//! are those of the initial state.

ghost use Rattle.std.specs.Prelude.{◌≡◌, ◌+◌, ◌==◌};
ghost use Rattle.std.specs.List.{list_any};
ghost use Rattle.sd_types.specs.declared.works.Work.{Work};
ghost use Rattle.sd_types.specs.Partitions.{set_of_cpu, cpus_of_set};

use arrayvec::ArrayVec;
use sd_types::{CpuId, List, SetId, Work};

/// The set of a processor: that which names it, or the default partition.
pub fn set_of_cpu(work: &Work, c: CpuId) -> SetId
    ensures { result.0 ≡ set_of_cpu work.now c.0 }
{
    let sets = work.sets.items();
    for index in 0..sets.len() {
        let named = &sets[index].1;
        if is_named(named, c) {
            return SetId(index as u8 + 1);
        }
    }
    SetId(0)
}

fn is_named(cpus: &List<CpuId>, c: CpuId) -> bool
    ensures { result ≡ list_any (λ named. named.0 == c.0) cpus.now }
{
    cpus.items().iter().any(|named| named.0 == c.0)
}

/// The processors of a set, in rising order; none where the workload has no set of this number.
pub fn cpus_of_set(work: &Work, p: SetId) -> ArrayVec<CpuId, 64>
    ensures { result.items ≡ cpus_of_set work.now p.0 }
{
    let mut cpus = ArrayVec::new();
    for cpu in 0..work.cpus {
        if set_of_cpu(work, CpuId(cpu)).0 == p.0 {
            cpus.push(CpuId(cpu));
        }
    }
    cpus
}
