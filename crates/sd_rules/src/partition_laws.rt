//! That the partitions of every workload are what psrset(1M) says of processor sets.

ghost use Rattle.std.specs.Prelude.{◌≡◌, ℕ, ◌+◌, ◌<◌, ◌≤◌, ◌↔◌, List, length, slice_get, Some, Contains, IsTrue};
ghost use Rattle.sd_types.specs.declared.numbers.CpuId.{CpuId};
ghost use Rattle.sd_types.specs.declared.names.Name.{Name};
ghost use Rattle.sd_types.specs.declared.works.Work.{Work};
ghost use Rattle.sd_types.specs.Partitions.{set_of_cpu, cpus_of_set};
ghost use Rattle.sd_rules.specs.Lists.{is_rising};

/// Each processor is in one partition and in no other: it is in that of its set alone.
pub fn each_in_one()
    ensures known { (work : Work) (c : ℕ) → set_of_cpu work c ≤ length work.sets }
    ensures only { (work : Work) (c : CpuId) (p : ℕ) → Contains (cpus_of_set work p) c ↔ ((c.0 < work.cpus) × (set_of_cpu work c.0 ≡ p)) }
{}

/// The partition of a declared set has the processors that the set names.
pub fn partitions_are_sets()
    ensures { (work : Work) (i : ℕ) (set : Name × List CpuId) (c : CpuId) → slice_get work.sets i ≡ Some set
        → Contains set.1 c ↔ (set_of_cpu work c.0 ≡ i + 1) }
{}

/// No partition is empty, also the default partition, and the processors of each are in rising order.
pub fn partitions_stand()
    ensures some { (work : Work) (p : ℕ) → p ≤ length work.sets → 0 < length (cpus_of_set work p) }
    ensures rising { (work : Work) (p : ℕ) → IsTrue (is_rising (cpus_of_set work p)) }
{}
