//! The partitions of three workloads, worked out by hand.

ghost use Rattle.std.specs.Prelude.{◌≡◌, ◌≤◌, length, IsTrue, IfOk};
ghost use Rattle.sd_types.specs.NameWords.{is_name};
ghost use Rattle.sd_types.specs.Limits.{most_processors};

use crate::given::idle;
use sd_rules::{cpus_of_set, set_of_cpu};
use sd_types::{CpuId, List, Name, SetId, Work};
use std::alloc::{AllocError, Global};
use std::test::Fail;

/// A set of this name.
fn set(alloc: Global, name: &[u8], cpus: &[CpuId]) -> Result<(Name, List<CpuId>), AllocError>
    requires { IsTrue (is_name name.now) }
    ensures { IfOk result (λ set. (set.0.text.items ≡ name.now) × (set.1 ≡ cpus.now)) }
{
    let cpus = Vec::from_slice(alloc, cpus)?;
    Ok((Name::from_word(name), List::from_vec(cpus)))
}

/// Whether these are the sets of the first processors.
fn has_sets(work: &Work, sets: &[u8]) -> bool
    requires { length sets.now ≤ most_processors }
{
    for (number, set) in sets.iter().enumerate() {
        if set_of_cpu(work, CpuId(number as u16)).0 != *set {
            return false;
        }
    }
    true
}

/// Whether these are the processors of the set.
fn has_cpus(work: &Work, set: u8, cpus: &[CpuId]) -> bool {
    cpus_of_set(work, SetId(set)).as_slice() == cpus
}

/// A workload of one processor.
fn of_one(alloc: Global) -> Result<Work, AllocError> {
    idle(alloc, 1, List::from_vec(Vec::new(alloc)))
}

#[test]
fn one_processor(rt: HostRuntime) -> Result<(), Fail> {
    let work = of_one(rt.alloc())?;
    let is_so = has_sets(&work, &[0]) && has_cpus(&work, 0, &[CpuId(0)]);
    assert!(rt; is_so);
    Ok(())
}

/// A workload of four processors and two sets.
fn of_four(alloc: Global) -> Result<Work, AllocError> {
    let first = set(alloc, b"a", &[CpuId(3), CpuId(1)])?;
    let second = set(alloc, b"b", &[CpuId(0)])?;
    let sets = Vec::from_array(alloc, [first, second])?;
    idle(alloc, 4, List::from_vec(sets))
}

fn is_of_four(work: &Work) -> bool {
    has_sets(work, &[2, 1, 0, 1])
        && has_cpus(work, 0, &[CpuId(2)])
        && has_cpus(work, 1, &[CpuId(1), CpuId(3)])
        && has_cpus(work, 2, &[CpuId(0)])
}

#[test]
fn four_processors(rt: HostRuntime) -> Result<(), Fail> {
    let work = of_four(rt.alloc())?;
    let is_so = is_of_four(&work);
    assert!(rt; is_so);
    Ok(())
}

/// A workload of 64 processors and one set.
fn of_sixty_four(alloc: Global) -> Result<Work, AllocError> {
    let ends = set(alloc, b"ends", &[CpuId(63), CpuId(0), CpuId(31)])?;
    let sets = Vec::from_array(alloc, [ends])?;
    idle(alloc, 64, List::from_vec(sets))
}

fn is_of_sixty_four(work: &Work) -> bool {
    let mut sets = [0; 64];
    sets[0] = 1;
    sets[31] = 1;
    sets[63] = 1;
    has_sets(work, &sets) && has_cpus(work, 1, &[CpuId(0), CpuId(31), CpuId(63)])
}

#[test]
fn sixty_four_processors(rt: HostRuntime) -> Result<(), Fail> {
    let work = of_sixty_four(rt.alloc())?;
    let is_so = is_of_sixty_four(&work);
    assert!(rt; is_so);
    Ok(())
}
