//! A workload without threads.

ghost use Rattle.std.specs.Prelude.{◌≡◌, ◌<◌, ◌≤◌, length, IsTrue, IfOk, map};
ghost use Rattle.std.specs.List.{list_all};
ghost use Rattle.sd_types.specs.Works.{set_fits, set_cpus, same_cpu, same_bytes, is_distinct};
ghost use Rattle.sd_types.specs.Limits.{most_processors, most_sets};

use crate::tables::{Fixed, fixed_table, ts_table};
use sd_types::{CpuId, List, Name, Work};
use std::alloc::{AllocError, Global};

/// The workload of these processors and sets. Its real-time table is the first 60 rows of its fixed-priority table, and its time-sharing
/// table has the quanta of these rows.
pub fn idle(alloc: Global, cpus: u16, sets: List<(Name, List<CpuId>)>) -> Result<Work, AllocError>
    requires some_cpu { 1 ≤ cpus }
    requires most_cpus { cpus ≤ most_processors }
    requires most_sets { length sets ≤ most_sets }
    requires sets_fit { IsTrue (list_all (set_fits cpus) sets) }
    requires cpus_differ { IsTrue (is_distinct same_cpu (set_cpus sets)) }
    requires cpu_left { length (set_cpus sets) < cpus }
    requires set_names { IsTrue (is_distinct same_bytes (map (λ s. s.0.text.items) sets)) }
    ensures { IfOk result (λ work. (work.cpus ≡ cpus) × (work.sets ≡ sets)) }
{
    Ok(Work {
        cpus,
        hz: 100,
        limit: 1,
        sets,
        ts: ts_table(alloc, 4)?,
        fx: fixed_table(alloc, Fixed::FixedPriority, 61)?,
        rt: fixed_table(alloc, Fixed::FixedPriority, 60)?,
        locks: List::from_vec(Vec::new(alloc)),
        chans: List::from_vec(Vec::new(alloc)),
        threads: List::from_vec(Vec::new(alloc)),
    })
}
