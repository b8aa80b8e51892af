//! An accepted workload. The type keeps its limits, and that everything that it names is declared.

ghost use Rattle.std.specs.Prelude.{◌≡◌, ◌*◌, ◌<◌, ◌≤◌, ◌||◌, ◌==◌, length, sum_by, map, IsTrue};
ghost use Rattle.std.specs.List.{list_all};
ghost use Rattle.sd_types.specs.Works.{set_fits, set_cpus, same_cpu, same_bytes, is_distinct, thread_fits, declared_of, has_small_count};
ghost use Rattle.sd_types.specs.Ticks.{ts_ticks_fit, fixed_ticks_fit};
ghost use Rattle.sd_types.specs.Limits.{greatest_limit, most_objects, most_operations_of_all, most_pairs, most_processors, most_sets, most_threads, most_ticks};

use crate::{ClassParms, CpuId, FixedTable, List, Name, Script, SetId, TsTable};

#[derive(Clone, Copy, PartialEq, Eq)]
pub enum LockKind {
    Mutex,
    Rwlock,
}

/// A channel on which threads sleep, or a semaphore with its first count (0 to 65,535).
#[derive(Clone, Copy)]
pub enum ChanKind {
    Chan,
    Sema { count: u16 },
}

/// A declared thread. `cpupri` is that of a time-sharing thread (0 to 59), and 0 for the other classes.
#[derive(Drop)]
pub struct ThreadDecl {
    pub name: Name,
    pub class: ClassParms,
    pub cpupri: u8,
    pub uid: u16,
    pub privileged: bool,
    pub set: SetId,
    pub script: Script,
}

/// A workload: `cpus` processors (1 to 64), `hz` ticks a second (100 or 1000), `limit` ticks for each
/// processor (1 to 100,000, and at most 200,000 for all of them), the processor sets, the dispatch tables,
/// the locks (at most 256), the channels (at most 256) and the threads (at most 2,048).
/// The limits are this project's own.
#[derive(Drop)]
pub struct Work {
    pub cpus: u16,
    pub hz: u32,
    pub limit: u32,
    pub sets: List<(Name, List<CpuId>)>,
    pub ts: TsTable,
    pub fx: FixedTable,
    pub rt: FixedTable,
    pub locks: List<(Name, LockKind)>,
    pub chans: List<(Name, ChanKind)>,
    pub threads: List<ThreadDecl>,
    ghost some_cpu: { 1 ≤ cpus },
    ghost most_cpus: { cpus ≤ most_processors },
    ghost known_hz: { IsTrue (hz == 100 || hz == 1000) },
    ghost some_limit: { 1 ≤ limit },
    ghost most_limit: { limit ≤ greatest_limit },
    ghost most_ticks: { limit * cpus ≤ most_ticks },
    ghost most_sets: { length sets ≤ most_sets },
    ghost most_locks: { length locks ≤ most_objects },
    ghost most_chans: { length chans ≤ most_objects },
    ghost most_threads: { length threads ≤ most_threads },
    ghost most_pairs: { length threads * length locks ≤ most_pairs },
    ghost most_ops: { sum_by (λ t. length t.script.ops) threads ≤ most_operations_of_all },
    // each set names at least one processor
    ghost sets_fit: { IsTrue (list_all (set_fits cpus) sets) },
    // no processor is named twice
    ghost cpus_differ: { IsTrue (is_distinct same_cpu (set_cpus sets)) },
    // and one is left to the default partition
    ghost cpu_left: { length (set_cpus sets) < cpus },
    ghost set_names: { IsTrue (is_distinct same_bytes (map (λ s. s.0.text.items) sets)) },
    ghost lock_names: { IsTrue (is_distinct same_bytes (map (λ l. l.0.text.items) locks)) },
    ghost chan_names: { IsTrue (is_distinct same_bytes (map (λ k. k.0.text.items) chans)) },
    ghost thread_names: { IsTrue (is_distinct same_bytes (map (λ t. t.name.text.items) threads)) },
    // the first counts of semaphores
    ghost small_counts: { IsTrue (list_all (λ k. has_small_count k.1) chans) },
    ghost threads_fit: { IsTrue (list_all (thread_fits (declared_of cpus sets locks chans threads)) threads) },
    ghost ts_ticks: { IsTrue (ts_ticks_fit hz ts) },
    ghost fx_ticks: { IsTrue (fixed_ticks_fit hz fx) },
    ghost rt_ticks: { IsTrue (fixed_ticks_fit hz rt) },
    ghost rt_rows: { length rt.rows ≡ 60 },
}
