//! What the lines so far declare.

ghost use Rattle.std.specs.Prelude.{◌≡◌, ◌<◌, ◌≤◌, ◌^◌, length, map, sum_by, unwrap_or, option_map};
ghost use Rattle.sd_types.specs.Limits.{most_objects, most_processors, most_sets, most_threads};

use crate::scripted::Scripted;
use sd_lines::NameIndex;
use sd_types::{ChanKind, CpuId, List, LockKind, Name, ThreadDecl};
use std::alloc::Global;

/// What the lines so far declare: the settings, where a line gives them; the sets, locks, channels and threads in the
/// order of their lines, with the names of the last three to find them by; the texts of the tables' blocks; and the
/// threads that have been given a script. The sets are eight at most, and sought from the first.
#[derive(Drop)]
pub struct Declared {
    pub cpus: Option<u16>,
    pub hz: Option<u32>,
    pub limit: Option<u32>,
    pub sets: Vec<(Name, List<CpuId>)>,
    pub ts: Option<Vec<u8>>,
    pub fx: Option<Vec<u8>>,
    pub rt: Option<Vec<u8>>,
    pub locks: Vec<(Name, LockKind)>,
    pub chans: Vec<(Name, ChanKind)>,
    pub threads: Vec<ThreadDecl>,
    pub scripted: Scripted,
    pub lock_names: NameIndex,
    pub chan_names: NameIndex,
    pub thread_names: NameIndex,
    ghost locks_named: { lock_names ≡ map (λ l. l.0.text.items) locks.items },
    ghost chans_named: { chan_names ≡ map (λ k. k.0.text.items) chans.items },
    ghost threads_named: { thread_names ≡ map (λ t. t.name.text.items) threads.items },
    ghost ts_short: { unwrap_or (option_map (λ t. length t.items) ts) 0 < 2 ^ 31 },
    ghost fx_short: { unwrap_or (option_map (λ t. length t.items) fx) 0 < 2 ^ 31 },
    ghost rt_short: { unwrap_or (option_map (λ t. length t.items) rt) 0 < 2 ^ 31 },
    ghost some_cpu: { 1 ≤ unwrap_or cpus 1 },
    ghost most_cpus: { unwrap_or cpus 1 ≤ most_processors },
    ghost most_sets: { length sets.items ≤ most_sets },
    ghost most_named: { sum_by (λ s. length s.1) sets.items ≤ most_processors },
    ghost most_locks: { length locks.items ≤ most_objects },
    ghost most_chans: { length chans.items ≤ most_objects },
    ghost most_threads: { length threads.items ≤ most_threads },
}

impl Declared {
    ghost use Rattle.sd_declare.specs.Declarations.{nothing};
    ghost use Rattle.sd_declare.specs.Kept.{declarations};

    /// Nothing is declared above the first line.
    pub fn new(alloc: Global) -> Declared
        ensures { declarations result ≡ nothing }
    {
        Declared {
            cpus: None,
            hz: None,
            limit: None,
            sets: Vec::new(alloc),
            ts: None,
            fx: None,
            rt: None,
            locks: Vec::new(alloc),
            chans: Vec::new(alloc),
            threads: Vec::new(alloc),
            scripted: Scripted::new(alloc),
            lock_names: NameIndex::new(alloc),
            chan_names: NameIndex::new(alloc),
            thread_names: NameIndex::new(alloc),
        }
    }
}
