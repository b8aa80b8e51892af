//! The table.

ghost use Rattle.std.specs.Prelude.{◌≡◌};
ghost use Rattle.sd_shared_rule.specs.Places.{home_count};
ghost use Rattle.sd_shared_rule.specs.Words.{thread_count, word_count};

use crate::rule::Rule;
use atomic_table::Table;
use sd_homes::Home;
use sd_shared_rule::View;
use sd_types::Work;
use std::alloc::Global;

/// The homes of a run behind their locks, with the words of its threads and processors; and the numbers of its homes, threads and
/// processors.
#[derive(Drop)]
pub struct Shared {
    pub table: Table<Option<Home>, View, Work, Rule, Global>,
    pub homes: usize,
    pub threads: usize,
    pub cpus: usize,
    ghost words: { table.shared.table_id.words ≡ word_count table.shared.key },
    ghost slots: { table.shared.table_id.slots ≡ home_count table.shared.key },
    ghost homes_are: { homes ≡ home_count table.shared.key },
    ghost threads_are: { threads ≡ thread_count table.shared.key },
    ghost cpus_are: { cpus ≡ table.shared.key.cpus },
}
