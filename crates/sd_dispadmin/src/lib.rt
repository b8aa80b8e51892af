//! Dispatch tables: read from files in the manner of dispadmin(1M), written, and the default ones.
#![tactic(auto)]

mod columns;
mod defaults;
mod fault;
mod laws;
mod read;
mod resolution;
mod sheet;
mod ticks;
mod write;

pub use defaults::{default_fx, default_rt, default_ts};
pub use fault::{ReadTableFault, TableFault};
pub use laws::{
    spellings_have_one_table, texts_have_one_answer, texts_spell_tables, ticks_are_the_ceiling,
    written_tables_are_spelled,
};
pub use read::{read_fx, read_rt, read_ts};
pub use write::{write_fixed, write_ts};
