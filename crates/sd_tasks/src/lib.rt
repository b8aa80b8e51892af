//! Task sets as they are read: the lines that they have beside those of a workload, the rules of these, and the lines of the
//! workload to which they expand, but for the clocks.
#![tactic(auto)]

mod blocks;
mod closings;
mod deadlines;
mod facts;
mod forms;
mod openings;
mod operations;
mod read;
mod reader;
mod releases;
mod statements;
mod timed;
mod written;

pub use blocks::{Block, Repeat};
pub use closings::push_end;
pub use deadlines::{SetTask, set_tasks};
pub use facts::{Facts, SetThread, partition};
pub use forms::TimedOptions;
pub use openings::put_waits;
pub use read::{SetReading, read_set};
pub use reader::Reader;
pub use releases::{Release, is_released};
pub use written::{
    WrittenLine, lines_behind, lines_front, lines_text, push_line, push_parts, put_all,
};
