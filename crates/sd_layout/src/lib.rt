//! Where things stand in the picture of a run: which ticks are folded since nothing changes in them, where the column of a tick and the row
//! of a processor or a thread begin and end, and which threads have a row.
#![tactic(auto)]

mod folds;
mod frames;
mod laws;
mod layouts;
mod marks;
mod rows;

pub use folds::Column;
pub use frames::{Frame, last_act};
pub use laws::{acting_threads_come_first, folds_are_quiet, rows_are_own};
pub use layouts::{Layout, Row};
pub use rows::layout_of;
