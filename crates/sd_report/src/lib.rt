//! The report of a run: its statistics as a text table that a person reads, and as comma-separated rows for a spreadsheet; with a
//! task set also the table of its tasks, and the histogram of each; and the table of jobs.
//!
//! Names stand in all as they are (`names_need_no_escaping` of `sd_stretches`).
#![tactic(auto)]

mod cells;
mod histograms;
mod job_tables;
mod laws;
mod set_reports;
mod set_responses;
mod set_sheets;
mod set_tables;
mod sheets;
mod tables;
mod words;

pub use job_tables::jobs_report;
pub use laws::reports_are_plain;
pub use set_reports::{set_report, set_sheet};
pub use sheets::sheet;
pub use tables::report;
