//! The audit of a journal: whether a text is the journal of a complete run of a workload, and if not, what is first at
//! fault. It steps one state and keeps no list of entries.
#![tactic(auto)]

mod audits;
mod collecting;
mod complete;
mod differences;
mod entries;
mod laws;
mod lines;
mod ranges;

pub use audits::{AuditFault, Judged, audit, audit_collecting};
pub use collecting::Collector;
pub use laws::{journals_have_no_fault, texts_have_one_fault};
pub use ranges::in_range;
