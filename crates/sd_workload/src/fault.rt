//! Why a text is not read as a workload.

use sd_declare::WorkCause;
use thiserror::Error;

/// Why a text is not read as a workload.
#[derive(Clone, Copy, Debug, PartialEq, Eq, Error)]
pub enum WorkFault {
    /// The first line at fault, from 1, and the least of its causes.
    #[error("line {line}: {cause}")]
    At { line: u32, cause: WorkCause },
    /// Out of memory at this line: no line above it is at fault. What stands from it on was not judged, but for the end of
    /// a text that is accepted.
    #[error("out of memory")]
    Memory { line: u32 },
}
