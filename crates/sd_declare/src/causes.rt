//! Why a line of a workload text is refused.

ghost use Rattle.std.specs.Prelude.{◌≡◌};
ghost use Rattle.sd_declare.specs.Causes.{number_of_cause};
ghost use Rattle.sd_declare.specs.declared.causes.Refusal.TheVariants.{Cause, Memory};

use sd_dispadmin::TableFault;
use sd_script::ScriptFault;
use std::alloc::{AllocError, AllocFailed};
use thiserror::Error;

/// Why a line is refused. Of several causes of a line the one with the least number counts.
///
/// Source: this project's own.
#[derive(Clone, Copy, Debug, PartialEq, Eq, Error)]
pub enum WorkCause {
    /// The line has no form. At the end of the input: a block is open, or no line gives the limit.
    #[error("syntax")]
    Syntax,
    /// A name that is not declared above, or names something of another kind.
    #[error("unknown")]
    Unknown,
    /// A name that is declared already, or a setting, a table or a script that is given already.
    #[error("twice")]
    Twice,
    /// A number outside its range.
    #[error("range")]
    Range,
    /// The table of a block is at fault.
    #[error("table: {0}")]
    Table(TableFault),
    /// The script of a block is at fault.
    #[error("script: {0}")]
    Script(ScriptFault),
    /// A processor that is named twice or in another set, or none is left to the default partition.
    #[error("sets")]
    Sets,
    /// One more than the limits allow. At the end of the input: a product or a sum is too great.
    #[error("limits")]
    Limits,
}

impl WorkCause {
    /// The number of the cause, 1 to 8.
    pub fn number(&self) -> u8
        ensures { result ≡ number_of_cause self.now }
    {
        match self {
            WorkCause::Syntax => 1,
            WorkCause::Unknown => 2,
            WorkCause::Twice => 3,
            WorkCause::Range => 4,
            WorkCause::Table(_) => 5,
            WorkCause::Script(_) => 6,
            WorkCause::Sets => 7,
            WorkCause::Limits => 8,
        }
    }
}

/// Why a line is not taken.
#[derive(Clone, Copy, Debug, PartialEq, Eq)]
pub enum Refusal {
    Cause(WorkCause),
    /// Out of memory.
    Memory,
}

impl From<WorkCause> for Refusal {
    ghost from_gives = { λ cause e. e ≡ Cause cause };

    fn from(cause: WorkCause) -> Refusal {
        Refusal::Cause(cause)
    }
}

impl From<AllocError> for Refusal {
    ghost from_gives = { λ _ e. e ≡ Memory };

    fn from(_error: AllocError) -> Refusal {
        Refusal::Memory
    }
}

impl<T: Drop> From<AllocFailed<T>> for Refusal {
    ghost from_gives = { λ _ e. e ≡ Memory };

    fn from(_error: AllocFailed<T>) -> Refusal {
        Refusal::Memory
    }
}
