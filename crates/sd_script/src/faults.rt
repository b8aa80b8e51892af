//! What can be wrong with a list of operations.

ghost use Rattle.std.specs.Prelude.{◌≡◌};

use thiserror::Error;

/// Why a list of operations is no script. `op` is the number of the operation at fault, from 0.
///
/// Source: this project's own.
#[derive(Clone, Copy, Debug, PartialEq, Eq, Error)]
pub enum ScriptFault {
    /// An `Exit` or a `CvWait` of a lock that is not held.
    #[error("unbalanced")]
    Unbalanced { op: u16 },
    /// An `Enter`, `Read` or `Write` while eight locks are held.
    #[error("too many held")]
    TooManyHeld { op: u16 },
    /// A lock is held after the last operation.
    #[error("held at exit")]
    HeldAtExit,
    /// More than 256 operations, of which the first 256 have no fault.
    #[error("too long")]
    TooLong,
    /// An `Enter`, `Read` or `Write` of a lock that is held.
    #[error("already held")]
    AlreadyHeld { op: u16 },
    /// A `CvWait` that is not followed by `Enter` of its mutex.
    #[error("unpaired")]
    Unpaired { op: u16 },
}

impl ScriptFault {
    ghost use Rattle.sd_script.specs.Faults.{number_of};

    /// The number of the kind of fault, 1 to 7; 2 is not used.
    pub fn number(&self) -> u8
        ensures { result ≡ number_of self.now }
    {
        match self {
            ScriptFault::Unbalanced { .. } => 1,
            ScriptFault::TooManyHeld { .. } => 3,
            ScriptFault::HeldAtExit => 4,
            ScriptFault::TooLong => 5,
            ScriptFault::AlreadyHeld { .. } => 6,
            ScriptFault::Unpaired { .. } => 7,
        }
    }
}
