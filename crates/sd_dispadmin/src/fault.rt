//! The faults of table files, and why a table is not read.

ghost use Rattle.std.specs.Prelude.{◌≡◌};
ghost use Rattle.sd_dispadmin.specs.declared.fault.ReadTableFault.TheVariants.{Table, Memory};

use std::alloc::AllocError;
use thiserror::Error;

/// Why a text is no table file. Lines and columns are counted from 1.
#[derive(Clone, Copy, Debug, PartialEq, Eq, Error)]
pub enum TableFault {
    /// A row that is not exactly the right number of words, each a number of 1 to 10 digits.
    #[error("not a number")]
    NotANumber { line: u32 },
    /// The first column of a row whose number lies outside its range.
    #[error("range in column {column}")]
    Range { line: u32, column: u8 },
    /// No line is at fault, and the number of rows is wrong.
    #[error("rows: {found}")]
    Rows { found: u32 },
    /// A line whose first word begins with `RES=`, and that is not this word alone with a number from 1 to
    /// 1,000,000,000, or stands below a row or another such line.
    #[error("resolution")]
    Resolution { line: u32 },
}

/// Why a table was not read.
#[derive(Clone, Copy, Debug, PartialEq, Eq, Error)]
pub enum ReadTableFault {
    /// The text is no table file.
    #[error("{0}")]
    Table(TableFault),
    /// The text is a table file, and there was no memory for its table.
    #[error("out of memory")]
    Memory,
}

impl From<TableFault> for ReadTableFault {
    ghost from_gives = { λ fault e. e ≡ Table fault };

    fn from(fault: TableFault) -> ReadTableFault {
        ReadTableFault::Table(fault)
    }
}

impl From<AllocError> for ReadTableFault {
    ghost from_gives = { λ _ e. e ≡ Memory };

    fn from(_error: AllocError) -> ReadTableFault {
        ReadTableFault::Memory
    }
}
