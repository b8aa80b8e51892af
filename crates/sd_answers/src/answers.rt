//! The answers of a call of the program: their exit statuses, their lines on the error output, and the answer to each
//! refusal of a part.

ghost use Rattle.std.specs.Prelude.{◌≡◌, ℕ, IsErrOf};
ghost use Rattle.sd_declare.specs.declared.causes.WorkCause.{WorkCause as Cause};
ghost use Rattle.sd_answers.specs.declared.answers.JournalFault.{JournalFault as Fault};
ghost use Rattle.sd_answers.specs.StreamChanges.{Puts};
ghost use Rattle.sd_text.specs.Lines.{EndsLine, IsOneLine};
ghost use Rattle.sd_answers.specs.declared.writing.Unwritten.TheVariants.{Memory};
ghost use Rattle.std.specs.IoError.{error_kind};
ghost use Rattle.sd_answers.specs.declared.answers.Answer.TheVariants.{OutOfMemory, Refused, NotAJournal};
ghost use Rattle.sd_answers.specs.Answers.{status_of, line_of, line_with, answer_of, arguments_answer, audit_answer, certificate_answer, read_answer, work_answer, stop_answer, unwritten_answer};

use crate::refusals::{put_journal_fault, put_refusal};
use crate::writing::{Unwritten, put_line, put_text};
use sd_audit::AuditFault;
use sd_declare::WorkCause;
use sd_text::{ReadAllFault, Sink};
use sd_types::{CpuId, Stop};
use sd_workload::WorkFault;
use std::alloc::AllocError;
use std::io;
use std::io::ErrorKind;

/// What is first at fault in a text that is not the journal of a complete run of its workload. Lines are counted from 1,
/// entries from 0.
#[derive(Clone, Copy, PartialEq, Eq)]
pub enum JournalFault {
    /// A line that is no entry's.
    NotAnEntry { line: u32 },
    /// An entry that is no step there, or whose number is not its place.
    Illegal { number: u64 },
    /// The run is not complete: the least processor that has an entry.
    Incomplete { cpu: CpuId },
    /// A line from `accounts` on that is not the journal's.
    Tail { line: u32 },
}

/// How a call of the program ended.
#[derive(Clone, Copy, PartialEq, Eq)]
pub enum Answer {
    /// The text was written whole.
    Done,
    /// The arguments are none that the program knows.
    Usage,
    /// The input, or its part before the journal, has more than 1,048,576 bytes.
    TooLarge,
    /// The input of an audit has more than 134,217,728 bytes.
    TooLargeToAudit,
    /// The input of an audit has no line `journal`.
    NoJournal,
    /// The input is no accepted workload: the first line at fault, from 1, and the least of its causes.
    Refused { line: u32, cause: WorkCause },
    /// A read failed.
    ReadFault,
    /// A write failed.
    WriteFault,
    /// Memory ran out.
    OutOfMemory,
    /// The text was written whole, and threads block each other in the final state of the run.
    Blocked,
    /// The text is not the journal of a complete run of the workload.
    NotAJournal(JournalFault),
    /// The run has 2^40 entries or more.
    TooLong,
}

impl Answer {
    /// The answer of a call that was done, or of one that was refused.
    pub fn of(called: Result<(), Answer>) -> Answer
        ensures { result ≡ answer_of called }
    {
        match called {
            Ok(()) => Answer::Done,
            Err(answer) => answer,
        }
    }

    /// The answer where the arguments were not read: one that is no text is none that the program knows.
    pub fn of_unread_arguments(error: &io::Error) -> Answer
        ensures { result ≡ arguments_answer (error_kind error.now) }
    {
        match error.kind() {
            ErrorKind::OutOfMemory => Answer::OutOfMemory,
            _ => Answer::Usage,
        }
    }

    /// The answer where the input of an audit was not read.
    pub fn of_unread_certificate(fault: ReadAllFault) -> Answer
        ensures { result ≡ certificate_answer fault }
    {
        match fault {
            ReadAllFault::ReadFault => Answer::ReadFault,
            ReadAllFault::TooLarge => Answer::TooLargeToAudit,
            ReadAllFault::Memory => Answer::OutOfMemory,
        }
    }

    /// The exit status.
    pub fn status(self) -> u8
        ensures { result ≡ status_of self }
    {
        match self {
            Answer::Done => 0,
            Answer::Usage => 1,
            Answer::TooLarge => 2,
            Answer::TooLargeToAudit => 2,
            Answer::NoJournal => 2,
            Answer::Refused { .. } => 2,
            Answer::ReadFault => 3,
            Answer::WriteFault => 4,
            Answer::OutOfMemory => 5,
            Answer::Blocked => 6,
            Answer::NotAJournal(_) => 7,
            Answer::TooLong => 8,
        }
    }

    /// The line on the error output, with its newline, of an answer that refuses no line of a workload and no journal; none
    /// where all is done.
    fn constant_line(self) -> &'static [u8]
        requires no_line { (line : ℕ) (cause : Cause) → self ≡ Refused line cause → ⊥ }
        requires no_fault { (fault : Fault) → self ≡ NotAJournal fault → ⊥ }
        ensures line { result.now ≡ line_of self }
        ensures whole { EndsLine result.now }
    {
        match self {
            Answer::Done => b"",
            Answer::Usage =>
                b"usage: dispsim run | run --seed N | run --threads | sum | gen N | tables | audit\n",
            Answer::TooLarge => b"refused: input larger than 1048576 bytes\n",
            Answer::TooLargeToAudit => b"refused: input larger than 134217728 bytes\n",
            Answer::NoJournal => b"refused: no journal\n",
            Answer::Refused { .. } => unreachable!(),
            Answer::ReadFault => b"read fault\n",
            Answer::WriteFault => b"write fault\n",
            Answer::OutOfMemory => b"out of memory\n",
            Answer::Blocked => b"blocking cycle\n",
            Answer::NotAJournal(_) => unreachable!(),
            Answer::TooLong => b"run too long\n",
        }
    }

    /// Writes the line of the answer on the error output.
    pub fn put_line<E: Sink>(self, err: &mut E) -> Result<(), Unwritten>
        ensures puts { Puts (E.contents err.old) (E.contents err.new) (E.fault_count err.old) (E.fault_count err.new) (line_of self) result }
        ensures no_memory { IsErrOf result Memory → ⊥ }
    {
        match self {
            Answer::Refused { line, cause } => put_refusal(err, line, cause),
            Answer::NotAJournal(fault) => put_journal_fault(err, fault),
            other => put_text(err, other.constant_line()),
        }
    }

    /// Writes the line of the answer of a program with other forms of arguments, whose usage is this line.
    pub fn put_line_with<E: Sink>(self, usage: &[u8], err: &mut E) -> Result<(), Unwritten>
        requires { IsOneLine usage.now }
        ensures puts { Puts (E.contents err.old) (E.contents err.new) (E.fault_count err.old) (E.fault_count err.new) (line_with usage.now self) result }
        ensures no_memory { IsErrOf result Memory → ⊥ }
    {
        match self {
            Answer::Usage => put_line(err, usage),
            other => other.put_line(err),
        }
    }
}

impl From<ReadAllFault> for Answer {
    ghost from_gives = { λ fault answer. answer ≡ read_answer fault };

    fn from(fault: ReadAllFault) -> Answer {
        match fault {
            ReadAllFault::ReadFault => Answer::ReadFault,
            ReadAllFault::TooLarge => Answer::TooLarge,
            ReadAllFault::Memory => Answer::OutOfMemory,
        }
    }
}

impl From<WorkFault> for Answer {
    ghost from_gives = { λ fault answer. answer ≡ work_answer fault };

    fn from(fault: WorkFault) -> Answer {
        match fault {
            WorkFault::At { line, cause } => Answer::Refused { line, cause },
            WorkFault::Memory { .. } => Answer::OutOfMemory,
        }
    }
}

impl From<AuditFault> for Answer {
    ghost from_gives = { λ fault answer. answer ≡ audit_answer fault };

    fn from(fault: AuditFault) -> Answer {
        match fault {
            AuditFault::NotAnEntry { line } => {
                Answer::NotAJournal(JournalFault::NotAnEntry { line })
            }
            AuditFault::Illegal { number } => Answer::NotAJournal(JournalFault::Illegal { number }),
            AuditFault::Incomplete { cpu } => Answer::NotAJournal(JournalFault::Incomplete { cpu }),
            AuditFault::Tail { line } => Answer::NotAJournal(JournalFault::Tail { line }),
            AuditFault::Memory { .. } => Answer::OutOfMemory,
        }
    }
}

impl From<Stop> for Answer {
    ghost from_gives = { λ refusal answer. answer ≡ stop_answer refusal };

    fn from(refusal: Stop) -> Answer {
        match refusal {
            Stop::Full => Answer::TooLong,
            Stop::Memory => Answer::OutOfMemory,
        }
    }
}

impl From<Unwritten> for Answer {
    ghost from_gives = { λ refusal answer. answer ≡ unwritten_answer refusal };

    fn from(refusal: Unwritten) -> Answer {
        match refusal {
            Unwritten::Fault => Answer::WriteFault,
            Unwritten::Memory => Answer::OutOfMemory,
        }
    }
}

impl From<AllocError> for Answer {
    ghost from_gives = { λ error answer. answer ≡ OutOfMemory };

    fn from(_error: AllocError) -> Answer {
        Answer::OutOfMemory
    }
}
