//! Lines outside blocks.

ghost use Rattle.std.specs.Prelude.{◌≡◌, None, length, OnOk, IfOk, IfErr};
ghost use Rattle.sd_text.specs.Words.{words_of};
ghost use Rattle.sd_declare.specs.Kept.{declarations};
ghost use Rattle.sd_declare.specs.Opened.{IsOpenWithin};
ghost use Rattle.sd_workload.specs.LineStarts.{IsFaultAt};
ghost use Rattle.sd_workload.specs.Texts.{Outside, cause_of, declared_after, block_after, block_of};

use crate::WorkFault;
use crate::line_starts::fault_at;
use sd_declare::{Declared, Opened, WorkCause, take_statement};
use sd_lines::{first_word, statement_of};
use std::alloc::Global;

/// Takes a line outside blocks, and gives the block that it opens.
#[tactic(auto, unfolding(crate::specs::Texts::cause_of, crate::specs::Texts::declared_after, crate::specs::Texts::block_after))]
pub fn take_line(
    alloc: Global,
    d: &mut Declared,
    line: &[u8],
    number: u32,
) -> Result<Opened, WorkFault>
    ensures ok { OnOk result (cause_of (declarations d.old) Outside (words_of line.now) ≡ None) }
    ensures err { IfErr result (IsFaultAt number (cause_of (declarations d.old) Outside (words_of line.now))) }
    ensures new { OnOk result (declarations d.new ≡ declared_after (declarations d.old) Outside (words_of line.now)) }
    ensures opened { IfOk result (λ o. block_of o ≡ block_after (declarations d.old) Outside (words_of line.now)) }
    ensures within { IfOk result (IsOpenWithin (length d.new.threads.items)) }
{
    let Some((word, rest)) = first_word(line) else {
        return Ok(Opened::Nothing);
    };
    let Ok(found) = statement_of(alloc, word, rest) else {
        return Err(WorkFault::Memory { line: number });
    };
    let Some(statement) = found else {
        return Err(WorkFault::At {
            line: number,
            cause: WorkCause::Syntax,
        });
    };
    match take_statement(alloc, d, statement) {
        Ok(opened) => Ok(opened),
        Err(refusal) => Err(fault_at(number, refusal)),
    }
}
