//! The lines outside blocks: judged, and taken.

ghost use Rattle.std.specs.Prelude.{◌≡◌, ◌<◌, length, None, Some, OnErr, OnOk, IfOk, IfErr};
ghost use Rattle.sd_lines.specs.Said.{word_of, statement_said};
ghost use Rattle.sd_declare.specs.Causes.{least};
ghost use Rattle.sd_declare.specs.Declarations.{thread_id};
ghost use Rattle.sd_declare.specs.Statements.{is_table_given, table_causes, script_causes, statement_causes, with_statement};
ghost use Rattle.sd_declare.specs.Opened.{opened_by, IsOpenWithin};
ghost use Rattle.sd_declare.specs.Kept.{declarations, IsRefusal};

use crate::lookups::thread_of;
use crate::objects::{take_chan, take_lock, take_sema, take_thread};
use crate::sets::take_set;
use crate::settings::{take_cpus, take_hz, take_limit};
use crate::{Declared, Refusal, WorkCause};
use sd_lines::{Statement, TableClass};
use sd_types::{Name, ThreadId};
use std::alloc::Global;

/// The block that a line opens.
#[derive(Clone, Copy)]
pub enum Opened {
    Nothing,
    Table(TableClass),
    /// The script of this thread.
    Script(ThreadId),
}

fn is_table_given(d: &Declared, class: TableClass) -> bool
    ensures { result ≡ is_table_given (declarations d.now) class }
{
    match class {
        TableClass::Ts => d.ts.is_some(),
        TableClass::Fx => d.fx.is_some(),
        TableClass::Rt => d.rt.is_some(),
    }
}

// `table CLASS`.
fn judge_table(d: &Declared, class: TableClass) -> Result<(), WorkCause>
    ensures ok { OnOk result (least (table_causes (declarations d.now) class) ≡ None) }
    ensures err { IfErr result (λ cause. least (table_causes (declarations d.now) class) ≡ Some cause) }
{
    if is_table_given(d, class) {
        return Err(WorkCause::Twice);
    }
    Ok(())
}

// `script NAME`: the thread whose script begins.
fn judge_script(d: &Declared, name: &Name) -> Result<ThreadId, WorkCause>
    ensures ok { OnOk result (least (script_causes (declarations d.now) (word_of name.now)) ≡ None) }
    ensures err { IfErr result (λ cause. least (script_causes (declarations d.now) (word_of name.now)) ≡ Some cause) }
    ensures thread { IfOk result (λ thread. thread ≡ thread_id (declarations d.now) (word_of name.now)) }
    ensures within { IfOk result (λ thread. thread.0 < length d.now.threads.items) }
{
    let thread = thread_of(d, name)?;
    if d.scripted.contains(thread) {
        return Err(WorkCause::Twice);
    }
    Ok(thread)
}

/// Takes a line outside blocks, and gives the block that it opens. Of a table or a script it takes nothing yet.
pub fn take_statement(alloc: Global, d: &mut Declared, s: Statement) -> Result<Opened, Refusal>
    ensures ok { OnOk result (least (statement_causes (declarations d.old) (statement_said s)) ≡ None) }
    ensures err { IfErr result (IsRefusal (least (statement_causes (declarations d.old) (statement_said s)))) }
    ensures new { OnOk result (declarations d.new ≡ with_statement (declarations d.old) (statement_said s)) }
    ensures kept { OnErr result (declarations d.new ≡ declarations d.old) }
    ensures opened { IfOk result (λ o. o ≡ opened_by (declarations d.old) (statement_said s)) }
    ensures within { IfOk result (IsOpenWithin (length d.new.threads.items)) }
{
    match s {
        Statement::Cpus(n) => {
            take_cpus(d, n)?;
            Ok(Opened::Nothing)
        }
        Statement::Hz(n) => {
            take_hz(d, n)?;
            Ok(Opened::Nothing)
        }
        Statement::Limit(n) => {
            take_limit(d, n)?;
            Ok(Opened::Nothing)
        }
        Statement::Set(name, cpus) => {
            take_set(alloc, d, name, &cpus)?;
            Ok(Opened::Nothing)
        }
        Statement::Lock(kind, name) => {
            take_lock(d, kind, name)?;
            Ok(Opened::Nothing)
        }
        Statement::Chan(name) => {
            take_chan(d, name)?;
            Ok(Opened::Nothing)
        }
        Statement::Sema(name, count) => {
            take_sema(d, name, count)?;
            Ok(Opened::Nothing)
        }
        Statement::Declare(thread) => {
            take_thread(alloc, d, thread)?;
            Ok(Opened::Nothing)
        }
        Statement::Table(class) => {
            judge_table(d, class)?;
            Ok(Opened::Table(class))
        }
        Statement::Script(name) => {
            let thread = judge_script(d, &name)?;
            Ok(Opened::Script(thread))
        }
    }
}
