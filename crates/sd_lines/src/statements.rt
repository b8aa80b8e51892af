//! Lines outside blocks.

ghost use Rattle.std.specs.Prelude.{◌≡◌, ◌∷◌, IfOk, option_map};
ghost use Rattle.sd_types.specs.Works.{same_bytes};
ghost use Rattle.sd_text.specs.Words.{words_of};
ghost use Rattle.sd_lines.specs.Words.{name_of, only};
ghost use Rattle.sd_lines.specs.Threads.{thread_line};
ghost use Rattle.sd_lines.specs.Statements.{Declare, Script, table_class, set_line, sema_line, thread_statement, object_statement, setting_statement, statement_of};
ghost use Rattle.sd_lines.specs.Said.{statement_said};

use crate::names::is_word;
use crate::threads::{ThreadLine, thread_line};
use crate::words::{all_numbers, first_name, only_name, only_number, only_word};
use sd_types::{LockKind, Name};
use std::alloc::{AllocError, Global};

/// A class that has a dispatch table.
#[derive(Clone, Copy)]
pub enum TableClass {
    Ts,
    Fx,
    Rt,
}

/// What a line outside blocks says. The ranges of numbers are not looked at.
#[derive(Drop)]
pub enum Statement {
    /// The number of processors.
    Cpus(u64),
    /// The ticks of a second.
    Hz(u64),
    /// The ticks of each processor.
    Limit(u64),
    /// A processor set and its processors. That there is one is not looked at.
    Set(Name, Vec<u64>),
    /// The table of a class begins.
    Table(TableClass),
    Lock(LockKind, Name),
    Chan(Name),
    /// A semaphore and its first count.
    Sema(Name, u64),
    Declare(ThreadLine),
    /// The script of this thread begins.
    Script(Name),
}

#[tactic(auto, unfolding(crate::specs::Statements::table_class))]
fn table_class(word: &[u8]) -> Option<TableClass>
    ensures { result ≡ table_class word.now }
{
    if is_word(word, b"ts") {
        Some(TableClass::Ts)
    } else if is_word(word, b"fx") {
        Some(TableClass::Fx)
    } else if is_word(word, b"rt") {
        Some(TableClass::Rt)
    } else {
        None
    }
}

fn only_table_class(rest: &[u8]) -> Option<TableClass>
    ensures { result ≡ only table_class (words_of rest.now) }
{
    let word = only_word(rest)?;
    table_class(word)
}

// `set NAME C C ..`, behind `set`.
#[tactic(auto, unfolding(crate::specs::Statements::set_line))]
fn set_line(alloc: Global, rest: &[u8]) -> Result<Option<Statement>, AllocError>
    ensures { IfOk result (λ s. option_map statement_said s ≡ set_line (words_of rest.now)) }
{
    let Some((name, left)) = first_name(rest) else {
        return Ok(None);
    };
    let Some(cpus) = all_numbers(alloc, left)? else {
        return Ok(None);
    };
    Ok(Some(Statement::Set(name, cpus)))
}

// `sema NAME N`, behind `sema`.
#[tactic(auto, unfolding(crate::specs::Statements::sema_line))]
fn sema_line(rest: &[u8]) -> Option<Statement>
    ensures { option_map statement_said result ≡ sema_line (words_of rest.now) }
{
    let (name, left) = first_name(rest)?;
    let count = only_number(left)?;
    Some(Statement::Sema(name, count))
}

// `thread NAME ..`, behind `thread`.
fn declare_line(rest: &[u8]) -> Option<Statement>
    ensures { option_map statement_said result ≡ option_map Declare (thread_line (words_of rest.now)) }
{
    let thread = thread_line(rest)?;
    Some(Statement::Declare(thread))
}

// `script NAME`, behind `script`.
fn script_line(rest: &[u8]) -> Option<Statement>
    ensures { option_map statement_said result ≡ option_map Script (only name_of (words_of rest.now)) }
{
    let name = only_name(rest)?;
    Some(Statement::Script(name))
}

// `thread NAME ..` and `script NAME`.
#[tactic(auto, unfolding(crate::specs::Statements::thread_statement))]
fn thread_statement(word: &[u8], rest: &[u8]) -> Option<Statement>
    ensures { option_map statement_said result ≡ thread_statement word.now (words_of rest.now) }
{
    if is_word(word, b"thread") {
        declare_line(rest)
    } else if is_word(word, b"script") {
        script_line(rest)
    } else {
        None
    }
}

// `mutex NAME`, `rwlock NAME`, `chan NAME` and `sema NAME N`, and what is none of these.
#[tactic(auto, unfolding(crate::specs::Statements::object_statement))]
fn object_statement(word: &[u8], rest: &[u8]) -> Option<Statement>
    ensures { option_map statement_said result ≡ object_statement word.now (words_of rest.now) }
{
    if is_word(word, b"mutex") {
        let name = only_name(rest)?;
        Some(Statement::Lock(LockKind::Mutex, name))
    } else if is_word(word, b"rwlock") {
        let name = only_name(rest)?;
        Some(Statement::Lock(LockKind::Rwlock, name))
    } else if is_word(word, b"chan") {
        let name = only_name(rest)?;
        Some(Statement::Chan(name))
    } else if is_word(word, b"sema") {
        sema_line(rest)
    } else {
        thread_statement(word, rest)
    }
}

// `cpus N`, `hz N`, `limit N` and `table CLASS`, and what is none of these.
#[tactic(auto, unfolding(crate::specs::Statements::setting_statement))]
fn setting_statement(word: &[u8], rest: &[u8]) -> Option<Statement>
    ensures { option_map statement_said result ≡ setting_statement word.now (words_of rest.now) }
{
    if is_word(word, b"cpus") {
        let count = only_number(rest)?;
        Some(Statement::Cpus(count))
    } else if is_word(word, b"hz") {
        let hz = only_number(rest)?;
        Some(Statement::Hz(hz))
    } else if is_word(word, b"limit") {
        let ticks = only_number(rest)?;
        Some(Statement::Limit(ticks))
    } else if is_word(word, b"table") {
        let class = only_table_class(rest)?;
        Some(Statement::Table(class))
    } else {
        object_statement(word, rest)
    }
}

/// What a line outside blocks says with this first word, behind which this is left, if it has a form.
#[tactic(auto, unfolding(crate::specs::Statements::statement_of))]
pub fn statement_of(
    alloc: Global,
    word: &[u8],
    rest: &[u8],
) -> Result<Option<Statement>, AllocError>
    ensures { IfOk result (λ s. option_map statement_said s ≡ statement_of (word.now ∷ words_of rest.now)) }
{
    // the most frequent lines first
    if is_word(word, b"thread") {
        Ok(declare_line(rest))
    } else if is_word(word, b"script") {
        Ok(script_line(rest))
    } else if is_word(word, b"set") {
        set_line(alloc, rest)
    } else {
        Ok(setting_statement(word, rest))
    }
}
