//! The forms of the lines that a task set has beside those of a workload.

ghost use Rattle.std.specs.Prelude.{◌≡◌, ◌∷◌, IfSome, IfNone, IfOk, OnOk, ◌++◌, None, Some, codes, option_map};
ghost use Rattle.sd_types.specs.Works.{same_bytes};
ghost use Rattle.sd_text.specs.Words.{words_of};
ghost use Rattle.sd_text.specs.Numbers.{number_of};
ghost use Rattle.sd_lines.specs.Words.{is_done};
ghost use Rattle.sd_tasks.specs.Written.{spaced};
ghost use Rattle.sd_tasks.specs.Forms.{is_option, is_number_first, begins_options, head_of, options_of, number_option, task_options, thread_options, timed_options, timed_line, declared_thread, script_name, has_options, job_name, repeat_rounds, run_ticks};
ghost use Rattle.sd_tasks.specs.FormsKept.{timed_said};
ghost use Rattle.sd_lines.specs.Statements.{statement_of};
ghost use Rattle.sd_lines.specs.Said.{operation_said, statement_said, thread_said, word_of};

use sd_lines::{Operation, Statement, ThreadLine, first_word, is_word, operation_of, statement_of};
use sd_text::number;
use sd_types::Name;
use std::alloc::{AllocError, Global};

/// The numbers of a timed line's options, whose ranges are not looked at.
#[derive(Clone, Copy)]
pub struct TimedOptions {
    pub period: Option<u64>,
    pub offset: Option<u64>,
    pub deadline: Option<u64>,
    pub jobs: Option<u64>,
    pub start: Option<u64>,
    pub cpu: Option<u64>,
}

/// A line `task` or `thread`: the thread that it declares, the text of the words that say so, with a blank before each, and
/// the options.
#[derive(Drop)]
pub struct TimedLine {
    pub thread: ThreadLine,
    pub head: Vec<u8>,
    pub options: TimedOptions,
}

// ---- words

fn is_done(rest: &[u8]) -> bool
    ensures { result ≡ is_done (words_of rest.now) }
{
    first_word(rest).is_none()
}

fn is_option(word: &[u8]) -> bool
    ensures { result ≡ is_option word.now }
{
    is_word(word, b"period") || is_word(word, b"start") || is_word(word, b"on")
}

fn is_number_first(rest: &[u8]) -> bool
    ensures { result ≡ is_number_first (words_of rest.now) }
{
    match first_word(rest) {
        Some((word, _)) => number(word).is_some(),
        None => false,
    }
}

fn begins_options(word: &[u8], rest: &[u8]) -> bool
    ensures { result ≡ begins_options (word.now ∷ words_of rest.now) }
{
    is_option(word) && is_number_first(rest)
}

// ---- where the options begin

/// Appends the words before the options, with a blank before each, and gives what is left: the options.
#[tactic(auto, unfolding(crate::specs::Forms::head_of, crate::specs::Forms::options_of))]
fn take_head<'a>(head: &mut Vec<u8>, line: &'a [u8]) -> Result<&'a [u8], AllocError>
    ensures head { OnOk result (head.new.items ≡ head.old.items ++ spaced (head_of (words_of line.now))) }
    ensures options { IfOk result (λ rest. words_of rest.now ≡ options_of (words_of line.now)) }
{
    let mut rest = line;
    while let Some((word, left)) = first_word(rest) {
        if begins_options(word, left) {
            return Ok(rest);
        }
        head.push(b' ')?;
        head.extend_from_slice(word)?;
        rest = left;
    }
    Ok(rest)
}

/// Whether the line has options.
#[tactic(auto, unfolding(crate::specs::Forms::options_of))]
pub(crate) fn has_options(line: &[u8]) -> bool
    ensures { result ≡ has_options (words_of line.now) }
{
    let mut rest = line;
    while let Some((word, left)) = first_word(rest) {
        if begins_options(word, left) {
            return true;
        }
        rest = left;
    }
    false
}

// ---- options

/// The number behind this word, where the line begins with the word, and what is left.
#[tactic(auto, unfolding(crate::specs::Forms::number_option, sd_lines::specs::Words::first))]
fn number_option<'a>(keyword: &[u8], rest: &'a [u8]) -> Option<(Option<u64>, &'a [u8])>
    ensures none { IfNone result (number_option keyword.now (words_of rest.now) ≡ None) }
    ensures some { IfSome result (λ p. number_option keyword.now (words_of rest.now) ≡ Some (p.0, words_of p.1.now)) }
{
    let Some((word, left)) = first_word(rest) else {
        return Some((None, rest));
    };
    if !is_word(word, keyword) {
        return Some((None, rest));
    }
    let (digits, left) = first_word(left)?;
    let n = number(digits)?;
    Some((Some(n), left))
}

/// `period P`, and then `offset O`, `deadline D`, `jobs N` and `on CPU`, each at most once.
#[tactic(auto, unfolding(crate::specs::Forms::task_options))]
fn task_options(rest: &[u8]) -> Option<TimedOptions>
    ensures { result ≡ task_options (words_of rest.now) }
{
    let (period, left) = number_option(b"period", rest)?;
    let (offset, left) = number_option(b"offset", left)?;
    let (deadline, left) = number_option(b"deadline", left)?;
    let (jobs, left) = number_option(b"jobs", left)?;
    let (cpu, left) = number_option(b"on", left)?;
    if period.is_none() || !is_done(left) {
        return None;
    }
    Some(TimedOptions {
        period,
        offset,
        deadline,
        jobs,
        start: None,
        cpu,
    })
}

/// `start T` and `on CPU`, each at most once.
#[tactic(auto, unfolding(crate::specs::Forms::thread_options))]
fn thread_options(rest: &[u8]) -> Option<TimedOptions>
    ensures { result ≡ thread_options (words_of rest.now) }
{
    let (start, left) = number_option(b"start", rest)?;
    let (cpu, left) = number_option(b"on", left)?;
    if !is_done(left) {
        return None;
    }
    Some(TimedOptions {
        period: None,
        offset: None,
        deadline: None,
        jobs: None,
        start,
        cpu,
    })
}

fn timed_options(is_task: bool, rest: &[u8]) -> Option<TimedOptions>
    ensures { result ≡ timed_options is_task (words_of rest.now) }
{
    if is_task {
        task_options(rest)
    } else {
        thread_options(rest)
    }
}

// ---- lines

/// The thread that a statement declares.
fn declared_thread(statement: Option<Statement>) -> Option<ThreadLine>
    ensures { option_map thread_said result ≡ declared_thread (option_map statement_said statement) }
{
    match statement {
        Some(Statement::Declare(thread)) => Some(thread),
        Some(_other) => None,
        None => None,
    }
}

/// The thread that these words declare, which have a blank before each.
fn head_thread(alloc: Global, head: &[u8]) -> Result<Option<ThreadLine>, AllocError>
    ensures { IfOk result (λ t. option_map thread_said t ≡ declared_thread (statement_of (codes "thread" ∷ words_of head.now))) }
{
    let statement = statement_of(alloc, b"thread", head)?;
    Ok(declared_thread(statement))
}

/// What a line `task` or `thread` says, behind its first word.
#[tactic(auto, unfolding(crate::specs::Forms::timed_line))]
pub(crate) fn timed_line(
    alloc: Global,
    is_task: bool,
    rest: &[u8],
) -> Result<Option<TimedLine>, AllocError>
    ensures { IfOk result (λ t. option_map timed_said t ≡ timed_line is_task (words_of rest.now)) }
{
    let mut head = Vec::new(alloc);
    let left = take_head(&mut head, rest)?;
    let Some(thread) = head_thread(alloc, &head)? else {
        return Ok(None);
    };
    let Some(options) = timed_options(is_task, left) else {
        return Ok(None);
    };
    Ok(Some(TimedLine {
        thread,
        head,
        options,
    }))
}

/// The name that a statement gives a script.
fn script_name(statement: Option<Statement>) -> Option<Name>
    ensures { option_map word_of result ≡ script_name (option_map statement_said statement) }
{
    match statement {
        Some(Statement::Script(name)) => Some(name),
        Some(_other) => None,
        None => None,
    }
}

/// The name behind `job`, as behind `script`.
pub(crate) fn job_name(alloc: Global, rest: &[u8]) -> Result<Option<Name>, AllocError>
    ensures { IfOk result (λ name. option_map word_of name ≡ job_name (words_of rest.now)) }
{
    let statement = statement_of(alloc, b"script", rest)?;
    Ok(script_name(statement))
}

fn run_ticks(operation: Option<Operation>) -> Option<u64>
    ensures { result ≡ run_ticks (option_map operation_said operation) }
{
    match operation {
        Some(Operation::Run(n)) => Some(n),
        Some(_other) => None,
        None => None,
    }
}

/// The number behind `repeat`, as behind `run`.
pub(crate) fn repeat_rounds(rest: &[u8]) -> Option<u64>
    ensures { result ≡ repeat_rounds (words_of rest.now) }
{
    run_ticks(operation_of(b"run", rest))
}
