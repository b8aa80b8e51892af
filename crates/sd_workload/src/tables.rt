//! The blocks of dispatch tables.

ghost use Rattle.std.specs.Prelude.{◌≡◌, [], ◌++◌, ◌∷◌, ◌+◌, ◌-◌, ◌<◌, ◌≤◌, ◌^◌, length, OnOk, IfOk, IfErr, IfSome, IfNone, true, false};
ghost use Rattle.sd_dispadmin.specs.TableText.{word_lines, IsTableText, IsTableFault, ts_format, fx_format, rt_format};
ghost use Rattle.sd_declare.specs.Kept.{declarations};
ghost use Rattle.sd_workload.specs.LineStarts.{judged_from, IsFault};
ghost use Rattle.sd_workload.specs.Tables.{IsBlock, IsBelow, line_of};
ghost use Rattle.sd_workload.specs.Texts.{Outside, InTable, format_of, with_table};

use crate::WorkFault;
use crate::line_starts::{LineStart, line_at};
use sd_declare::{Declared, WorkCause};
use sd_dispadmin::{ReadTableFault, TableFault, read_fx, read_rt, read_ts};
use sd_lines::{TableClass, is_end_line};
use std::alloc::{AllocError, Global};

/// A table's block: the text of its lines; the number of the line that closes it, or of the line after the last; and
/// the place below, where it is closed.
#[derive(Drop)]
pub struct TableBlock {
    pub text: Vec<u8>,
    pub end: u32,
    pub below: Option<LineStart>,
}

// Appends a line with its newline.
fn put_line(text: &mut Vec<u8>, line: &[u8]) -> Result<(), AllocError>
    ensures { OnOk result (text.new.items ≡ text.old.items ++ (line.now ++ 10 ∷ [])) }
{
    text.extend_from_slice(line)?;
    text.push(b'\n')?;
    Ok(())
}

// The block whose lines begin at a place.
fn block_at(alloc: Global, bytes: &[u8], at: LineStart) -> Result<TableBlock, AllocError>
    requires text { length bytes.now < 2 ^ 31 }
    requires number { at.number ≤ at.from + 1 }
    requires inside { 1 ≤ at.from }
    requires within { at.from ≤ length bytes.now + 1 }
    ensures block { IfOk result (IsBlock bytes.now at) }
    ensures short { IfOk result (λ block. length block.text.items < 2 ^ 31) }
{
    let mut text = Vec::new(alloc);
    let mut here = at;
    'lines: while let Some((line, below)) = line_at(bytes, here) {
        if is_end_line(line) {
            return Ok(TableBlock {
                text,
                end: here.number,
                below: Some(below),
            });
        }
        put_line(&mut text, line)?;
        here = below;
    }
    Ok(TableBlock {
        text,
        end: here.number,
        below: None,
    })
}

// The same, where there is memory to keep its lines. No line above the block is at fault.
fn kept_block(alloc: Global, bytes: &[u8], at: LineStart) -> Result<TableBlock, WorkFault>
    requires text { length bytes.now < 2 ^ 31 }
    requires number { at.number ≤ at.from + 1 }
    requires inside { 1 ≤ at.from }
    requires within { at.from ≤ length bytes.now + 1 }
    ensures block { IfOk result (IsBlock bytes.now at) }
    ensures short { IfOk result (λ block. length block.text.items < 2 ^ 31) }
    ensures err { IfErr result (λ fault. fault ≡ WorkFault.Memory at.number) }
{
    match block_at(alloc, bytes, at) {
        Ok(block) => Ok(block),
        Err(AllocError) => Err(WorkFault::Memory { line: at.number }),
    }
}

// The fault of the text of a time-sharing table.
fn ts_fault(alloc: Global, text: &[u8]) -> Option<TableFault>
    requires { length text.now < 2 ^ 31 }
    ensures none { IfNone result (IsTableText ts_format text.now) }
    ensures some { IfSome result (IsTableFault ts_format text.now) }
{
    match read_ts(alloc, text, 1) {
        Ok(_) => None,
        Err(ReadTableFault::Table(fault)) => Some(fault),
        // only a text without a fault finds no memory
        Err(ReadTableFault::Memory) => None,
    }
}

// The fault of the text of a fixed-priority table.
fn fx_fault(alloc: Global, text: &[u8]) -> Option<TableFault>
    requires { length text.now < 2 ^ 31 }
    ensures none { IfNone result (IsTableText fx_format text.now) }
    ensures some { IfSome result (IsTableFault fx_format text.now) }
{
    match read_fx(alloc, text, 1) {
        Ok(_) => None,
        Err(ReadTableFault::Table(fault)) => Some(fault),
        // only a text without a fault finds no memory
        Err(ReadTableFault::Memory) => None,
    }
}

// The fault of the text of a real-time table.
fn rt_fault(alloc: Global, text: &[u8]) -> Option<TableFault>
    requires { length text.now < 2 ^ 31 }
    ensures none { IfNone result (IsTableText rt_format text.now) }
    ensures some { IfSome result (IsTableFault rt_format text.now) }
{
    match read_rt(alloc, text, 1) {
        Ok(_) => None,
        Err(ReadTableFault::Table(fault)) => Some(fault),
        // only a text without a fault finds no memory
        Err(ReadTableFault::Memory) => None,
    }
}

// The fault of a table's text. It does not depend on the ticks of a second.
fn table_fault(alloc: Global, class: TableClass, text: &[u8]) -> Option<TableFault>
    requires { length text.now < 2 ^ 31 }
    ensures none { IfNone result (IsTableText (format_of class) text.now) }
    ensures some { IfSome result (IsTableFault (format_of class) text.now) }
{
    match class {
        TableClass::Ts => ts_fault(alloc, text),
        TableClass::Fx => fx_fault(alloc, text),
        TableClass::Rt => rt_fault(alloc, text),
    }
}

// The line of a table's fault, from 1, where it is the fault of a line.
fn line_of(fault: TableFault) -> Option<u32>
    ensures { result ≡ line_of fault }
{
    match fault {
        TableFault::NotANumber { line }
        | TableFault::Range { line, .. }
        | TableFault::Resolution { line } => Some(line),
        TableFault::Rows { .. } => None,
    }
}

// Declares a table by its text.
fn set_table(d: &mut Declared, class: TableClass, text: Vec<u8>)
    requires { length text.items < 2 ^ 31 }
    ensures { declarations d.new ≡ with_table (declarations d.old) class (word_lines text.items) }
{
    match class {
        TableClass::Ts => d.ts = Some(text),
        TableClass::Fx => d.fx = Some(text),
        TableClass::Rt => d.rt = Some(text),
    }
}

// The fault of a text where a table's block has this fault, from its first line `number` to the line `end`.
fn block_fault(number: u32, end: u32, is_closed: bool, fault: TableFault) -> WorkFault
    requires { IfSome (line_of fault) (λ line. (1 ≤ line) × (number + line ≤ end + 1)) }
    ensures line { IfSome (line_of fault) (λ line. result ≡ WorkFault.At (number + line - 1) (WorkCause.Table fault)) }
    ensures rows { IfNone (line_of fault) (is_closed ≡ true → result ≡ WorkFault.At end (WorkCause.Table fault)) }
    ensures unclosed { IfNone (line_of fault) (is_closed ≡ false → result ≡ WorkFault.At end WorkCause.Syntax) }
{
    if let Some(line) = line_of(fault) {
        return WorkFault::At {
            line: number + (line - 1),
            cause: WorkCause::Table(fault),
        };
    }
    if is_closed {
        WorkFault::At {
            line: end,
            cause: WorkCause::Table(fault),
        }
    } else {
        WorkFault::At {
            line: end,
            cause: WorkCause::Syntax,
        }
    }
}

/// Takes the table whose lines begin at a place, and gives the place below its end.
pub fn take_table(
    alloc: Global,
    d: &mut Declared,
    class: TableClass,
    bytes: &[u8],
    at: LineStart,
) -> Result<LineStart, WorkFault>
    requires text { length bytes.now < 2 ^ 31 }
    requires number { at.number ≤ at.from + 1 }
    requires inside { 1 ≤ at.from }
    requires within { at.from ≤ length bytes.now + 1 }
    ensures ok { IfOk result (λ to. judged_from bytes.now at (declarations d.old) (InTable class [])
        ≡ judged_from bytes.now to (declarations d.new) Outside) }
    ensures err { IfErr result (IsFault (judged_from bytes.now at (declarations d.old) (InTable class []))) }
    ensures below { IfOk result (IsBelow bytes.now at) }
{
    let block = kept_block(alloc, bytes, at)?;
    if let Some(fault) = table_fault(alloc, class, &block.text) {
        let is_closed = block.below.is_some();
        return Err(block_fault(at.number, block.end, is_closed, fault));
    }
    let Some(below) = block.below else {
        return Err(WorkFault::At {
            line: block.end,
            cause: WorkCause::Syntax,
        });
    };
    set_table(d, class, block.text);
    Ok(below)
}
