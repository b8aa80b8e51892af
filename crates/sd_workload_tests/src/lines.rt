//! What no clause says: that the definitions take and refuse the lines that they should, and that reading succeeds
//! where memory is left. The lines were judged by hand.

use crate::judging::{is_so, judge};
use sd_lines::{
    NameIndex, Statement, ThreadClass, ThreadLine, first_word, is_word, operation_of, statement_of,
};
use std::alloc::{AllocError, Global};

// Each form, blanks around and between words, comments, names that are keywords, ten digits.
const STATEMENTS: [&[u8]; 25] = [
    b"cpus 64",
    b"hz 1000",
    b"limit 5#x",
    b"\tlimit\r 99 ",
    b"limit 0000000009",
    b"set s 0 1",
    b"set end 0",
    b"table ts",
    b"table fx # rows",
    b"table rt",
    b"mutex m",
    b"rwlock abcdefghij_lmn-6",
    b"chan end",
    b"sema s 65535",
    b"thread a ts 59 -60 60",
    b"thread a fx 60 10 inf",
    b"thread a fx 60 10 def",
    b"thread a fx 60 10 7",
    b"thread a sys 60",
    b"thread a rt 5 inf",
    b"thread a sys 60 uid 7",
    b"thread a sys 60 priv",
    b"thread a sys 60 in s",
    b"thread a ts 1 -0 -0 uid 0 priv in in",
    b"script a",
];

// Lines that have no form: wrong numbers of words, signs and digits, wrong names, options out of order or twice, bytes
// that may not stand.
const NO_STATEMENTS: [&[u8]; 46] = [
    b"",
    b"limit",
    b"limit -5",
    b"limit +5",
    b"limit 0x5",
    b"limit 00000000005",
    b"limit 1 1",
    b"cpus x",
    b"hz -1",
    b"set",
    b"set s x",
    b"set 0 s",
    b"set s -1",
    b"table",
    b"table sys",
    b"table ts fx",
    b"mutex",
    b"mutex mmmmmmmmmmmmmmmmm",
    b"mutex mA",
    b"mutex a.b",
    b"mutex 1a",
    b"chan k 1",
    b"sema s",
    b"sema s -1",
    b"sema s 1 1",
    b"thread a",
    b"thread a ts 1 0",
    b"thread a ts -1 0 0",
    b"thread a fx 60 -1 inf",
    b"thread a fx 60 10 -1",
    b"thread a fx 60 10",
    b"thread a rt 5",
    b"thread a ia 1 0 0",
    b"thread a sys 60 priv uid 7",
    b"thread a sys 60 uid",
    b"thread a sys 60 in",
    b"thread a sys 60 in s t",
    b"thread a sys 60 priv priv",
    b"thread a sys 60 uid 1 uid 2",
    b"script",
    b"script a b",
    b"end",
    b"run 1",
    b"limit 5 \x80",
    b"\x0blimit 5",
    b"\x00",
];

const OPERATIONS: [&[u8]; 21] = [
    b"run 1",
    b"yield",
    b"nap 100001",
    b"sleep k",
    b"wake k",
    b"wakeall k",
    b"enter m",
    b"read w",
    b"write w",
    b"exit m",
    b"priocntl a ts -1 2",
    b"priocntl a fx -1 2 def",
    b"priocntl a sys -5",
    b"priocntl a rt -1 7",
    b"cvwait k m",
    b"semap s",
    b"semav s",
    b"assign 1 -",
    b"assign 1 s",
    b"pbind a -",
    b"pbind a 1",
];

const NO_OPERATIONS: [&[u8]; 27] = [
    b"",
    b"end",
    b"end a",
    b"run",
    b"run -1",
    b"run 1 1",
    b"yield 1",
    b"nap",
    b"sleep",
    b"sleep 1",
    b"enter zz zz",
    b"enter M",
    b"exit",
    b"priocntl a ts 0",
    b"priocntl a ts 0 0 0",
    b"priocntl a fx 0 0",
    b"priocntl a rt 5",
    b"priocntl a sys 60 def",
    b"cvwait k",
    b"cvwait k m m",
    b"assign - -",
    b"assign 1",
    b"pbind a",
    b"pbind - a",
    b"pbind a -1",
    b"limit 1",
    b"semap",
];

/// What a line outside blocks says, if it has words and a form.
pub(crate) fn statement(alloc: Global, line: &[u8]) -> Result<Option<Statement>, AllocError> {
    match first_word(line) {
        Some((word, rest)) => statement_of(alloc, word, rest),
        None => Ok(None),
    }
}

fn has_statement(alloc: Global, line: &[u8]) -> Result<bool, AllocError> {
    match statement(alloc, line) {
        Ok(statement) => Ok(statement.is_some()),
        Err(fault) => Err(fault),
    }
}

// The first of the lines that has a form and should not, or the other way round.
fn wrong_statement(
    alloc: Global,
    lines: &[&[u8]],
    has_form: bool,
) -> Result<Option<usize>, AllocError> {
    for (index, line) in lines.iter().enumerate() {
        if has_statement(alloc, *line)? != has_form {
            return Ok(Some(index));
        }
    }
    Ok(None)
}

fn has_operation(line: &[u8]) -> bool {
    match first_word(line) {
        Some((word, rest)) => operation_of(word, rest).is_some(),
        None => false,
    }
}

fn wrong_operation(lines: &[&[u8]], has_form: bool) -> Option<usize> {
    for (index, line) in lines.iter().enumerate() {
        if has_operation(*line) != has_form {
            return Some(index);
        }
    }
    None
}

#[test]
fn statements_are_read(rt: HostRuntime) {
    judge(&rt, wrong_statement(rt.alloc(), &STATEMENTS, true));
    judge(&rt, wrong_statement(rt.alloc(), &NO_STATEMENTS, false));
}

#[test]
fn operations_are_read(rt: HostRuntime) {
    judge(&rt, Ok(wrong_operation(&OPERATIONS, true)));
    judge(&rt, Ok(wrong_operation(&NO_OPERATIONS, false)));
}

// `a`, of TS with these numbers and options.
fn is_expected(thread: &ThreadLine) -> bool {
    let has_class = match thread.class {
        ThreadClass::Ts {
            cpupri,
            limit,
            upri,
        } => cpupri == 5 && limit == -10 && upri == 60,
        _ => false,
    };
    let has_set = match &thread.options.set {
        Some(set) => is_word(set.bytes(), b"s"),
        None => false,
    };
    has_class
        && has_set
        && is_word(thread.name.bytes(), b"a")
        && thread.options.uid == 7
        && thread.options.privileged
}

fn is_thread(alloc: Global, line: &[u8]) -> Result<bool, AllocError> {
    let found = statement(alloc, line)?;
    let is_so = match &found {
        Some(Statement::Declare(thread)) => is_expected(thread),
        _ => false,
    };
    Ok(is_so)
}

#[test]
fn a_thread_is_read(rt: HostRuntime) {
    is_so(
        &rt,
        is_thread(rt.alloc(), b"thread a ts 5 -10 60 uid 7 priv in s"),
    );
}

fn has_one_name(names: &NameIndex) -> bool {
    names.find(b"mutex_of_16bytes") == Some(0)
        && names.find(b"mutex_of_16byte").is_none()
        && names.find(b"mutex_of_17_bytes").is_none()
        && names.find(b"").is_none()
}

// There is no name before it is put in, and then this one.
fn is_put_in(alloc: Global) -> Result<bool, AllocError> {
    let mut names = NameIndex::new(alloc);
    let none = names.find(b"mutex_of_16bytes").is_none();
    names.push(b"mutex_of_16bytes")?;
    Ok(none && has_one_name(&names))
}

#[test]
fn a_name_is_put_in(rt: HostRuntime) {
    is_so(&rt, is_put_in(rt.alloc()));
}
