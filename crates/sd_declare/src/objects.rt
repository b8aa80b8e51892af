//! Locks, channels and threads.

ghost use Rattle.std.specs.Prelude.{◌≡◌, ◌<◌, [], ◌∷◌, ◌++◌, false, length, None, Some, OnErr, OnOk, IfErr};
ghost use Rattle.sd_lines.specs.Said.{word_of, thread_said};
ghost use Rattle.sd_declare.specs.Causes.{least};
ghost use Rattle.sd_declare.specs.Statements.{lock_causes, chan_causes, sema_causes, thread_causes, with_lock, with_chan, with_thread};
ghost use Rattle.sd_declare.specs.Declarations.{is_chan_name, is_lock_name, is_thread_name};
ghost use Rattle.sd_declare.specs.Kept.{declarations, thread_kept, IsRefusal};
ghost use Rattle.sd_types.specs.Limits.{most_objects, most_threads};

use crate::classes::{cpupri_of, is_class, parms_of};
use crate::lookups::{chan_number, lock_number, set_of, thread_number};
use crate::{Declared, Refusal, WorkCause};
use sd_lines::ThreadLine;
use sd_types::{ChanKind, List, LockKind, MOST_OBJECTS, MOST_THREADS, Name, Script, ThreadDecl};
use std::alloc::{AllocError, Global};

// Declares a lock.
fn put_lock(d: &mut Declared, name: Name, kind: LockKind) -> Result<(), AllocError>
    requires new { is_lock_name (declarations d.old) (word_of name) ≡ false }
    requires room { length d.old.locks.items < most_objects }
    ensures ok { OnOk result (declarations d.new ≡ with_lock (declarations d.old) kind (word_of name)) }
    ensures err { OnErr result (declarations d.new ≡ declarations d.old) }
{
    d.locks.reserve(1)?;
    d.lock_names.push(name.bytes())?;
    // there is room
    let _ = d.locks.push((name, kind));
    Ok(())
}

/// `mutex NAME` or `rwlock NAME`.
pub fn take_lock(d: &mut Declared, kind: LockKind, name: Name) -> Result<(), Refusal>
    ensures ok { OnOk result (least (lock_causes (declarations d.old) (word_of name)) ≡ None) }
    ensures err { IfErr result (IsRefusal (least (lock_causes (declarations d.old) (word_of name)))) }
    ensures new { OnOk result (declarations d.new ≡ with_lock (declarations d.old) kind (word_of name)) }
    ensures kept { OnErr result (declarations d.new ≡ declarations d.old) }
{
    if lock_number(d, &name) < d.locks.len() {
        return Err(Refusal::Cause(WorkCause::Twice));
    }
    if MOST_OBJECTS <= d.locks.len() {
        return Err(Refusal::Cause(WorkCause::Limits));
    }
    put_lock(d, name, kind)?;
    Ok(())
}

// Declares a channel.
fn put_chan(d: &mut Declared, name: Name, kind: ChanKind) -> Result<(), AllocError>
    requires new { is_chan_name (declarations d.old) (word_of name) ≡ false }
    requires room { length d.old.chans.items < most_objects }
    ensures ok { OnOk result (declarations d.new ≡ with_chan (declarations d.old) kind (word_of name)) }
    ensures err { OnErr result (declarations d.new ≡ declarations d.old) }
{
    d.chans.reserve(1)?;
    d.chan_names.push(name.bytes())?;
    // there is room
    let _ = d.chans.push((name, kind));
    Ok(())
}

/// `chan NAME`.
pub fn take_chan(d: &mut Declared, name: Name) -> Result<(), Refusal>
    ensures ok { OnOk result (least (chan_causes (declarations d.old) (word_of name)) ≡ None) }
    ensures err { IfErr result (IsRefusal (least (chan_causes (declarations d.old) (word_of name)))) }
    ensures new { OnOk result (declarations d.new ≡ with_chan (declarations d.old) ChanKind.Chan (word_of name)) }
    ensures kept { OnErr result (declarations d.new ≡ declarations d.old) }
{
    if chan_number(d, &name) < d.chans.len() {
        return Err(Refusal::Cause(WorkCause::Twice));
    }
    if MOST_OBJECTS <= d.chans.len() {
        return Err(Refusal::Cause(WorkCause::Limits));
    }
    put_chan(d, name, ChanKind::Chan)?;
    Ok(())
}

/// `sema NAME N`: its first count, at most 65,535.
pub fn take_sema(d: &mut Declared, name: Name, count: u64) -> Result<(), Refusal>
    ensures ok { OnOk result (least (sema_causes (declarations d.old) (word_of name) count) ≡ None) }
    ensures err { IfErr result (IsRefusal (least (sema_causes (declarations d.old) (word_of name) count))) }
    ensures new { OnOk result (declarations d.new ≡ with_chan (declarations d.old) (ChanKind.Sema count) (word_of name)) }
    ensures kept { OnErr result (declarations d.new ≡ declarations d.old) }
{
    if chan_number(d, &name) < d.chans.len() {
        return Err(Refusal::Cause(WorkCause::Twice));
    }
    if 65_535 < count {
        return Err(Refusal::Cause(WorkCause::Range));
    }
    if MOST_OBJECTS <= d.chans.len() {
        return Err(Refusal::Cause(WorkCause::Limits));
    }
    let count = count as u16;
    put_chan(d, name, ChanKind::Sema { count })?;
    Ok(())
}

// A script of no operation.
fn no_script(alloc: Global) -> Script
    ensures { result.ops ≡ [] }
{
    Script::from_ops(List::from_vec(Vec::new(alloc)))
}

// Declares a thread.
fn put_thread(d: &mut Declared, thread: ThreadDecl) -> Result<(), AllocError>
    requires new { is_thread_name (declarations d.old) (word_of thread.name) ≡ false }
    requires room { length d.old.threads.items < most_threads }
    ensures ok { OnOk result (declarations d.new ≡ record (declarations d.old) { threads = (declarations d.old).threads ++ thread_kept thread ∷ [] }) }
    ensures err { OnErr result (declarations d.new ≡ declarations d.old) }
{
    d.threads.reserve(1)?;
    d.thread_names.push(thread.name.bytes())?;
    // there is room
    let _ = d.threads.push(thread);
    Ok(())
}

/// `thread NAME CLASS ..`.
pub fn take_thread(alloc: Global, d: &mut Declared, line: ThreadLine) -> Result<(), Refusal>
    ensures ok { OnOk result (least (thread_causes (declarations d.old) (thread_said line)) ≡ None) }
    ensures err { IfErr result (IsRefusal (least (thread_causes (declarations d.old) (thread_said line)))) }
    ensures new { OnOk result (declarations d.new ≡ with_thread (declarations d.old) (thread_said line)) }
    ensures kept { OnErr result (declarations d.new ≡ declarations d.old) }
{
    let set = set_of(d, &line.options.set)?;
    if thread_number(d, &line.name) < d.threads.len() {
        return Err(Refusal::Cause(WorkCause::Twice));
    }
    if !(is_class(line.class) && line.options.uid <= 65_535) {
        return Err(Refusal::Cause(WorkCause::Range));
    }
    if MOST_THREADS <= d.threads.len() {
        return Err(Refusal::Cause(WorkCause::Limits));
    }
    let thread = ThreadDecl {
        name: line.name,
        class: parms_of(line.class),
        cpupri: cpupri_of(line.class),
        uid: line.options.uid as u16,
        privileged: line.options.privileged,
        set,
        script: no_script(alloc),
    };
    put_thread(d, thread)?;
    Ok(())
}
