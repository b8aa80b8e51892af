//! The lines of settings, sets, locks and channels.

ghost use Rattle.std.specs.Prelude.{◌≡◌, ◌++◌, OnOk, flat_map};
ghost use Rattle.sd_canonical.specs.Lines.{chan_words, cpu_words, lock_word, setting_line};
ghost use Rattle.sd_canonical.specs.Canonical.{chan_text, line_text, lock_text, set_text, settings_text, spaced};

use crate::words::{put_newline, put_space_number, put_space_word};
use sd_types::{ChanKind, CpuId, List, LockKind, Name, Work};
use std::alloc::AllocError;

fn put_setting(word: &[u8], n: u64, out: &mut Vec<u8>) -> Result<(), AllocError>
    ensures { OnOk result (out.new.items ≡ out.old.items ++ line_text (setting_line word.now n)) }
{
    out.extend_from_slice(word)?;
    put_space_number(n, out)?;
    put_newline(out)
}

/// The lines `cpus`, `hz` and `limit`.
pub(crate) fn put_settings(work: &Work, out: &mut Vec<u8>) -> Result<(), AllocError>
    ensures { OnOk result (out.new.items ≡ out.old.items ++ settings_text work.now) }
{
    put_setting(b"cpus", u64::from(work.cpus), out)?;
    put_setting(b"hz", u64::from(work.hz), out)?;
    put_setting(b"limit", u64::from(work.limit), out)
}

fn put_cpus(cpus: &[CpuId], out: &mut Vec<u8>) -> Result<(), AllocError>
    ensures { OnOk result (out.new.items ≡ out.old.items ++ spaced (cpu_words cpus.now)) }
{
    for cpu in cpus {
        put_space_number(u64::from(cpu.0), out)?;
    }
    Ok(())
}

fn put_set(set: &(Name, List<CpuId>), out: &mut Vec<u8>) -> Result<(), AllocError>
    ensures { OnOk result (out.new.items ≡ out.old.items ++ set_text set.now) }
{
    out.extend_from_slice(b"set")?;
    put_space_word(set.0.bytes(), out)?;
    put_cpus(set.1.items(), out)?;
    put_newline(out)
}

pub(crate) fn put_sets(work: &Work, out: &mut Vec<u8>) -> Result<(), AllocError>
    ensures { OnOk result (out.new.items ≡ out.old.items ++ flat_map set_text work.now.sets) }
{
    for set in work.sets.items() {
        put_set(set, out)?;
    }
    Ok(())
}

fn put_lock_word(kind: LockKind, out: &mut Vec<u8>) -> Result<(), AllocError>
    ensures { OnOk result (out.new.items ≡ out.old.items ++ lock_word kind) }
{
    match kind {
        LockKind::Mutex => out.extend_from_slice(b"mutex"),
        LockKind::Rwlock => out.extend_from_slice(b"rwlock"),
    }
}

fn put_lock(lock: &(Name, LockKind), out: &mut Vec<u8>) -> Result<(), AllocError>
    ensures { OnOk result (out.new.items ≡ out.old.items ++ lock_text lock.now) }
{
    put_lock_word(lock.1, out)?;
    put_space_word(lock.0.bytes(), out)?;
    put_newline(out)
}

pub(crate) fn put_locks(work: &Work, out: &mut Vec<u8>) -> Result<(), AllocError>
    ensures { OnOk result (out.new.items ≡ out.old.items ++ flat_map lock_text work.now.locks) }
{
    for lock in work.locks.items() {
        put_lock(lock, out)?;
    }
    Ok(())
}

fn put_plain_chan(name: &[u8], out: &mut Vec<u8>) -> Result<(), AllocError>
    ensures { OnOk result (out.new.items ≡ out.old.items ++ line_text (chan_words name.now ChanKind.Chan)) }
{
    out.extend_from_slice(b"chan")?;
    put_space_word(name, out)?;
    put_newline(out)
}

fn put_sema(name: &[u8], count: u16, out: &mut Vec<u8>) -> Result<(), AllocError>
    ensures { OnOk result (out.new.items ≡ out.old.items ++ line_text (chan_words name.now (ChanKind.Sema count))) }
{
    out.extend_from_slice(b"sema")?;
    put_space_word(name, out)?;
    put_space_number(u64::from(count), out)?;
    put_newline(out)
}

fn put_chan(chan: &(Name, ChanKind), out: &mut Vec<u8>) -> Result<(), AllocError>
    ensures { OnOk result (out.new.items ≡ out.old.items ++ chan_text chan.now) }
{
    match chan.1 {
        ChanKind::Chan => put_plain_chan(chan.0.bytes(), out),
        ChanKind::Sema { count } => put_sema(chan.0.bytes(), count, out),
    }
}

pub(crate) fn put_chans(work: &Work, out: &mut Vec<u8>) -> Result<(), AllocError>
    ensures { OnOk result (out.new.items ≡ out.old.items ++ flat_map chan_text work.now.chans) }
{
    for chan in work.chans.items() {
        put_chan(chan, out)?;
    }
    Ok(())
}
