//! The lines that declare threads.

ghost use Rattle.std.specs.Prelude.{◌≡◌, ◌++◌, ◌∷◌, [], OnOk, codes, decimal, flat_map};
ghost use Rattle.sd_canonical.specs.Lines.{class_words, in_words, option_words, priv_words};
ghost use Rattle.sd_canonical.specs.Canonical.{spaced, thread_text};

use crate::words::{
    put_newline, put_space_number, put_space_quantum, put_space_set, put_space_signed,
    put_space_word,
};
use sd_types::{ClassParms, Quantum, SetId, ThreadDecl, Work};
use std::alloc::AllocError;

fn put_ts(cpupri: u8, limit: i8, upri: i8, out: &mut Vec<u8>) -> Result<(), AllocError>
    ensures { OnOk result (out.new.items ≡ out.old.items ++ spaced (class_words (ClassParms.Ts limit upri) cpupri)) }
{
    out.extend_from_slice(b" ts")?;
    put_space_number(u64::from(cpupri), out)?;
    put_space_signed(i32::from(limit), out)?;
    put_space_signed(i32::from(upri), out)
}

fn put_fx(limit: u8, pri: u8, quantum: Quantum, out: &mut Vec<u8>) -> Result<(), AllocError>
    ensures { OnOk result (out.new.items ≡ out.old.items ++ spaced (class_words (ClassParms.Fx limit pri quantum) 0)) }
{
    out.extend_from_slice(b" fx")?;
    put_space_number(u64::from(limit), out)?;
    put_space_number(u64::from(pri), out)?;
    put_space_quantum(quantum, out)
}

fn put_sys(pri: u8, out: &mut Vec<u8>) -> Result<(), AllocError>
    ensures { OnOk result (out.new.items ≡ out.old.items ++ spaced (class_words (ClassParms.Sys pri) 0)) }
{
    out.extend_from_slice(b" sys")?;
    put_space_number(u64::from(pri), out)
}

fn put_rt(pri: u8, quantum: Quantum, out: &mut Vec<u8>) -> Result<(), AllocError>
    ensures { OnOk result (out.new.items ≡ out.old.items ++ spaced (class_words (ClassParms.Rt pri quantum) 0)) }
{
    out.extend_from_slice(b" rt")?;
    put_space_number(u64::from(pri), out)?;
    put_space_quantum(quantum, out)
}

fn put_class(class: ClassParms, cpupri: u8, out: &mut Vec<u8>) -> Result<(), AllocError>
    ensures { OnOk result (out.new.items ≡ out.old.items ++ spaced (class_words class cpupri)) }
{
    match class {
        ClassParms::Ts { limit, upri } => put_ts(cpupri, limit, upri, out),
        ClassParms::Fx {
            limit,
            pri,
            quantum,
        } => put_fx(limit, pri, quantum, out),
        ClassParms::Sys { pri } => put_sys(pri, out),
        ClassParms::Rt { pri, quantum } => put_rt(pri, quantum, out),
    }
}

fn put_uid(uid: u16, out: &mut Vec<u8>) -> Result<(), AllocError>
    ensures { OnOk result (out.new.items ≡ out.old.items ++ spaced (codes "uid" ∷ decimal uid ∷ [])) }
{
    out.extend_from_slice(b" uid")?;
    put_space_number(u64::from(uid), out)
}

fn put_priv(privileged: bool, out: &mut Vec<u8>) -> Result<(), AllocError>
    ensures { OnOk result (out.new.items ≡ out.old.items ++ spaced (priv_words privileged)) }
{
    if privileged {
        out.extend_from_slice(b" priv")
    } else {
        Ok(())
    }
}

fn put_in(work: &Work, set: SetId, out: &mut Vec<u8>) -> Result<(), AllocError>
    ensures { OnOk result (out.new.items ≡ out.old.items ++ spaced (in_words work.now set)) }
{
    if set.0 == 0 {
        Ok(())
    } else {
        out.extend_from_slice(b" in")?;
        put_space_set(work, set, out)
    }
}

fn put_options(work: &Work, thread: &ThreadDecl, out: &mut Vec<u8>) -> Result<(), AllocError>
    ensures { OnOk result (out.new.items ≡ out.old.items ++ spaced (option_words work.now thread.now)) }
{
    put_uid(thread.uid, out)?;
    put_priv(thread.privileged, out)?;
    put_in(work, thread.set, out)
}

fn put_thread(work: &Work, thread: &ThreadDecl, out: &mut Vec<u8>) -> Result<(), AllocError>
    ensures { OnOk result (out.new.items ≡ out.old.items ++ thread_text work.now thread.now) }
{
    out.extend_from_slice(b"thread")?;
    put_space_word(thread.name.bytes(), out)?;
    put_class(thread.class, thread.cpupri, out)?;
    put_options(work, thread, out)?;
    put_newline(out)
}

pub(crate) fn put_threads(work: &Work, out: &mut Vec<u8>) -> Result<(), AllocError>
    ensures { OnOk result (out.new.items ≡ out.old.items ++ flat_map (thread_text work.now) work.now.threads) }
{
    for thread in work.threads.items() {
        put_thread(work, thread, out)?;
    }
    Ok(())
}
