//! The blocks of scripts.

ghost use Rattle.std.specs.Prelude.{◌≡◌, ◌++◌, ◌∷◌, [], OnOk, codes, decimal, false, flat_map, if◌then◌else◌};
ghost use Rattle.sd_script.specs.Faults.{is_wait};
ghost use Rattle.sd_state.specs.Texts.{chan_name, lock_name, thread_name};
ghost use Rattle.sd_machine.specs.Texts.{set_name};
ghost use Rattle.sd_canonical.specs.Lines.{asked_words, bound_word, operation_line, operation_lines, request_words};
ghost use Rattle.sd_canonical.specs.Canonical.{line_text, lines_text, script_text, spaced, words_text};

use crate::words::{
    put_newline, put_space_chan, put_space_lock, put_space_number, put_space_quantum,
    put_space_set, put_space_signed, put_space_thread, put_space_word,
};
use sd_types::{ChanId, Class, CpuId, LockId, Op, Request, SetId, ThreadDecl, ThreadId, Work};
use std::alloc::AllocError;

// ` 7`, or ` -` where no processor is bound.
fn put_bound(cpu: Option<CpuId>, out: &mut Vec<u8>) -> Result<(), AllocError>
    ensures { OnOk result (out.new.items ≡ out.old.items ++ (32 ∷ bound_word cpu)) }
{
    match cpu {
        None => out.extend_from_slice(b" -"),
        Some(cpu) => put_space_number(u64::from(cpu.0), out),
    }
}

fn put_number_operation(word: &[u8], n: u32, out: &mut Vec<u8>) -> Result<(), AllocError>
    ensures { OnOk result (out.new.items ≡ out.old.items ++ (word.now ++ spaced (decimal n ∷ []))) }
{
    out.extend_from_slice(word)?;
    put_space_number(u64::from(n), out)
}

fn put_chan_operation(
    work: &Work,
    word: &[u8],
    k: ChanId,
    out: &mut Vec<u8>,
) -> Result<(), AllocError>
    ensures { OnOk result (out.new.items ≡ out.old.items ++ (word.now ++ spaced (chan_name work.now k.0 ∷ []))) }
{
    out.extend_from_slice(word)?;
    put_space_chan(work, k, out)
}

fn put_lock_operation(
    work: &Work,
    word: &[u8],
    l: LockId,
    out: &mut Vec<u8>,
) -> Result<(), AllocError>
    ensures { OnOk result (out.new.items ≡ out.old.items ++ (word.now ++ spaced (lock_name work.now l.0 ∷ []))) }
{
    out.extend_from_slice(word)?;
    put_space_lock(work, l, out)
}

fn put_ts_request(request: &Request, out: &mut Vec<u8>) -> Result<(), AllocError>
    ensures { OnOk result (out.new.items ≡ out.old.items ++ spaced (asked_words Class.Ts request.now)) }
{
    out.extend_from_slice(b" ts")?;
    put_space_signed(request.limit, out)?;
    put_space_signed(request.pri, out)
}

fn put_fx_request(request: &Request, out: &mut Vec<u8>) -> Result<(), AllocError>
    ensures { OnOk result (out.new.items ≡ out.old.items ++ spaced (asked_words Class.Fx request.now)) }
{
    out.extend_from_slice(b" fx")?;
    put_space_signed(request.limit, out)?;
    put_space_signed(request.pri, out)?;
    put_space_quantum(request.quantum, out)
}

fn put_sys_request(request: &Request, out: &mut Vec<u8>) -> Result<(), AllocError>
    ensures { OnOk result (out.new.items ≡ out.old.items ++ spaced (asked_words Class.Sys request.now)) }
{
    out.extend_from_slice(b" sys")?;
    put_space_signed(request.pri, out)
}

fn put_rt_request(request: &Request, out: &mut Vec<u8>) -> Result<(), AllocError>
    ensures { OnOk result (out.new.items ≡ out.old.items ++ spaced (asked_words Class.Rt request.now)) }
{
    out.extend_from_slice(b" rt")?;
    put_space_signed(request.pri, out)?;
    put_space_quantum(request.quantum, out)
}

fn put_request(request: &Request, out: &mut Vec<u8>) -> Result<(), AllocError>
    ensures { OnOk result (out.new.items ≡ out.old.items ++ spaced (request_words request.now)) }
{
    match request.class {
        Class::Ts => put_ts_request(request, out),
        Class::Fx => put_fx_request(request, out),
        Class::Sys => put_sys_request(request, out),
        Class::Rt => put_rt_request(request, out),
    }
}

fn put_priocntl(
    work: &Work,
    t: ThreadId,
    request: &Request,
    out: &mut Vec<u8>,
) -> Result<(), AllocError>
    ensures { OnOk result (out.new.items ≡ out.old.items ++ (codes "priocntl" ++ spaced (thread_name work.now t.0 ∷ request_words request.now))) }
{
    out.extend_from_slice(b"priocntl")?;
    put_space_thread(work, t, out)?;
    put_request(request, out)
}

fn put_cvwait(work: &Work, k: ChanId, l: LockId, out: &mut Vec<u8>) -> Result<(), AllocError>
    ensures { OnOk result (out.new.items ≡ out.old.items ++ (codes "cvwait" ++ spaced (chan_name work.now k.0 ∷ lock_name work.now l.0 ∷ []))) }
{
    out.extend_from_slice(b"cvwait")?;
    put_space_chan(work, k, out)?;
    put_space_lock(work, l, out)
}

fn put_assign(work: &Work, c: CpuId, p: SetId, out: &mut Vec<u8>) -> Result<(), AllocError>
    ensures { OnOk result (out.new.items ≡ out.old.items ++ (codes "assign" ++ spaced (decimal c.0 ∷ set_name work.now p.0 ∷ []))) }
{
    out.extend_from_slice(b"assign")?;
    put_space_number(u64::from(c.0), out)?;
    put_space_set(work, p, out)
}

fn put_pbind(
    work: &Work,
    t: ThreadId,
    cpu: Option<CpuId>,
    out: &mut Vec<u8>,
) -> Result<(), AllocError>
    ensures { OnOk result (out.new.items ≡ out.old.items ++ (codes "pbind" ++ spaced (thread_name work.now t.0 ∷ bound_word cpu ∷ []))) }
{
    out.extend_from_slice(b"pbind")?;
    put_space_thread(work, t, out)?;
    put_bound(cpu, out)
}

// The words of an operation.
fn put_operation(work: &Work, op: &Op, out: &mut Vec<u8>) -> Result<(), AllocError>
    ensures { OnOk result (out.new.items ≡ out.old.items ++ words_text (operation_line work.now op.now)) }
{
    match *op {
        Op::Run(n) => put_number_operation(b"run", n, out),
        Op::Yield => out.extend_from_slice(b"yield"),
        Op::Nap(n) => put_number_operation(b"nap", n, out),
        Op::Sleep(k) => put_chan_operation(work, b"sleep", k, out),
        Op::Wake(k) => put_chan_operation(work, b"wake", k, out),
        Op::WakeAll(k) => put_chan_operation(work, b"wakeall", k, out),
        Op::Enter(l) => put_lock_operation(work, b"enter", l, out),
        Op::Read(l) => put_lock_operation(work, b"read", l, out),
        Op::Write(l) => put_lock_operation(work, b"write", l, out),
        Op::Exit(l) => put_lock_operation(work, b"exit", l, out),
        Op::Prio(t, ref request) => put_priocntl(work, t, request, out),
        Op::CvWait(k, l) => put_cvwait(work, k, l, out),
        Op::SemaP(k) => put_chan_operation(work, b"semap", k, out),
        Op::SemaV(k) => put_chan_operation(work, b"semav", k, out),
        Op::Assign(c, p) => put_assign(work, c, p, out),
        Op::Pbind(t, cpu) => put_pbind(work, t, cpu, out),
    }
}

fn put_operation_line(work: &Work, op: &Op, out: &mut Vec<u8>) -> Result<(), AllocError>
    ensures { OnOk result (out.new.items ≡ out.old.items ++ line_text (operation_line work.now op.now)) }
{
    put_operation(work, op, out)?;
    put_newline(out)
}

/// Whether the operation is a wait on a condition variable.
fn is_wait(op: &Op) -> bool
    ensures { result ≡ is_wait op.now }
{
    matches!(op, Op::CvWait(..))
}

// The line of an operation, but none of an entry that is part of a wait's line.
fn put_unless_entry(work: &Work, entry: bool, op: &Op, out: &mut Vec<u8>) -> Result<(), AllocError>
    ensures { OnOk result (out.new.items ≡ out.old.items ++ (if entry then [] else line_text (operation_line work.now op.now))) }
{
    if entry {
        Ok(())
    } else {
        put_operation_line(work, op, out)
    }
}

fn put_operations(work: &Work, ops: &[Op], out: &mut Vec<u8>) -> Result<(), AllocError>
    ensures { OnOk result (out.new.items ≡ out.old.items ++ lines_text (operation_lines work.now false ops.now)) }
{
    let mut entry = false;
    for op in ops {
        put_unless_entry(work, entry, op, out)?;
        entry = !entry && is_wait(op);
    }
    Ok(())
}

fn put_block(work: &Work, name: &[u8], ops: &[Op], out: &mut Vec<u8>) -> Result<(), AllocError>
    ensures { OnOk result (out.new.items ≡ out.old.items
        ++ (line_text (codes "script" ∷ name.now ∷ []) ++ (lines_text (operation_lines work.now false ops.now) ++ line_text (codes "end" ∷ [])))) }
{
    out.extend_from_slice(b"script")?;
    put_space_word(name, out)?;
    put_newline(out)?;
    put_operations(work, ops, out)?;
    out.extend_from_slice(b"end\n")
}

#[tactic(auto, using(crate::proofs::LineLemmas::script_text_parts))]
fn put_script(work: &Work, thread: &ThreadDecl, out: &mut Vec<u8>) -> Result<(), AllocError>
    ensures { OnOk result (out.new.items ≡ out.old.items ++ script_text work.now thread.now) }
{
    if thread.script.ops().is_empty() {
        Ok(())
    } else {
        put_block(work, thread.name.bytes(), thread.script.ops(), out)
    }
}

pub(crate) fn put_scripts(work: &Work, out: &mut Vec<u8>) -> Result<(), AllocError>
    ensures { OnOk result (out.new.items ≡ out.old.items ++ flat_map (script_text work.now) work.now.threads) }
{
    for thread in work.threads.items() {
        put_script(work, thread, out)?;
    }
    Ok(())
}
