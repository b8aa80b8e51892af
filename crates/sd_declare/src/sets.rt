//! Processor sets.
//!
//! Source: psrset(1M).

ghost use Rattle.std.specs.Prelude.{◌≡◌, ◌==◌, ◌+◌, ◌≤◌, ◌<◌, ◌^◌, ◌++◌, ◌∷◌, [], false, nat_le, length, map, sum_by, All, None, Some, OnErr, OnOk, IfOk, IfErr};
ghost use Rattle.std.specs.List.{list_any};
ghost use Rattle.sd_types.specs.Works.{is_distinct};
ghost use Rattle.sd_types.specs.Partitions.{cpu_of_number};
ghost use Rattle.sd_types.specs.Limits.{most_processors, most_sets};
ghost use Rattle.sd_lines.specs.Said.{word_of};
ghost use Rattle.sd_declare.specs.Causes.{least};
ghost use Rattle.sd_declare.specs.Declarations.{cpu_count, named_count};
ghost use Rattle.sd_declare.specs.Statements.{is_beyond, is_named, is_taken, set_causes, with_set};
ghost use Rattle.sd_declare.specs.Kept.{declarations, IsRefusal};

use crate::lookups::{cpu_count, set_place};
use crate::{Declared, Refusal, WorkCause};
use sd_types::{CpuId, List, MOST_SETS, Name};
use std::alloc::{AllocError, Global};

// Whether one of the numbers is that of no processor.
fn is_any_beyond(d: &Declared, cpus: &[u64]) -> bool
    ensures { result ≡ list_any (is_beyond (declarations d.now)) cpus.now }
{
    let count = u64::from(cpu_count(d));
    cpus.iter().any(|cpu| count <= *cpu)
}

// The number of processors that sets name.
fn named_count(sets: &[(Name, List<CpuId>)]) -> usize
    requires { sum_by (λ s. length s.1) sets.now ≤ most_processors }
    ensures { result ≡ sum_by (λ s. length s.1) sets.now }
{
    let mut count = 0;
    for set in sets {
        count += set.1.items().len();
    }
    count
}

// Whether the processor is among these.
fn names_cpu(cpus: &[CpuId], cpu: u64) -> bool
    ensures { result ≡ list_any (λ e. e.0 == cpu) cpus.now }
{
    cpus.iter().any(|other| u64::from(other.0) == cpu)
}

// Whether a set names the processor.
fn is_named(sets: &[(Name, List<CpuId>)], cpu: u64) -> bool
    ensures { result ≡ list_any (λ s. list_any (λ e. e.0 == cpu) s.1) sets.now }
{
    sets.iter().any(|set| names_cpu(set.1.items(), cpu))
}

// Whether a set that is declared names the processor.
fn is_taken_cpu(d: &Declared, cpu: u64) -> bool
    ensures { result ≡ is_named (declarations d.now) cpu }
{
    is_named(&d.sets, cpu)
}

// Whether a set that is declared names one of the processors.
fn is_any_named(d: &Declared, cpus: &[u64]) -> bool
    ensures { result ≡ list_any (is_named (declarations d.now)) cpus.now }
{
    cpus.iter().any(|cpu| is_taken_cpu(d, *cpu))
}

// Whether the numbers differ. A repeated number is found soon where all are those of processors.
fn are_distinct(cpus: &[u64]) -> bool
    ensures { result ≡ is_distinct (λ a b. a == b) cpus.now }
{
    for i in 0..cpus.len() {
        if contains(&cpus[i + 1..], cpus[i]) {
            return false;
        }
    }
    true
}

fn contains(cpus: &[u64], cpu: u64) -> bool
    ensures { result ≡ list_any (λ other. cpu == other) cpus.now }
{
    cpus.iter().any(|other| cpu == *other)
}

// Whether this many more processors leave none to the default partition.
fn leaves_none(d: &Declared, more: usize) -> bool
    requires { more < 2 ^ 62 }
    ensures value { result ≡ nat_le (cpu_count (declarations d.now)) (named_count (declarations d.now) + more) }
    ensures few { result ≡ false → sum_by (λ s. length s.1) d.now.sets.items + more ≤ most_processors }
{
    usize::from(cpu_count(d)) <= named_count(&d.sets) + more
}

// Whether these processors may not be taken: none is left to the default partition, another set names one of them, or
// one stands twice among them.
#[tactic(auto, unfolding(crate::specs::Statements::is_taken))]
fn is_taken(d: &Declared, cpus: &[u64]) -> bool
    ensures value { result ≡ is_taken (declarations d.now) cpus.now }
    ensures few { result ≡ false → sum_by (λ s. length s.1) d.now.sets.items + length cpus.now ≤ most_processors }
{
    leaves_none(d, cpus.len()) || is_any_named(d, cpus) || !are_distinct(cpus)
}

// The processors of these numbers.
fn cpu_ids(alloc: Global, cpus: &[u64]) -> Result<Vec<CpuId>, AllocError>
    requires { All (λ c. c < most_processors) cpus.now }
    ensures { IfOk result (λ ids. ids.items ≡ map cpu_of_number cpus.now) }
{
    cpus.iter().map(|cpu| CpuId(*cpu as u16)).collect(alloc)
}

// What is wrong with a set of these processors.
fn judge_set(d: &Declared, name: &Name, cpus: &[u64]) -> Result<(), WorkCause>
    ensures ok { OnOk result (least (set_causes (declarations d.now) (word_of name.now) cpus.now) ≡ None) }
    ensures err { IfErr result (λ cause. least (set_causes (declarations d.now) (word_of name.now) cpus.now) ≡ Some cause) }
    ensures beyond { OnOk result (list_any (is_beyond (declarations d.now)) cpus.now ≡ false) }
    ensures few { OnOk result (sum_by (λ s. length s.1) d.now.sets.items + length cpus.now ≤ most_processors) }
    ensures room { OnOk result (length d.now.sets.items < most_sets) }
{
    if cpus.is_empty() {
        return Err(WorkCause::Syntax);
    }
    if set_place(d, name) < d.sets.len() {
        return Err(WorkCause::Twice);
    }
    if is_any_beyond(d, cpus) {
        return Err(WorkCause::Range);
    }
    if is_taken(d, cpus) {
        return Err(WorkCause::Sets);
    }
    if MOST_SETS <= d.sets.len() {
        return Err(WorkCause::Limits);
    }
    Ok(())
}

// Declares a set.
fn put_set(d: &mut Declared, name: Name, ids: List<CpuId>) -> Result<(), Refusal>
    requires few { sum_by (λ s. length s.1) d.old.sets.items + length ids ≤ most_processors }
    requires room { length d.old.sets.items < most_sets }
    ensures ok { OnOk result (declarations d.new ≡ record (declarations d.old) { sets = (declarations d.old).sets ++ (word_of name, ids) ∷ [] }) }
    ensures err { IfErr result (λ refusal. refusal ≡ Refusal.Memory) }
    ensures kept { OnErr result (declarations d.new ≡ declarations d.old) }
{
    d.sets.push((name, ids))?;
    Ok(())
}

/// `set NAME C C ..`: processors that no other set names, and one is left to the default partition.
pub fn take_set(alloc: Global, d: &mut Declared, name: Name, cpus: &[u64]) -> Result<(), Refusal>
    ensures ok { OnOk result (least (set_causes (declarations d.old) (word_of name) cpus.now) ≡ None) }
    ensures err { IfErr result (IsRefusal (least (set_causes (declarations d.old) (word_of name) cpus.now))) }
    ensures new { OnOk result (declarations d.new ≡ with_set (declarations d.old) (word_of name) cpus.now) }
    ensures kept { OnErr result (declarations d.new ≡ declarations d.old) }
{
    judge_set(d, &name, cpus)?;
    let ids = cpu_ids(alloc, cpus)?;
    put_set(d, name, List::from_vec(ids))
}
