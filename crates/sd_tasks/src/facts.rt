//! What the lines above a line say.
//!
//! Source: psrset(1M).

ghost use Rattle.std.specs.Prelude.{◌≡◌, ◌==◌, ◌&&◌, ◌<◌, ◌≤◌, option_map, length, position, slice_get, IfSome, Some};
ghost use Rattle.std.specs.List.{list_any};
ghost use Rattle.sd_types.specs.Works.{same_bytes};
ghost use Rattle.sd_lines.specs.Said.{word_of};
ghost use Rattle.sd_tasks.specs.Above.{is_kept_name, is_chan_name, is_gate, is_gated, is_digit, thread_place, partition, set_number, set_place, least_cpu, nothing};
ghost use Rattle.sd_tasks.specs.Above.{Member};
ghost use Rattle.sd_tasks.specs.Blocks.{with_given};
ghost use Rattle.sd_tasks.specs.Kept.{above_kept, member_kept};

use crate::releases::Release;
use sd_lines::is_word;
use sd_types::Name;
use std::alloc::Global;

/// A thread that is declared. Its set is 0 for the default partition, and 1 for the first that is declared; `home` is
/// the processor whose clock releases it.
#[derive(Drop)]
pub struct SetThread {
    pub name: Name,
    pub line: u32,
    pub set: usize,
    pub home: u64,
    pub release: Option<Release>,
    /// How many times its script is written.
    pub rounds: u64,
    /// The processor to which it is bound.
    pub cpu: Option<u64>,
    /// Of a task: within how many ticks of its release a job is to be complete.
    pub deadline: Option<u64>,
    pub is_task: bool,
    /// Whether a script or a job is given.
    pub is_given: bool,
}

/// What the lines above say, as far as the rules of task sets ask for it.
#[derive(Drop)]
pub struct Facts {
    pub cpus: u64,
    pub limit: Option<u64>,
    pub sets: Vec<(Name, Vec<u64>)>,
    /// The names of channels and semaphores.
    pub chans: Vec<Name>,
    pub threads: Vec<SetThread>,
    /// There is a timed line.
    pub is_timed: bool,
    /// There is a thread or a request at level 59.
    pub has_high: bool,
    /// There is a name that is kept for clocks and starters.
    pub has_kept: bool,
}

/// What stands above the first line: nothing.
pub(crate) fn no_facts(alloc: Global) -> Facts
    ensures { above_kept result ≡ nothing }
{
    Facts {
        cpus: 1,
        limit: None,
        sets: Vec::new(alloc),
        chans: Vec::new(alloc),
        threads: Vec::new(alloc),
        is_timed: false,
        has_high: false,
        has_kept: false,
    }
}

fn is_digit(byte: u8) -> bool
    ensures { result ≡ is_digit byte }
{
    byte.is_ascii_digit()
}

/// Whether a name begins with `clock-` or `start-` and a digit.
pub(crate) fn is_kept_name(name: &[u8]) -> bool
    ensures { result ≡ is_kept_name name.now }
{
    if name.len() <= 6 {
        return false;
    }
    let front = &name[..6];
    (is_word(front, b"clock-") || is_word(front, b"start-")) && is_digit(name[6])
}

// Whether one of these names is this one.
fn has_name(names: &[Name], name: &Name) -> bool
    ensures { result ≡ list_any (λ k. same_bytes k.text.items (word_of name.now)) names.now }
{
    names
        .iter()
        .any(|other| is_word(other.bytes(), name.bytes()))
}

/// Whether a channel or a semaphore has the name.
pub(crate) fn is_chan_name(facts: &Facts, name: &Name) -> bool
    ensures { result ≡ is_chan_name (above_kept facts.now) (word_of name.now) }
{
    has_name(&facts.chans, name)
}

fn is_gate_of(thread: &SetThread, name: &Name) -> bool
    ensures { result ≡ (is_gated (member_kept thread.now) && same_bytes (word_of thread.now.name) (word_of name.now)) }
{
    thread.release.is_some() && is_word(thread.name.bytes(), name.bytes())
}

// Whether the semaphore of one of these threads has the name.
fn has_gate(threads: &[SetThread], name: &Name) -> bool
    ensures { result ≡ list_any (λ t. is_gated (member_kept t) && same_bytes (word_of t.name) (word_of name.now)) threads.now }
{
    threads.iter().any(|thread| is_gate_of(thread, name))
}

/// Whether the semaphore of this name is that of a task or of a thread with `start`.
pub(crate) fn is_gate(facts: &Facts, name: &Name) -> bool
    ensures { result ≡ is_gate (above_kept facts.now) (word_of name.now) }
{
    has_gate(&facts.threads, name)
}

// The place of the first thread with the name.
fn thread_at(threads: &[SetThread], name: &Name) -> Option<usize>
    ensures value { result ≡ position (λ t. same_bytes (word_of t.name) (word_of name.now)) threads.now }
    ensures within { IfSome result (λ i. i < length threads.now) }
{
    threads
        .iter()
        .position(|thread| is_word(thread.name.bytes(), name.bytes()))
}

/// The place of the first thread with the name, or the number of threads where none has it.
pub(crate) fn thread_place(facts: &Facts, name: &Name) -> usize
    ensures { result ≡ thread_place (above_kept facts.now) (word_of name.now) }
{
    thread_at(&facts.threads, name).unwrap_or(facts.threads.len())
}

// Whether the processor is among these.
fn names_cpu(cpus: &[u64], cpu: u64) -> bool
    ensures { result ≡ list_any (λ d. d == cpu) cpus.now }
{
    cpus.iter().any(|other| *other == cpu)
}

// The place of the first set that names a processor.
fn set_naming(sets: &[(Name, Vec<u64>)], cpu: u64) -> Option<usize>
    ensures value { result ≡ position (λ s. list_any (λ d. d == cpu) s.1.items) sets.now }
    ensures within { IfSome result (λ i. i < length sets.now) }
{
    sets.iter().position(|set| names_cpu(&set.1, cpu))
}

/// The set that names a processor, or the default partition.
#[tactic(auto, unfolding(crate::specs::Above::partition))]
pub fn partition(facts: &Facts, cpu: u64) -> usize
    ensures { result ≡ partition (above_kept facts.now) cpu }
{
    match set_naming(&facts.sets, cpu) {
        Some(place) => place + 1,
        None => 0,
    }
}

// The place of the first set with the name.
fn set_at(sets: &[(Name, Vec<u64>)], name: &Name) -> Option<usize>
    ensures value { result ≡ position (λ s. same_bytes s.0.text.items (word_of name.now)) sets.now }
    ensures within { IfSome result (λ i. i < length sets.now) }
{
    sets.iter()
        .position(|set| is_word(set.0.bytes(), name.bytes()))
}

/// The place of the first set with the name, or the number of sets where none has it.
fn set_place(facts: &Facts, name: &Name) -> usize
    ensures value { result ≡ set_place (above_kept facts.now) (word_of name.now) }
    ensures bound { result ≤ length facts.now.sets.items }
{
    set_at(&facts.sets, name).unwrap_or(facts.sets.len())
}

/// The number of a set, of which 0 is the default partition; where no set has the name, the number behind the last.
pub(crate) fn set_number(facts: &Facts, set: &Option<Name>) -> usize
    ensures { result ≡ set_number (above_kept facts.now) (option_map word_of set.now) }
{
    match set {
        Some(name) => set_place(facts, name) + 1,
        None => 0,
    }
}

/// The least processor of a set, or the number of processors where it has none.
#[tactic(auto, using(crate::proofs::Loops::range_from), unfolding(crate::specs::Above::least_cpu))]
pub(crate) fn least_cpu(facts: &Facts, set: usize) -> u64
    ensures { result ≡ least_cpu (above_kept facts.now) set }
{
    for cpu in 0..facts.cpus {
        if partition(facts, cpu) == set {
            return cpu;
        }
    }
    facts.cpus
}

/// Notes that a script or a job of a thread is given.
pub(crate) fn mark_given(facts: &mut Facts, place: usize)
    requires { place < length facts.old.threads.items }
    ensures { (m : Member) → slice_get (above_kept facts.old).threads place ≡ Some m → above_kept facts.new ≡ with_given (above_kept facts.old) place m }
{
    facts.threads[place].is_given = true;
}
