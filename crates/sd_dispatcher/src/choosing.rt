//! On which processor a thread is put that is made runnable, and from which processor a thread is stolen.
//!
//! Source: Solaris Internals (cpu_choose, disp_getwork); hints, and the three ticks of warmth, are this project's own.

ghost use Rattle.std.specs.Prelude.{◌≡◌, ◌≤◌, ◌==◌, ◌∷◌, [], Bool, IfOk, None, false, filter, length, not, option_copied, option_map, replicate, true, unwrap_or, ℕ};
ghost use Rattle.sd_rules.specs.Choices.{is_among};
ghost use Rattle.sd_rules.specs.ChoiceFunctions.{chosen, victim_of};
ghost use Rattle.sd_machine.specs.Choosing.{cpus_for, cpus_or_bound, is_recent, is_settled, is_warm, neighbours, numbers_read, put_chosen, put_on, victim_for};
ghost use Rattle.sd_machine.specs.Hints.{hints_fit, read_of, reads_for};
ghost use Rattle.sd_state.specs.declared.states.State.{State};
ghost use Rattle.sd_state.specs.States.{no_body, thread_of, set_of};
ghost use Rattle.sd_dispatcher.specs.Allowed.{allowed, settled_put};
ghost use Rattle.sd_dispatcher.specs.Reading.{parts, put_unread};
ghost use Rattle.sd_store.specs.Parts.{actor_part, ready_parts, real_time_part, thread_part};
ghost use Rattle.sd_store.specs.Words.{Lacks, Tells, TellsIf};
ghost use Rattle.sd_types.specs.Limits.{most_processors};

use crate::bodies::bound_in;
use crate::reading::Reading;
use arrayvec::ArrayVec;
use sd_basics::known;
use sd_rules::{choose, victim};
use sd_store::{Look, set_of};
use sd_types::{CpuId, Hints, Put, REAL_TIME_PRIORITY, ThreadBody, ThreadId, Work};

/// These processors, in a list of their own.
pub(crate) fn copied(cpus: &[CpuId]) -> ArrayVec<CpuId, 64>
    requires { length cpus.now ≤ most_processors }
    ensures { result.items ≡ cpus.now }
{
    let mut copy = ArrayVec::new();
    let copied = copy.try_extend_from_slice(cpus);
    known(copied.is_ok());
    match copied {
        Ok(()) => copy,
        Err(_) => unreachable!(),
    }
}

/// The processors on which a thread may run: the open ones of its set, or the one to which it is bound.
#[derive(Clone, Copy)]
pub(crate) enum Allowed<'a> {
    Open(&'a [CpuId]),
    Bound([CpuId; 1]),
}

impl Allowed<'_> {
    /// The list of them.
    #[inline(always)]
    pub(crate) fn as_slice(&self) -> &[CpuId]
        ensures { result.now ≡ allowed self.now }
    {
        match self {
            Allowed::Open(cpus) => cpus,
            Allowed::Bound(one) => one,
        }
    }
}

/// The open processors of a set, or the one to which a thread is bound.
#[inline(always)]
fn cpus_or_bound(cpus: &[CpuId], bound: Option<CpuId>) -> Allowed<'_>
    ensures { allowed result ≡ cpus_or_bound cpus.now bound }
{
    match bound {
        None => Allowed::Open(cpus),
        Some(d) => Allowed::Bound([d]),
    }
}

/// The processor on which the thread of a body ran last.
#[inline(always)]
fn last_in(body: Option<&ThreadBody>) -> CpuId
    ensures { result ≡ (unwrap_or (option_copied body.entry) no_body).last }
{
    match body {
        Some(body) => body.last,
        None => CpuId(0),
    }
}

/// The count of ticks that its last processor had when the thread left it.
#[inline(always)]
fn left_in(body: Option<&ThreadBody>) -> Option<u32>
    ensures { result ≡ (unwrap_or (option_copied body.entry) no_body).left_at }
{
    match body {
        Some(body) => body.left_at,
        None => None,
    }
}

/// A thread that left its last processor at a count of ticks did so at most three ticks ago.
fn is_recent(count: u32, left_at: Option<u32>) -> bool
    ensures { result ≡ is_recent count left_at }
{
    match left_at {
        None => false,
        Some(left_at) => count.saturating_sub(3) <= left_at,
    }
}

/// What a choice for a thread goes by: the processors on which it may run, the one to which it is bound, the one on which it ran last, and
/// whether it left that one a short time ago.
#[derive(Clone, Copy)]
pub(crate) struct Choices<'a> {
    pub cpus: Allowed<'a>,
    pub bound: Option<CpuId>,
    pub last: CpuId,
    pub warm: bool,
}

/// What a choice for thread `t` goes by, as processor `c` counts. The thread is looked up once.
#[tactic(auto, unfolding(sd_machine::specs::Choosing::cpus_for))]
pub(crate) fn choices_of<'a, L: Look>(
    work: &Work,
    x: &'a L,
    c: CpuId,
    t: ThreadId,
) -> Result<Choices<'a>, L::Lack>
    ensures few { IfOk result (λ r. length (allowed r.cpus) ≤ most_processors) }
    ensures value { IfOk result (λ r. (n : ℕ) (s : State) → L.shows x.now n s → (allowed r.cpus ≡ cpus_for work.now s t.0) × (r.bound ≡ (thread_of s t.0).body.bound) × (r.last ≡ (thread_of s t.0).body.last) × (r.warm ≡ is_warm s c.0 t.0)) }
    ensures lack { Lacks L.part (L.shows x.now) (L.has x.now) result (λ s. actor_part c ∷ thread_part t ∷ real_time_part (set_of work.now t.0) ∷ []) }
{
    let body = x.body(t)?;
    let last = last_in(body);
    let left_at = left_in(body);
    let bound = bound_in(body);
    let cpus = cpus_or_bound(x.open_cpus(set_of(work, t))?, bound);
    let warm = is_recent(x.ticks(c)?, left_at);
    Ok(Choices {
        cpus,
        bound,
        last,
        warm,
    })
}

fn is_among(cpu: CpuId, cpus: &[CpuId]) -> bool
    ensures { result ≡ is_among cpu cpus.now }
{
    cpus.iter().any(|other| other.0 == cpu.0)
}

/// The choice is settled before anything is read.
pub(crate) fn is_settled(cpus: &[CpuId], last: CpuId, warm: bool) -> bool
    ensures { result ≡ is_settled cpus.now last warm }
{
    cpus.len() == 1 || warm && is_among(last, cpus)
}

/// As many zeros as there are processors.
fn zeros<'a>(cpus: &[CpuId], zeros: &'a [u8]) -> &'a [u8]
    requires fits { length cpus.now ≤ most_processors }
    requires zeros { zeros.now ≡ replicate 64 0 }
    ensures { result.now ≡ replicate (length cpus.now) 0 }
{
    &zeros[..cpus.len()]
}

/// The numbers that were read of so many processors, 0 where nothing was read.
fn numbers_read<'a>(cpus: &[CpuId], hints: &'a Option<Hints>, nothing: &'a [u8]) -> &'a [u8]
    requires fits { length cpus.now ≤ most_processors }
    requires nothing { nothing.now ≡ replicate 64 0 }
    ensures { result.now ≡ numbers_read cpus.now hints.now }
{
    match hints {
        None => zeros(cpus, nothing),
        Some(hints) => hints.numbers.as_slice(),
    }
}

/// The processor of `cpus` to which a thread goes, with a number for each that was read.
fn chosen(cpus: &[CpuId], hints: &Option<Hints>, last: CpuId, warm: bool) -> CpuId
    requires { length cpus.now ≤ most_processors }
    ensures { length (numbers_read cpus.now hints.now) ≡ length cpus.now → result ≡ chosen cpus.now (numbers_read cpus.now hints.now) last warm }
{
    if cpus.is_empty() {
        return CpuId(0);
    }
    let nothing = [0; 64];
    let numbers = numbers_read(cpus, hints, &nothing);
    if numbers.len() == cpus.len() {
        choose(cpus, numbers, last, warm)
    } else {
        CpuId(0)
    }
}

/// The queue of a thread of priority `p` for which processor `x` was chosen.
fn put_on(p: u8, bound: Option<CpuId>, x: CpuId) -> Put
    ensures { result ≡ put_on p bound x }
{
    if p >= REAL_TIME_PRIORITY && bound.is_none() {
        Put::RealTime(x)
    } else {
        Put::Cpu(x)
    }
}

/// Where processor `c` puts thread `t`, which has the effective priority `p` then, where a number was read for each
/// processor on which the thread may run, or none was.
#[tactic(auto, unfolding(sd_machine::specs::Choosing::choice, sd_machine::specs::Choosing::put_chosen))]
pub fn put_chosen<L: Look>(
    work: &Work,
    x: &L,
    c: CpuId,
    t: ThreadId,
    p: u8,
    hints: &Option<Hints>,
) -> Result<Put, L::Lack>
    ensures value { TellsIf (L.shows x.now) result (λ s. length (numbers_read (cpus_for work.now s t.0) hints.now) ≡ length (cpus_for work.now s t.0)) (λ s. put_chosen work.now s c.0 t.0 p hints.now) }
    ensures lack { Lacks L.part (L.shows x.now) (L.has x.now) result (λ s. actor_part c ∷ thread_part t ∷ real_time_part (set_of work.now t.0) ∷ []) }
{
    let choices = choices_of(work, x, c, t)?;
    let cpu = chosen(choices.cpus.as_slice(), hints, choices.last, choices.warm);
    Ok(put_on(p, choices.bound, cpu))
}

/// The processor of `cpus` to which a thread goes where that is settled before anything is read: the only one, and else the one on which it ran
/// last, and which it left a short time ago.
#[tactic(auto, using(crate::proofs::ReadLemmas::last_chosen))]
fn settled(cpus: &[CpuId], last: CpuId) -> CpuId
    ensures { (warm : Bool) → is_settled cpus.now last warm ≡ true → result ≡ chosen cpus.now (numbers_read cpus.now None) last warm }
{
    if cpus.len() == 1 { cpus[0] } else { last }
}

/// Where thread `t` of priority `p` is put, where its choice is settled before anything is read.
#[tactic(auto, unfolding(sd_machine::specs::Choosing::choice, sd_machine::specs::Choosing::cpus_for, sd_machine::specs::Choosing::put_chosen))]
fn put_settled<L: Look>(work: &Work, x: &L, t: ThreadId, p: u8) -> Result<Put, L::Lack>
    ensures value { IfOk result (λ r. (n : ℕ) (s : State) (c : ℕ) → L.shows x.now n s → is_settled (cpus_for work.now s t.0) (thread_of s t.0).body.last (is_warm s c t.0) ≡ true → r ≡ put_chosen work.now s c t.0 p None) }
    ensures lack { Lacks L.part (L.shows x.now) (L.has x.now) result (λ s. thread_part t ∷ real_time_part (set_of work.now t.0) ∷ []) }
{
    let body = x.body(t)?;
    let last = last_in(body);
    let bound = bound_in(body);
    let cpus = cpus_or_bound(x.open_cpus(set_of(work, t))?, bound);
    Ok(put_on(p, bound, settled(cpus.as_slice(), last)))
}

/// Where thread `t` of priority `p` is put, by a number for each of the processors on which it may run. It left its last one a while ago.
fn put_by_numbers<L: Look>(
    x: &L,
    t: ThreadId,
    p: u8,
    cpus: &[CpuId],
    hints: &Option<Hints>,
) -> Result<Put, L::Lack>
    requires { length cpus.now ≤ most_processors }
    ensures value { TellsIf (L.shows x.now) result (λ s. length (numbers_read cpus.now hints.now) ≡ length cpus.now) (λ s. put_on p (thread_of s t.0).body.bound (chosen cpus.now (numbers_read cpus.now hints.now) (thread_of s t.0).body.last false)) }
    ensures lack { Lacks L.part (L.shows x.now) (L.has x.now) result (λ s. thread_part t ∷ []) }
{
    let body = x.body(t)?;
    let last = last_in(body);
    let bound = bound_in(body);
    Ok(put_on(p, bound, chosen(cpus, hints, last, false)))
}

/// Where a thread of priority `p` is put by these choices, where they are settled before anything is read.
#[inline(always)]
fn unread_by(choices: &Choices<'_>, p: u8) -> Option<Put>
    ensures { result ≡ settled_put (allowed choices.now.cpus) choices.now.bound choices.now.last choices.now.warm p }
{
    let cpus = choices.cpus.as_slice();
    if is_settled(cpus, choices.last, choices.warm) {
        Some(put_on(p, choices.bound, settled(cpus, choices.last)))
    } else {
        None
    }
}

/// Where processor `c` puts thread `t`, which has the effective priority `p` then, where it reads nothing for that; None where it reads
/// something. The thread is looked up once.
pub fn put_unread<L: Look>(
    work: &Work,
    x: &L,
    c: CpuId,
    t: ThreadId,
    p: u8,
) -> Result<Option<Put>, L::Lack>
    ensures value { Tells (L.shows x.now) result (λ s. put_unread work.now s c.0 t.0 p) }
    ensures lack { Lacks L.part (L.shows x.now) (L.has x.now) result (λ s. actor_part c ∷ thread_part t ∷ real_time_part (set_of work.now t.0) ∷ []) }
{
    let choices = choices_of(work, x, c, t)?;
    Ok(unread_by(&choices, p))
}

/// Where processor `c` puts thread `t`, which has the effective priority `p` then, by what was found that it reads for this and by the numbers
/// that it read. What it reads tells whether the choice is settled, and the processors on which the thread may run where it is not.
pub fn put_read<L: Look>(
    work: &Work,
    x: &L,
    c: CpuId,
    t: ThreadId,
    p: u8,
    reading: &Option<Reading>,
    hints: &Option<Hints>,
) -> Result<Put, L::Lack>
    ensures value { TellsIf (L.shows x.now) result (λ s. (option_map parts reading.now ≡ reads_for work.now s c.0 t.0) × (hints_fit (reads_for work.now s c.0 t.0) hints.now ≡ true)) (λ s. put_chosen work.now s c.0 t.0 p hints.now) }
    ensures lack { Lacks L.part (L.shows x.now) (L.has x.now) result (λ s. actor_part c ∷ thread_part t ∷ real_time_part (set_of work.now t.0) ∷ []) }
{
    match reading {
        None => put_settled(work, x, t, p),
        Some(reading) => put_by_numbers(x, t, p, reading.cpus.as_slice(), hints),
    }
}

/// The processors of a list without processor `c`.
fn others(c: CpuId, cpus: &[CpuId]) -> ArrayVec<CpuId, 64>
    requires { length cpus.now ≤ most_processors }
    ensures { result.items ≡ filter (λ d. not (d.0 == c.0)) cpus.now }
{
    let mut others = ArrayVec::new();
    for d in cpus {
        if d.0 != c.0 {
            others.push(*d);
        }
    }
    others
}

/// The other open processors of the partition of processor `c`.
#[tactic(auto, unfolding(sd_machine::specs::Choosing::neighbours))]
pub fn neighbours<L: Look>(x: &L, c: CpuId) -> Result<ArrayVec<CpuId, 64>, L::Lack>
    ensures value { IfOk result (λ r. (n : ℕ) (s : State) → L.shows x.now n s → r.items ≡ neighbours s c.0) }
    ensures lack { Lacks L.part (L.shows x.now) (L.has x.now) result (λ s. ready_parts s c) }
{
    let set = x.cpu(c)?.set;
    Ok(others(c, x.open_cpus(set)?))
}

/// The processor of `cpus` with the greatest number, the least of several, none where all are 0.
fn victim_among(cpus: &[CpuId], hints: &Option<Hints>) -> Option<CpuId>
    requires { length cpus.now ≤ most_processors }
    ensures { length (numbers_read cpus.now hints.now) ≡ length cpus.now → result ≡ victim_of cpus.now (numbers_read cpus.now hints.now) }
{
    let nothing = [0; 64];
    let numbers = numbers_read(cpus, hints, &nothing);
    if numbers.len() == cpus.len() {
        victim(cpus, numbers)
    } else {
        None
    }
}

/// The processor from which processor `c` would steal a thread: that with the greatest number, the least of several,
/// none where all are 0; where a number was read for each neighbour, or none was.
#[tactic(auto, unfolding(sd_machine::specs::Choosing::victim_for))]
pub fn victim_for<L: Look>(x: &L, c: CpuId, hints: &Option<Hints>) -> Result<Option<CpuId>, L::Lack>
    ensures value { TellsIf (L.shows x.now) result (λ s. length (numbers_read (neighbours s c.0) hints.now) ≡ length (neighbours s c.0)) (λ s. victim_for s c.0 hints.now) }
    ensures lack { Lacks L.part (L.shows x.now) (L.has x.now) result (λ s. ready_parts s c) }
{
    let cpus = neighbours(x, c)?;
    Ok(victim_among(cpus.as_slice(), hints))
}

/// The same by what was found that processor `c` reads for its search: the list of its neighbours, where it has any.
pub fn victim_read(reading: &Option<Reading>, hints: &Option<Hints>) -> Option<CpuId>
    ensures { (s : State) (c : ℕ) → option_map parts reading.now ≡ read_of (neighbours s c) → hints_fit (read_of (neighbours s c)) hints.now ≡ true → result ≡ victim_for s c hints.now }
{
    match reading {
        None => None,
        Some(reading) => victim_among(reading.cpus.as_slice(), hints),
    }
}
