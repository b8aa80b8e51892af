//! The choice of a processor by hints.

ghost use Rattle.std.specs.Prelude.{◌≡◌, ◌<◌, ◌↔◌, length, All, Contains, IsNone, IfSome};
ghost use Rattle.sd_types.specs.declared.numbers.CpuId.{CpuId};
ghost use Rattle.sd_rules.specs.Choices.{is_among, IsChosen, IsVictim};
ghost use Rattle.sd_rules.specs.ChoiceFunctions.{chosen, victim_of};
ghost use Rattle.sd_rules.specs.Orders.{is_less_busy, is_busier, IsBestByHintsAt, IsBusiestAt};

use sd_types::CpuId;

/// The processor of `cpus` to which a thread goes that ran last on `last`. `warm` says that it left that one a
/// short time ago; then it goes back there, if it may. Else it goes to the processor with the least hint; ties go
/// to `last`, then to the least number. `hints` are the priorities of the threads that run there, plus 1, or 0.
pub fn choose(cpus: &[CpuId], hints: &[u8], last: CpuId, warm: bool) -> CpuId
    requires some { 0 < length cpus.now }
    requires hints { length cpus.now ≡ length hints.now }
    ensures value { result ≡ chosen cpus.now hints.now last warm }
    ensures chosen { IsChosen cpus.now hints.now last warm result }
    ensures only { (c : CpuId) → IsChosen cpus.now hints.now last warm c → result ≡ c }
    ensures among { Contains cpus.now result }
{
    if warm && is_among(last, cpus) {
        return last;
    }
    cpus[least_busy(cpus, hints, last)]
}

/// The processor of `cpus` with the greatest hint, or none where all hints are 0; ties go to the least number.
/// `hints` are the greatest priorities of the threads that are queued there, plus 1, or 0.
pub fn victim(cpus: &[CpuId], hints: &[u8]) -> Option<CpuId>
    requires { length cpus.now ≡ length hints.now }
    ensures value { result ≡ victim_of cpus.now hints.now }
    ensures none { IsNone result ↔ All (λ hint. hint ≡ 0) hints.now }
    ensures victim { IfSome result (IsVictim cpus.now hints.now) }
    ensures only { (c : CpuId) → IsVictim cpus.now hints.now c → result ≡ Some c }
{
    if cpus.is_empty() {
        return None;
    }
    let index = busiest(cpus, hints);
    if hints[index] == 0 {
        None
    } else {
        Some(cpus[index])
    }
}

fn is_among(cpu: CpuId, cpus: &[CpuId]) -> bool
    ensures { result ≡ is_among cpu cpus.now }
{
    cpus.iter().any(|other| other.0 == cpu.0)
}

/// The index of the best by the hints.
fn least_busy(cpus: &[CpuId], hints: &[u8], last: CpuId) -> usize
    requires some { 0 < length cpus.now }
    requires hints { length cpus.now ≡ length hints.now }
    ensures within { result < length cpus.now }
    ensures best { IsBestByHintsAt cpus.now hints.now last (length cpus.now) result }
{
    let mut best = 0;
    for i in 1..cpus.len() {
        if is_less_busy(last, cpus[i], hints[i], cpus[best], hints[best]) {
            best = i;
        }
    }
    best
}

/// Whether the first of two processors with their hints comes before the second.
fn is_less_busy(last: CpuId, cpu: CpuId, hint: u8, other: CpuId, other_hint: u8) -> bool
    ensures { result ≡ is_less_busy last cpu hint other other_hint }
{
    if hint == other_hint {
        other.0 != last.0 && (cpu.0 == last.0 || cpu.0 < other.0)
    } else {
        hint < other_hint
    }
}

/// The index of the greatest hint, and of the least number where it stands several times.
fn busiest(cpus: &[CpuId], hints: &[u8]) -> usize
    requires some { 0 < length cpus.now }
    requires hints { length cpus.now ≡ length hints.now }
    ensures within { result < length cpus.now }
    ensures best { IsBusiestAt cpus.now hints.now (length cpus.now) result }
{
    let mut best = 0;
    for i in 1..cpus.len() {
        if is_busier(cpus[i], hints[i], cpus[best], hints[best]) {
            best = i;
        }
    }
    best
}

/// Whether the first of two processors with their hints comes before the second as the one from which a thread is stolen: the one with the greater
/// hint, and of equal hints the one with the lesser number.
#[inline(always)]
pub fn is_busier(cpu: CpuId, hint: u8, other: CpuId, other_hint: u8) -> bool
    ensures { result ≡ is_busier cpu hint other other_hint }
{
    if hint == other_hint {
        cpu.0 < other.0
    } else {
        other_hint < hint
    }
}
