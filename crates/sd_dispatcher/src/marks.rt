//! The marks of a processor, by which its running thread has to leave.
//!
//! Source: Solaris Internals (cpu_surrender).

ghost use Rattle.std.specs.Prelude.{◌≡◌, [], ◌∷◌, ⊤};
ghost use Rattle.sd_machine.specs.Changes.{mark_over, remark};
ghost use Rattle.sd_store.specs.Parts.{cpu_part, ready_parts};
ghost use Rattle.sd_store.specs.Words.{Does, Lacks};

use sd_store::Store;
use sd_types::CpuId;

/// A thread of priority `m` has come to processor `c`: marks it where a thread of a smaller priority runs.
#[tactic(auto, unfolding(sd_machine::specs::Changes::mark_over))]
pub fn mark_over<S: Store>(x: &mut S, c: CpuId, m: u8) -> Result<(), S::Lack>
    ensures value { Does (S.shows x.old) (S.shows x.new) result (λ s. ⊤) (λ s. mark_over s c.0 m) }
    ensures lack { Lacks S.part (S.shows x.old) (S.has x.old) result (λ s. cpu_part c ∷ []) }
    ensures has { S.has x.new ≡ S.has x.old }
{
    if let Some(p) = x.running_priority(c)? {
        if p < m {
            x.set_mark(c, m)?;
        }
    }
    Ok(())
}

/// The running thread's priority may have fallen: marks processor `c` where the best that is ready has a greater one.
#[tactic(auto, unfolding(sd_machine::specs::Changes::remark))]
pub fn remark<S: Store>(x: &mut S, c: CpuId) -> Result<(), S::Lack>
    ensures value { Does (S.shows x.old) (S.shows x.new) result (λ s. ⊤) (λ s. remark s c.0) }
    ensures lack { Lacks S.part (S.shows x.old) (S.has x.old) result (λ s. ready_parts s c) }
    ensures has { S.has x.new ≡ S.has x.old }
{
    if let Some(m) = x.ready_priority(c)? {
        if let Some(p) = x.running_priority(c)? {
            if p < m {
                x.set_mark(c, m)?;
            }
        }
    }
    Ok(())
}
