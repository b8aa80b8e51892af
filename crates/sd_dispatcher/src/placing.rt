//! Threads that are put on a dispatch queue.
//!
//! Source: Solaris Internals (setbackdq, setfrontdq).

ghost use Rattle.std.specs.Prelude.{◌≡◌, ◌<◌, ◌^◌, [], ⊤};
ghost use Rattle.sd_machine.specs.Changes.{cpu_put, put, put_where, set_class};
ghost use Rattle.sd_state.specs.States.{eff_of};
ghost use Rattle.sd_dispatcher.specs.Touched.{put_parts_if};
ghost use Rattle.sd_store.specs.Parts.{put_parts};
ghost use Rattle.sd_store.specs.Words.{DoesBy, LacksBy};

use crate::bodies::eff_of;
use crate::marks::mark_over;
use sd_store::Store;
use sd_types::{ClassState, CpuId, Put, ThreadId, Work};

fn cpu_put(at: Put) -> CpuId
    ensures { result ≡ cpu_put at }
{
    match at {
        Put::Cpu(x) => x,
        Put::RealTime(x) => x,
    }
}

/// Entry `number` makes thread `t` of priority `m` runnable: puts it at the back of the queue, and marks the chosen processor where a
/// thread of a smaller priority runs there.
#[tactic(auto, unfolding(sd_machine::specs::Changes::put))]
fn put_as<S: Store>(
    work: &Work,
    x: &mut S,
    number: u64,
    t: ThreadId,
    m: u8,
    at: Put,
) -> Result<(), S::Lack>
    requires { number < 2 ^ 62 }
    ensures value { DoesBy number (S.shows x.old) (S.shows x.new) result (λ s. m ≡ eff_of s t.0) (λ s. put work.now s number t.0 at) }
    ensures lack { LacksBy number S.part (S.shows x.old) (S.has x.old) result (λ s. ⊤) (λ s. put_parts work.now t at) }
    ensures has { S.has x.new ≡ S.has x.old }
{
    x.enqueue(work, number, t, at)?;
    mark_over(x, cpu_put(at), m)
}

/// The same of a thread that has this class state from then on, and with it the priority `p`.
#[tactic(auto, unfolding(sd_machine::specs::Changes::put))]
pub fn put_with<S: Store>(
    work: &Work,
    x: &mut S,
    number: u64,
    t: ThreadId,
    class: ClassState,
    p: u8,
    at: Put,
) -> Result<(), S::Lack>
    requires { number < 2 ^ 62 }
    ensures value { DoesBy number (S.shows x.old) (S.shows x.new) result (λ s. p ≡ eff_of (set_class s t.0 class) t.0) (λ s. put work.now (set_class s t.0 class) number t.0 at) }
    ensures lack { LacksBy number S.part (S.shows x.old) (S.has x.old) result (λ s. ⊤) (λ s. put_parts work.now t at) }
    ensures has { S.has x.new ≡ S.has x.old }
{
    x.enqueue_as(work, number, t, class, at)?;
    mark_over(x, cpu_put(at), p)
}

/// The same of a thread of any priority.
pub fn put<S: Store>(
    work: &Work,
    x: &mut S,
    number: u64,
    t: ThreadId,
    at: Put,
) -> Result<(), S::Lack>
    requires { number < 2 ^ 62 }
    ensures value { DoesBy number (S.shows x.old) (S.shows x.new) result (λ s. ⊤) (λ s. put work.now s number t.0 at) }
    ensures lack { LacksBy number S.part (S.shows x.old) (S.has x.old) result (λ s. ⊤) (λ s. put_parts work.now t at) }
    ensures has { S.has x.new ≡ S.has x.old }
{
    let m = eff_of(x, t)?;
    put_as(work, x, number, t, m, at)
}

/// The same where the thread moves at all.
#[tactic(auto, unfolding(sd_machine::specs::Changes::put_where))]
pub fn put_where<S: Store>(
    work: &Work,
    x: &mut S,
    number: u64,
    t: ThreadId,
    at: Option<Put>,
) -> Result<(), S::Lack>
    requires { number < 2 ^ 62 }
    ensures value { DoesBy number (S.shows x.old) (S.shows x.new) result (λ s. ⊤) (λ s. put_where work.now s number t.0 at) }
    ensures lack { LacksBy number S.part (S.shows x.old) (S.has x.old) result (λ s. ⊤) (λ s. put_parts_if work.now t at) }
    ensures has { S.has x.new ≡ S.has x.old }
{
    match at {
        None => Ok(()),
        Some(at) => put(work, x, number, t, at),
    }
}
