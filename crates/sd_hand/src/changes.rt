//! The steps of which the changes of a state by a hand are composed. Each tells what it makes of every state that is shown.

ghost use Rattle.std.specs.Prelude.{◌≡◌, ℕ, ◌≤◌, [], ◌∷◌, ⊤, IfErr, IfOk};
ghost use Rattle.sd_types.specs.declared.numbers.HomeId.TheVariants.{RealTime};
ghost use Rattle.sd_state.specs.declared.states.CpuState.{CpuState as CpuStateOf};
ghost use Rattle.sd_state.specs.declared.states.State.{State as StateOf};
ghost use Rattle.sd_state.specs.declared.states.ThreadState.{ThreadState as ThreadStateOf};
ghost use Rattle.sd_state.specs.States.{cpu_of, thread_of, with_cpu, with_thread};
ghost use Rattle.sd_machine.specs.Changes.{marked, set_duty, unmarked, with_body, with_cpu_in, without_cpu};
ghost use Rattle.sd_machine.specs.Needs.{CanJoin};
ghost use Rattle.sd_machine.specs.Threads.{open_of, with_open};
ghost use Rattle.sd_store.specs.Parts.{actor_part, view_of};
ghost use Rattle.sd_store.specs.Words.{Does, Keeps, Lacks};
ghost use Rattle.sd_homes.specs.declared.list_id.ListId.{ListId as ListIdOf};
ghost use Rattle.sd_homes.specs.Standing.{home_at, list_of, look_of, record_of, without, MayCome};
ghost use Rattle.sd_hand.specs.Acting.{IsShown, has_part, the_part};
ghost use Rattle.sd_hand.specs.Going.{GoesFor};
ghost use Rattle.sd_hand.specs.Hands.{HasRoom, IsHeld, Seeks};
ghost use Rattle.sd_hand.specs.Shown.{IsListThere, StandsAt};
ghost use Rattle.sd_hand.specs.Steps.{stepped};

use crate::acting::Acting;
use crate::steps::Step;
use sd_homes::{IsFull, ListId};
use sd_store::{CpuView, Part};
use sd_types::{CpuId, Duty, REAL_TIME_PRIORITY, SetId, ThreadId};

impl Acting {
    /// Gives processor `c` a duty.
    pub(crate) fn give(&mut self, c: CpuId, duty: Duty) -> Result<(), Part>
        ensures value { Does (IsShown self.old) (IsShown self.new) result (λ s. ⊤) (λ s. set_duty s c.0 duty) }
        ensures lack { Lacks the_part (IsShown self.old) (has_part self.old) result (λ s. actor_part c ∷ []) }
        ensures kept { Keeps (IsShown self.old) (IsShown self.new) result }
        ensures has { has_part self.new ≡ has_part self.old }
    {
        if c.0 != self.actor.cpu.0 {
            return Err(Part::Actor(c));
        }
        self.actor.duty = duty;
        Ok(())
    }

    /// Changes the marks, the set and the bindings of processor `c`, whose home is held.
    pub(crate) fn set_view(&mut self, c: CpuId, view: CpuView)
        ensures value { (n : ℕ) (s : StateOf) (z : CpuStateOf) → IsShown self.old n s → view ≡ view_of z → z.count ≡ (cpu_of s c.0).count → z.duty ≡ (cpu_of s c.0).duty
            → IsShown self.new n (with_cpu s c.0 z) }
        ensures has { has_part self.new ≡ has_part self.old }
    {
        self.hand.set_view(c, view);
    }

    /// Clears both marks of processor `c`, whose home is held and has this view.
    pub(crate) fn unmark(&mut self, c: CpuId, view: CpuView)
        ensures value { (n : ℕ) (s : StateOf) → IsShown self.old n s → view ≡ view_of (cpu_of s c.0) → IsShown self.new n (with_cpu s c.0 (unmarked (cpu_of s c.0))) }
        ensures has { has_part self.new ≡ has_part self.old }
    {
        self.set_view(c, unmarked(view));
    }

    /// Thread `t`, if it stands there, goes to another list, and changes on the way.
    #[inline(always)]
    pub(crate) fn relocate(&mut self, t: ThreadId, from: ListId, step: Step, to: ListId)
        ensures value { (n m : ℕ) (s : StateOf) (z : ThreadStateOf) → IsShown self.old n s → n ≤ m → StandsAt s t.0 from → IsHeld (home_at from) self.old.hand.slots
            → list_of z ≡ to → record_of t.0 z ≡ stepped step (record_of t.0 (thread_of s t.0)) → MayCome n m (without t.0 (look_of s)) to z → IsListThere to
            → IsShown self.new m (with_thread s t.0 z) }
        ensures has { IsHeld (home_at to) self.old.hand.slots → IsListThere to → HasRoom t.0 from to self.old.hand.slots → has_part self.new ≡ has_part self.old }
    {
        self.hand.relocate(t, from, &step, to);
    }

    /// Thread `t` goes from the list in which it stands to another one, and changes on the way. It is lacking where no held home has it; then
    /// all stays as it was.
    pub(crate) fn relocate_found(&mut self, t: ThreadId, step: Step, to: ListId) -> Result<(), Part>
        ensures value { Seeks t self.old.hand.slots result (λ _. GoesFor self.old self.new t step to) }
        ensures has { IfOk result (λ _. IsHeld (home_at to) self.old.hand.slots → IsListThere to → ((from : ListIdOf) → HasRoom t.0 from to self.old.hand.slots) → has_part self.new ≡ has_part self.old) }
        ensures kept { IfErr result (λ _. self.new ≡ self.old) }
    {
        match self.hand.relocate_found(t, &step, to) {
            Err(q) => Err(q),
            Ok(_) => Ok(()),
        }
    }

    /// Processor `d` is no more one of the open ones of set `p`.
    pub(crate) fn shut(&mut self, p: SetId, d: CpuId)
        ensures value { (n : ℕ) (s : StateOf) → IsShown self.old n s → IsHeld (RealTime p) self.old.hand.slots → IsShown self.new n (with_open s p.0 (without_cpu d (open_of s p.0))) }
        ensures has { IsHeld (RealTime p) self.old.hand.slots → has_part self.new ≡ has_part self.old }
    {
        self.hand.close(p, d);
    }

    /// Processor `c` is one of the open ones of set `p` from now on, unless their list is full.
    pub(crate) fn open(&mut self, p: SetId, c: CpuId) -> Result<(), IsFull>
        ensures value { IfOk result (λ _. (n : ℕ) (s : StateOf) → IsShown self.old n s → IsHeld (RealTime p) self.old.hand.slots → IsShown self.new n (with_open s p.0 (with_cpu_in c (open_of s p.0)))) }
        ensures full { IfErr result (λ _. (n : ℕ) (s : StateOf) → IsShown self.old n s → CanJoin s p → ⊥) }
        ensures has { IsHeld (RealTime p) self.old.hand.slots → has_part self.new ≡ has_part self.old }
    {
        self.hand.open(p, c)
    }

    /// Thread `t`, which stands there, is bound to a processor, or to none.
    pub(crate) fn bind_at(&mut self, t: ThreadId, at: ListId, bound: Option<CpuId>)
        ensures value { (n : ℕ) (s : StateOf) → IsShown self.old n s → StandsAt s t.0 at → IsHeld (home_at at) self.old.hand.slots
            → IsShown self.new n (with_body s t.0 (record (thread_of s t.0).body { bound = bound })) }
        ensures has { has_part self.new ≡ has_part self.old }
    {
        self.hand.bind_at(t, at, bound);
    }
}

/// Both marks are cleared.
pub(crate) fn unmarked(view: CpuView) -> CpuView
    ensures { (z : CpuStateOf) → view ≡ view_of z → result ≡ view_of (unmarked z) }
{
    CpuView {
        user: false,
        kernel: false,
        ..view
    }
}

/// Marked for the sake of a thread of priority `m`: the kernel's mark from 100 on, else the user's.
pub(crate) fn marked(m: u8, view: CpuView) -> CpuView
    ensures { (z : CpuStateOf) → view ≡ view_of z → result ≡ view_of (marked m z) }
{
    if m >= REAL_TIME_PRIORITY {
        CpuView {
            kernel: true,
            ..view
        }
    } else {
        CpuView { user: true, ..view }
    }
}
