//! What a change of the state leaves as it was: each home that it does not name stands for its part as before. Laws of every
//! state, whatever home it is; there is nothing to run.

ghost use Rattle.std.specs.Prelude.{◌≡◌, ◌≢◌, ℕ, ◌<◌, ◌≤◌, ◌%◌, List, length};
ghost use Rattle.sd_types.specs.declared.bodies.ThreadBody.{ThreadBody as BodyOf};
ghost use Rattle.sd_types.specs.declared.numbers.ChanId.{ChanId as ChanIdOf};
ghost use Rattle.sd_types.specs.declared.numbers.CpuId.{CpuId as CpuIdOf};
ghost use Rattle.sd_types.specs.declared.numbers.HomeId.TheVariants.{Chain, Cpu, RealTime, Sleepers};
ghost use Rattle.sd_types.specs.declared.numbers.LockId.{LockId as LockIdOf};
ghost use Rattle.sd_types.specs.declared.numbers.SetId.{SetId as SetIdOf};
ghost use Rattle.sd_state.specs.declared.states.CpuState.{CpuState as CpuStateOf};
ghost use Rattle.sd_state.specs.declared.states.LockState.{LockState as LockStateOf};
ghost use Rattle.sd_state.specs.declared.states.Place.{Place as PlaceOf};
ghost use Rattle.sd_state.specs.declared.states.State.{State as StateOf};
ghost use Rattle.sd_state.specs.declared.states.ThreadState.{ThreadState as ThreadStateOf};
ghost use Rattle.sd_state.specs.States.{cpu_of, thread_of, with_cpu, with_thread};
ghost use Rattle.sd_machine.specs.Changes.{bind, close, join, leave, run_on, unbind, with_body, with_place};
ghost use Rattle.sd_machine.specs.Threads.{with_count, with_lock, with_open};
ghost use Rattle.sd_store.specs.Parts.{view_of};
ghost use Rattle.sd_homes.specs.Standing.{home_of, home_of_place};
ghost use Rattle.sd_homes.specs.declared.home.Home.{Home as HomeOf};
ghost use Rattle.sd_hand.specs.Frames.{IsNot, Stays};

/// A thread changes: the homes stand that it neither stood in nor stands in, and the other threads are as they were.
pub fn threads_keep_other_homes()
    ensures homes { (n m : ℕ) (s : StateOf) (t : ℕ) (y : ThreadStateOf) (h : HomeOf) → n ≤ m → t < length s.threads
        → IsNot (home_of (thread_of s t)) h → IsNot (home_of y) h → Stays n m s (with_thread s t y) h }
    ensures threads { (s : StateOf) (t u : ℕ) (y : ThreadStateOf) → u ≢ t → thread_of (with_thread s t y) u ≡ thread_of s u }
    ensures body { (n : ℕ) (s : StateOf) (t : ℕ) (b : BodyOf) (h : HomeOf) → t < length s.threads → b.last ≡ (thread_of s t).body.last
        → IsNot (home_of (thread_of s t)) h → Stays n n s (with_body s t b) h }
    ensures place { (n m : ℕ) (s : StateOf) (t : ℕ) (place : PlaceOf) (h : HomeOf) → n ≤ m → t < length s.threads
        → IsNot (home_of (thread_of s t)) h → IsNot (home_of_place place (thread_of s t).body.last) h → Stays n m s (with_place s t place) h }
    ensures run { (n : ℕ) (s : StateOf) (t : ℕ) (c : CpuIdOf) (h : HomeOf) → t < length s.threads
        → IsNot (home_of (thread_of s t)) h → IsNot (Cpu c) h → Stays n n s (run_on s t c) h }
    ensures leave { (n m : ℕ) (s : StateOf) (t : ℕ) (c : CpuIdOf) (place : PlaceOf) (h : HomeOf) → n ≤ m → t < length s.threads
        → IsNot (home_of (thread_of s t)) h → IsNot (home_of_place place (thread_of s t).body.last) h → IsNot (Cpu c) h → Stays n m s (leave s c.0 t place) h }
{}

/// A processor changes: the other homes stand, and where its marks, its set and its bindings stay, all do: its count and its
/// duty are no home's.
pub fn processors_keep_other_homes()
    ensures homes { (n : ℕ) (s : StateOf) (c : CpuIdOf) (z : CpuStateOf) (h : HomeOf) → IsNot (Cpu c) h → Stays n n s (with_cpu s c.0 z) h }
    ensures actor { (n : ℕ) (s : StateOf) (c : CpuIdOf) (z : CpuStateOf) (h : HomeOf) → view_of z ≡ view_of (cpu_of s c.0) → Stays n n s (with_cpu s c.0 z) h }
    ensures bind { (n : ℕ) (s : StateOf) (t : ℕ) (d : CpuIdOf) (h : HomeOf) → t < length s.threads → IsNot (home_of (thread_of s t)) h → IsNot (Cpu d) h → Stays n n s (bind s t d) h }
    ensures unbind { (n : ℕ) (s : StateOf) (t : ℕ) (b : CpuIdOf) (h : HomeOf) → t < length s.threads → IsNot (home_of (thread_of s t)) h → IsNot (Cpu b) h → Stays n n s (unbind s t b) h }
    ensures close { (n : ℕ) (s : StateOf) (d : CpuIdOf) (to : SetIdOf) (h : HomeOf) → IsNot (Cpu d) h → IsNot (RealTime (cpu_of s d.0).set) h → Stays n n s (close s d to) h }
    ensures join { (n : ℕ) (s : StateOf) (c : CpuIdOf) (set : SetIdOf) (h : HomeOf) → IsNot (Cpu c) h → IsNot (RealTime set) h → Stays n n s (join s c set) h }
{}

/// A lock, a count or the open list of a set changes: the other homes stand.
pub fn locks_keep_other_homes()
    ensures lock { (n : ℕ) (s : StateOf) (l : LockIdOf) (x : LockStateOf) (h : HomeOf) → IsNot (Chain (l.0 % 64)) h → Stays n n s (with_lock s l.0 x) h }
    ensures count { (n : ℕ) (s : StateOf) (k : ChanIdOf) (tokens : ℕ) (h : HomeOf) → IsNot (Sleepers (k.0 % 64)) h → Stays n n s (with_count s k.0 tokens) h }
    ensures open_cpus { (n : ℕ) (s : StateOf) (p : SetIdOf) (cpus : List CpuIdOf) (h : HomeOf) → IsNot (RealTime p) h → Stays n n s (with_open s p.0 cpus) h }
{}
