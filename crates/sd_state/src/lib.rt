//! The states of the dispatcher machine: their types, the initial state, the best of a queue, and what laws say of states, as definitions
//! and lemmas that contracts cite. There is no code here but the types.
#![tactic(auto)]

mod states;

pub use states::{CpuState, LockState, Place, State, ThreadState};
