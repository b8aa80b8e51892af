//! The plain types that all crates of dispsim share: numbers of things, class states, dispatch tables,
//! scripts, works, events and entries. A type keeps the facts that make its values meaningful,
//! so whoever holds a value has them. With the types stand the rules that several crates call: base and effective
//! priorities, what a thread inherits and which locks it holds, and whether an event takes a tick.
#![tactic(auto)]

mod bodies;
mod classes;
mod events;
mod inheritance;
mod limits;
mod lists;
mod names;
mod numbers;
mod priorities;
mod scripts;
mod tables;
mod works;

pub use bodies::ThreadBody;
pub use classes::{Class, ClassParms, ClassState, FxState, Quantum, RtState, SysState, TsState};
pub use events::{
    AssignAnswer, BindAnswer, Denied, Duty, End, Entry, Event, Hints, PrioAnswer, Put, Stop, Which,
};
pub use limits::{
    GREATEST_LIMIT, GREATEST_RESOLUTION, GREATEST_SPAN, MOST_CERTIFICATE_BYTES, MOST_ENTRIES,
    MOST_HELD, MOST_NAME_BYTES, MOST_OBJECTS, MOST_OPERATIONS, MOST_OPERATIONS_OF_ALL, MOST_PAIRS,
    MOST_PROCESSORS, MOST_QUANTUM_TICKS, MOST_QUANTUM_UNITS, MOST_SETS, MOST_THREADS, MOST_TICKS,
    MOST_WORKLOAD_BYTES,
};
pub use lists::List;
pub use names::Name;
pub use numbers::{
    ChanId, CpuId, HomeId, LockId, SetId, Side, ThreadId, home_of_chan, home_of_lock,
};
pub use priorities::{REAL_TIME_PRIORITY, greatest_willed};
pub use scripts::{Op, Request, Script, without_lock};
pub use tables::{FixedRow, FixedTable, TsRow, TsTable};
pub use works::{ChanKind, LockKind, ThreadDecl, Work};
