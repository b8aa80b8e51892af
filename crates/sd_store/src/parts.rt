//! What a store may lack, and what it tells of a processor.

use sd_types::{CpuId, HomeId, SetId, ThreadId};

/// A part of a state: a home, the home in which a thread stands, or the count and the duty of a processor, which
/// belong to the processor that acts and to no home.
#[derive(Clone, Copy)]
pub enum Part {
    Home(HomeId),
    Thread(ThreadId),
    Actor(CpuId),
}

/// A processor without its count and its duty: its user and kernel mark, its set, the set that it is closing to, and
/// the number of threads that are bound to it.
#[derive(Clone, Copy)]
pub struct CpuView {
    pub user: bool,
    pub kernel: bool,
    pub set: SetId,
    pub closing: Option<SetId>,
    pub bound: u16,
}
