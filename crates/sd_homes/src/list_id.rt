//! The lists in which threads stand.

use sd_types::{ChanId, CpuId, LockId, SetId, Side};

/// A list of threads: those that run on a processor (at most one), those on its queue, those on the real-time queue of a
/// partition, those that wait for a lock at a side, that sleep on a channel, that nap on a processor, and those that have
/// ended and ran there last.
#[derive(Clone, Copy)]
pub enum ListId {
    Runs(CpuId),
    Queues(CpuId),
    Urgent(SetId),
    Waits(LockId, Side),
    Sleeps(ChanId),
    Naps(CpuId),
    Ends(CpuId),
}
