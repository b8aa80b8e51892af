//! Where a look-up begins. Whatever a guide says, a look-up finds what is there: a guide makes it short.

ghost use Rattle.std.specs.Prelude.{◌≡◌, slice_get};
ghost use Rattle.std.specs.Option.{option_copied};

use sd_homes::ListId;
use sd_types::ThreadId;
use std::alloc::Global;

/// How many processors and sets there are, where their homes lie in the order of their numbers, and the list to which each thread came
/// last.
#[derive(Drop)]
pub struct Guide {
    cpus: usize,
    sets: usize,
    lists: Vec<ListId>,
}

impl Guide {
    /// A guide that knows nothing.
    pub(crate) fn new(alloc: Global) -> Guide {
        Guide {
            cpus: 0,
            sets: 0,
            lists: Vec::new(alloc),
        }
    }

    /// A guide to homes that lie in the order of their numbers: those of so many processors, then so many sets, then the chains of
    /// turnstiles and those of sleep queues; and to threads that stand in these lists.
    pub fn of(cpus: usize, sets: usize, lists: Vec<ListId>) -> Guide {
        Guide { cpus, sets, lists }
    }

    /// How many processors there are.
    pub(crate) fn cpus(&self) -> usize {
        self.cpus
    }

    /// How many sets there are.
    pub(crate) fn sets(&self) -> usize {
        self.sets
    }

    /// The list to which the thread came last.
    #[inline(always)]
    pub(crate) fn list(&self, t: ThreadId) -> Option<&ListId>
        ensures { option_copied result ≡ slice_get self.now.lists.items t.0 }
    {
        self.lists.get(t.0 as usize)
    }

    /// The thread has come to this list.
    #[inline(always)]
    pub(crate) fn note(&mut self, t: ThreadId, at: ListId) {
        if let Some(list) = self.lists.get_mut(t.0 as usize) {
            *list = at;
        }
    }
}
