//! The names of a workload, to find them by.

ghost use Rattle.std.specs.Prelude.{◌≡◌, map, IfOk, IsTrue};
ghost use Rattle.sd_types.specs.Works.{is_distinct, same_bytes};

use sd_lines::NameIndex;
use sd_types::{ChanKind, LockKind, Name, ThreadDecl, Work};
use std::alloc::{AllocError, Global};

/// A workload with the names of its threads, locks and channels to find them by. The sets are eight at most, and sought from
/// the first.
#[derive(Drop)]
pub struct Names<'a> {
    pub work: &'a Work,
    pub threads: NameIndex,
    pub locks: NameIndex,
    pub chans: NameIndex,
    ghost threads_named: { threads ≡ map (λ t. t.name.text.items) work.now.threads },
    ghost locks_named: { locks ≡ map (λ l. l.0.text.items) work.now.locks },
    ghost chans_named: { chans ≡ map (λ k. k.0.text.items) work.now.chans },
}

fn thread_names(alloc: Global, threads: &[ThreadDecl]) -> Result<NameIndex, AllocError>
    requires { IsTrue (is_distinct same_bytes (map (λ t. t.name.text.items) threads.now)) }
    ensures { IfOk result (λ names. names ≡ map (λ t. t.name.text.items) threads.now) }
{
    let mut names = NameIndex::new(alloc);
    for thread in threads {
        names.push(thread.name.bytes())?;
    }
    Ok(names)
}

fn lock_names(alloc: Global, locks: &[(Name, LockKind)]) -> Result<NameIndex, AllocError>
    requires { IsTrue (is_distinct same_bytes (map (λ l. l.0.text.items) locks.now)) }
    ensures { IfOk result (λ names. names ≡ map (λ l. l.0.text.items) locks.now) }
{
    let mut names = NameIndex::new(alloc);
    for lock in locks {
        names.push(lock.0.bytes())?;
    }
    Ok(names)
}

fn chan_names(alloc: Global, chans: &[(Name, ChanKind)]) -> Result<NameIndex, AllocError>
    requires { IsTrue (is_distinct same_bytes (map (λ k. k.0.text.items) chans.now)) }
    ensures { IfOk result (λ names. names ≡ map (λ k. k.0.text.items) chans.now) }
{
    let mut names = NameIndex::new(alloc);
    for chan in chans {
        names.push(chan.0.bytes())?;
    }
    Ok(names)
}

impl<'a> Names<'a> {
    /// The names of a workload, each put in once.
    pub fn new(alloc: Global, work: &'a Work) -> Result<Names<'a>, AllocError>
        ensures { IfOk result (λ names. names.work.now ≡ work.now) }
    {
        Ok(Names {
            work,
            threads: thread_names(alloc, work.threads.items())?,
            locks: lock_names(alloc, work.locks.items())?,
            chans: chan_names(alloc, work.chans.items())?,
        })
    }
}
