//! The canonical spelling of a whole workload.

ghost use Rattle.std.specs.Prelude.{◌≡◌, ◌++◌, OnErr, OnOk};
ghost use Rattle.sd_canonical.specs.Canonical.{canonical};

use crate::lines::{put_chans, put_locks, put_sets, put_settings};
use crate::scripts::put_scripts;
use crate::tables::put_tables;
use crate::threads::put_threads;
use sd_types::Work;
use std::alloc::{AllocError, Global};

fn put_work(alloc: Global, work: &Work, out: &mut Vec<u8>) -> Result<(), AllocError>
    ensures { OnOk result (out.new.items ≡ out.old.items ++ canonical work.now) }
{
    put_settings(work, out)?;
    put_sets(work, out)?;
    put_tables(alloc, work, out)?;
    put_locks(work, out)?;
    put_chans(work, out)?;
    put_threads(work, out)?;
    put_scripts(work, out)
}

/// Appends the canonical spelling of the workload: `cpus`, `hz` and `limit`; the sets, with their processors in the order
/// in which they were written; the three dispatch tables as blocks; the locks and the channels in order of number; the
/// threads, with the user priority that their limit allows and always with `uid`; and the scripts that are not empty, in
/// the order of the threads. Where memory runs out, `out` is as it was.
pub fn write_work(alloc: Global, work: &Work, out: &mut Vec<u8>) -> Result<(), AllocError>
    ensures ok { OnOk result (out.new.items ≡ out.old.items ++ canonical work.now) }
    ensures err { OnErr result (out.new.items ≡ out.old.items) }
{
    let mut text = Vec::new(alloc);
    put_work(alloc, work, &mut text)?;
    out.extend_from_slice(&text)
}
