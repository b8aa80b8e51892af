//! The dispatch tables of a workload, each as a block.

ghost use Rattle.std.specs.Prelude.{◌≡◌, ◌++◌, OnErr, OnOk, codes};
ghost use Rattle.sd_dispadmin.specs.TableSpelling.{fixed_text, ts_text};
ghost use Rattle.sd_canonical.specs.Blocks.{block_text, tables_text};

use sd_dispadmin::{write_fixed, write_ts};
use sd_types::{FixedTable, TsTable, Work};
use std::alloc::{AllocError, Global};

fn put_ts_block(alloc: Global, t: &TsTable, out: &mut Vec<u8>) -> Result<(), AllocError>
    ensures { OnOk result (out.new.items ≡ out.old.items ++ block_text (codes "ts") (ts_text t.now)) }
{
    out.extend_from_slice(b"table ts\n")?;
    write_ts(alloc, t, out)?;
    out.extend_from_slice(b"end\n")
}

// A table of another class, which has this name.
fn put_fixed_block(
    alloc: Global,
    name: &[u8],
    t: &FixedTable,
    out: &mut Vec<u8>,
) -> Result<(), AllocError>
    ensures { OnOk result (out.new.items ≡ out.old.items ++ block_text name.now (fixed_text t.now)) }
{
    out.extend_from_slice(b"table ")?;
    out.extend_from_slice(name)?;
    out.extend_from_slice(b"\n")?;
    write_fixed(alloc, t, out)?;
    out.extend_from_slice(b"end\n")
}

/// The three tables.
#[tactic(auto, unfolding(crate::specs::Blocks::tables_text))]
pub(crate) fn put_tables(alloc: Global, work: &Work, out: &mut Vec<u8>) -> Result<(), AllocError>
    ensures { OnOk result (out.new.items ≡ out.old.items ++ tables_text work.now) }
{
    put_ts_block(alloc, &work.ts, out)?;
    put_fixed_block(alloc, b"fx", &work.fx, out)?;
    put_fixed_block(alloc, b"rt", &work.rt, out)
}

/// Appends the three dispatch tables of a workload, each as a block that a workload text may have. Where memory runs out,
/// `out` is as it was.
pub fn write_tables(alloc: Global, work: &Work, out: &mut Vec<u8>) -> Result<(), AllocError>
    ensures ok { OnOk result (out.new.items ≡ out.old.items ++ tables_text work.now) }
    ensures err { OnErr result (out.new.items ≡ out.old.items) }
{
    let mut text = Vec::new(alloc);
    put_tables(alloc, work, &mut text)?;
    out.extend_from_slice(&text)
}
