//! The settings: processors, ticks of a second, ticks of each processor.

ghost use Rattle.std.specs.Prelude.{◌≡◌, None, Some, OnErr, OnOk, IfErr};
ghost use Rattle.sd_declare.specs.Causes.{least};
ghost use Rattle.sd_declare.specs.Statements.{cpus_causes, hz_causes, limit_causes};
ghost use Rattle.sd_declare.specs.Kept.{declarations};

use crate::{Declared, WorkCause};
use sd_types::{GREATEST_LIMIT, MOST_PROCESSORS};

/// `cpus N`: 1 to 64, before the first set.
pub fn take_cpus(d: &mut Declared, n: u64) -> Result<(), WorkCause>
    ensures ok { OnOk result (least (cpus_causes (declarations d.old) n) ≡ None) }
    ensures err { IfErr result (λ cause. least (cpus_causes (declarations d.old) n) ≡ Some cause) }
    ensures new { OnOk result (declarations d.new ≡ record (declarations d.old) { cpus = Some n }) }
    ensures kept { OnErr result (declarations d.new ≡ declarations d.old) }
{
    if !d.sets.is_empty() {
        return Err(WorkCause::Syntax);
    }
    if d.cpus.is_some() {
        return Err(WorkCause::Twice);
    }
    if !(1 <= n && n <= MOST_PROCESSORS as u64) {
        return Err(WorkCause::Range);
    }
    d.cpus = Some(n as u16);
    Ok(())
}

/// `hz N`: 100 or 1000.
pub fn take_hz(d: &mut Declared, n: u64) -> Result<(), WorkCause>
    ensures ok { OnOk result (least (hz_causes (declarations d.old) n) ≡ None) }
    ensures err { IfErr result (λ cause. least (hz_causes (declarations d.old) n) ≡ Some cause) }
    ensures new { OnOk result (declarations d.new ≡ record (declarations d.old) { hz = Some n }) }
    ensures kept { OnErr result (declarations d.new ≡ declarations d.old) }
{
    if d.hz.is_some() {
        return Err(WorkCause::Twice);
    }
    if !(n == 100 || n == 1000) {
        return Err(WorkCause::Range);
    }
    d.hz = Some(n as u32);
    Ok(())
}

/// `limit N`: 1 to 100,000.
pub fn take_limit(d: &mut Declared, n: u64) -> Result<(), WorkCause>
    ensures ok { OnOk result (least (limit_causes (declarations d.old) n) ≡ None) }
    ensures err { IfErr result (λ cause. least (limit_causes (declarations d.old) n) ≡ Some cause) }
    ensures new { OnOk result (declarations d.new ≡ record (declarations d.old) { limit = Some n }) }
    ensures kept { OnErr result (declarations d.new ≡ declarations d.old) }
{
    if d.limit.is_some() {
        return Err(WorkCause::Twice);
    }
    if !(1 <= n && n <= u64::from(GREATEST_LIMIT)) {
        return Err(WorkCause::Range);
    }
    d.limit = Some(n as u32);
    Ok(())
}
