//! The system class: its threads have no quantum, and neither a tick nor a wakeup changes them.

ghost use Rattle.std.specs.Prelude.{◌≡◌, ◌≤◌};
ghost use Rattle.sd_types.specs.declared.classes.ClassState.TheVariants.{Sys};
ghost use Rattle.sd_types.specs.Priorities.{base_of};

use sd_types::SysState;

/// The base priority, 60 to 99: the thread's own.
pub fn sys_global(s: &SysState) -> u8
    ensures value { result ≡ base_of (Sys s.now) }
    ensures least { 60 ≤ result }
    ensures most { result ≤ 99 }
{
    s.base()
}
