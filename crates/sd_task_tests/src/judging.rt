//! What is found of a task set, compared with what is wanted.
ghost use Rattle.std.specs.Prelude.{◌<◌, ◌^◌, length};

use sd_releases::{SetFault, expand};
use sd_tasks::WrittenLine;
use sd_workload::WorkCause;
use std::alloc::Global;

/// Whether the lines come from these lines, in order.
fn come_from(lines: &[WrittenLine], map: &[u32]) -> bool {
    if lines.len() != map.len() {
        return false;
    }
    lines
        .iter()
        .zip(map)
        .all(|(line, origin)| line.line == *origin)
}

/// Whether a set expands to this workload, whose lines come from these lines of the set.
pub fn expands_to(alloc: Global, set: &[u8], workload: &[u8], map: &[u32]) -> bool
    requires { length set.now < 2 ^ 31 }
{
    match expand(alloc, set) {
        Ok(found) => found.text.as_slice() == workload && come_from(&found.lines, map),
        Err(_) => false,
    }
}

/// Whether two causes are printed alike: the number of an operation at fault is that in the judged workload, and is not printed.
fn are_alike(one: WorkCause, other: WorkCause) -> bool {
    match (one, other) {
        (WorkCause::Script(one), WorkCause::Script(other)) => one.number() == other.number(),
        _ => one == other,
    }
}

/// Whether a set is refused at this line by this cause.
pub fn is_refused(alloc: Global, set: &[u8], line: u32, cause: WorkCause) -> bool
    requires { length set.now < 2 ^ 31 }
{
    match expand(alloc, set) {
        Err(
            SetFault::At {
                line: at,
                cause: found,
            },
        ) => at == line && are_alike(found, cause),
        _ => false,
    }
}
