//! That numbers which were read of other processors have 8 bits, which their type says and no definition sees.

ghost use Rattle.std.specs.Prelude.{true, ◌≡◌};
ghost use Rattle.std.specs.List.{All, list_all};
ghost use Rattle.sd_entries.specs.Fitting.{hints_in_range};
ghost use Rattle.sd_program.specs.Certified.{HasBytes};

use sd_audit::in_range;
use sd_log::EntryLog;
use sd_types::Entry;

/// Those that were read for this entry have.
#[tactic(auto, unfolding(sd_entries::specs::Fitting::in_range))]
fn has_bytes(entry: &Entry)
    ensures { hints_in_range entry.now.hints ≡ true }
{
    in_range(entry);
}

/// The numbers that were read for these entries have 8 bits, and are at most 64 for each.
pub fn numbers_are_bytes(entries: &EntryLog)
    ensures { All HasBytes entries.now.items }
{
    for i in 0..entries.len() {
        let entry = entries.entry(i);
        has_bytes(&entry);
    }
}
