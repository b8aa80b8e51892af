//! What the canonical spelling of a workload is accepted as: laws, with nothing to run.

ghost use Rattle.std.specs.Prelude.{◌≡◌, ℕ, List};
ghost use Rattle.sd_types.specs.declared.works.Work.{Work};
ghost use Rattle.sd_workload.specs.Accepted.{Accepted};
ghost use Rattle.sd_canonical.specs.Canonical.{canonical};
ghost use Rattle.sd_canonical.specs.Valid.{IsValid};

/// The canonical spelling of a valid workload is accepted as that workload.
pub fn canonical_texts_are_accepted()
    ensures { (w : Work) → IsValid w → Accepted (canonical w) w }
{}

/// A workload as which a text is accepted is valid.
pub fn accepted_works_are_valid()
    ensures { (text : List ℕ) (w : Work) → Accepted text w → IsValid w }
{}

/// The canonical spelling tells the workload: two valid workloads with one spelling are one workload.
pub fn canonical_texts_tell_works()
    ensures { (w v : Work) → IsValid w → IsValid v → canonical w ≡ canonical v → w ≡ v }
{}
