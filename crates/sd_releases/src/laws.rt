//! What the definitions of expansions mean: laws, with nothing to run.

ghost use Rattle.std.specs.Prelude.{◌≡◌, ℕ, ◌≤◌, List, length};
ghost use Rattle.sd_types.specs.Limits.{most_workload_bytes};
ghost use Rattle.sd_declare.specs.Declarations.{Declarations};
ghost use Rattle.sd_workload.specs.Texts.{Accepts, verdict_of};
ghost use Rattle.sd_tasks.specs.Written.{Written, text_of};
ghost use Rattle.sd_releases.specs.Verdicts.{Expands, set_verdict};

/// What an accepted set expands to is an accepted workload of no more bytes than one may have.
pub fn expansions_are_accepted()
    ensures accepted { (text : List ℕ) (lines : List Written) → set_verdict text ≡ Expands lines → (d : Declarations) × (verdict_of (text_of lines) ≡ Accepts d) }
    ensures short { (text : List ℕ) (lines : List Written) → set_verdict text ≡ Expands lines → length (text_of lines) ≤ most_workload_bytes }
{}
