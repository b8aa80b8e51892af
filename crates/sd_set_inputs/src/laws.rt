//! What the language of task sets means: laws, with nothing to run.

ghost use Rattle.std.specs.Prelude.{◌≡◌, ℕ, List};
ghost use Rattle.sd_types.specs.declared.works.Work.{Work};
ghost use Rattle.sd_workload.specs.Accepted.{Accepted};
ghost use Rattle.sd_answers.specs.Languages.{IsSound};
ghost use Rattle.sd_set_inputs.specs.Sets.{SpellsSet, StandsFor, sets};

/// A text spells one workload at most, and none where it is refused.
pub fn sets_are_sound()
    ensures { IsSound sets }
{}

/// An accepted workload stands for itself alone, so it is read as a program reads it that knows no sets.
pub fn workloads_stand_for_themselves()
    ensures spelled { (text : List ℕ) (w : Work) → Accepted text w → SpellsSet text w }
    ensures alone { (text base : List ℕ) (w : Work) → Accepted text w → StandsFor text base → base ≡ text }
{}
