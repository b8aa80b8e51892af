//! Which texts are accepted as workloads: laws, with nothing to run.

ghost use Rattle.std.specs.Prelude.{ℕ, List, ◌⊎◌, IsTrue};
ghost use Rattle.std.specs.List.{list_all};
ghost use Rattle.sd_types.specs.declared.works.Work.{Work};
ghost use Rattle.sd_declare.specs.declared.causes.WorkCause.{WorkCause};
ghost use Rattle.sd_workload.specs.Accepted.{Accepted, FirstCause};
ghost use Rattle.sd_text.specs.Lines.{lines_of};
ghost use Rattle.sd_gen.specs.Generated.{generated};
ghost use Rattle.sd_gen.specs.Plain.{is_plain_line};

/// Each text is accepted as a workload or has a first cause. That it is never both, nor accepted as two workloads, are
/// laws of `sd_workload`.
pub fn texts_are_accepted_or_refused()
    ensures { (text : List ℕ) → ((w : Work) × Accepted text w) ⊎ ((line : ℕ) × ((cause : WorkCause) × FirstCause text line cause)) }
{}

/// Each generated text is accepted as a workload.
pub fn generated_texts_are_accepted()
    ensures { (n : ℕ) → (w : Work) × Accepted (generated n) w }
{}

/// Outside comments an accepted text has only blanks and printable ASCII.
pub fn accepted_texts_are_plain()
    ensures { (text : List ℕ) (w : Work) → Accepted text w → IsTrue (list_all is_plain_line (lines_of text)) }
{}
