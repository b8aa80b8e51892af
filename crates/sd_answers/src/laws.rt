//! What the definitions of cuts and certificates mean: laws, with nothing to run.

ghost use Rattle.std.specs.Prelude.{◌≡◌, ℕ, List};
ghost use Rattle.sd_types.specs.declared.works.Work.{Work};
ghost use Rattle.sd_workload.specs.Accepted.{Accepted};
ghost use Rattle.sd_answers.specs.Cuts.{HasNoJournal, IsCut};

/// No line of an accepted workload is the word `journal`, so the first such line of a certificate is the one behind its workload.
pub fn accepted_texts_have_no_journal()
    ensures { (text : List ℕ) (w : Work) → Accepted text w → HasNoJournal text }
{}

/// A text is cut in one way alone.
pub fn texts_have_one_cut()
    ensures { (text a b c d : List ℕ) → IsCut text a b → IsCut text c d → (a ≡ c) × (b ≡ d) }
{}

/// A text in which no line is the word `journal` is not cut.
pub fn texts_without_journal_have_no_cut()
    ensures { (text a b : List ℕ) → HasNoJournal text → IsCut text a b → ⊥ }
{}
