//! What the definitions of workload texts mean: laws, with nothing to run.

ghost use Rattle.std.specs.Prelude.{◌≡◌, ℕ, List, ◌⊎◌, ◌↔◌};
ghost use Rattle.sd_types.specs.declared.works.Work.{Work};
ghost use Rattle.sd_dispadmin.specs.TableText.{word_lines};
ghost use Rattle.sd_declare.specs.declared.causes.WorkCause.{WorkCause};
ghost use Rattle.sd_declare.specs.Declarations.{Declarations};
ghost use Rattle.sd_workload.specs.Accepted.{Accepted, FirstCause, HaveSameParts};
ghost use Rattle.sd_workload.specs.First.{IsFirst, AllTaken};
ghost use Rattle.sd_workload.specs.Texts.{Accepts, verdict_of};

/// Each text declares a workload or has a first cause, and never both; and it has one first cause alone.
pub fn texts_have_one_answer()
    ensures one { (text : List ℕ) → ((d : Declarations) × (verdict_of text ≡ Accepts d)) ⊎ ((line : ℕ) × ((cause : WorkCause) × FirstCause text line cause)) }
    ensures never_both { (text : List ℕ) (w : Work) (line : ℕ) (cause : WorkCause) → Accepted text w → FirstCause text line cause → ⊥ }
    ensures same { (text : List ℕ) (a b : ℕ) (c e : WorkCause) → FirstCause text a c → FirstCause text b e → (a ≡ b) × (c ≡ e) }
{}

/// The first cause is that of the first line at fault, judged by what stands above it, or that of the end of the input;
/// and a text declares a workload where nothing is at fault.
pub fn causes_are_first()
    ensures refused { (text : List ℕ) (line : ℕ) (cause : WorkCause) → FirstCause text line cause ↔ IsFirst (word_lines text) line cause }
    ensures accepted { (text : List ℕ) (d : Declarations) → (verdict_of text ≡ Accepts d) ↔ AllTaken (word_lines text) d }
{}

/// Two workloads with the same parts are one, though their values keep facts besides: facts are propositions.
pub fn works_are_their_parts()
    ensures { (w v : Work) → HaveSameParts w v → w ≡ v }
{}

/// A text is accepted as at most one workload.
pub fn texts_have_one_work()
    ensures { (text : List ℕ) (w v : Work) → Accepted text w → Accepted text v → w ≡ v }
{}
