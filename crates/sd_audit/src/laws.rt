//! What the definitions of the audit mean: laws, with nothing to run.

ghost use Rattle.std.specs.Prelude.{◌≡◌, ℕ, List};
ghost use Rattle.sd_types.specs.declared.works.Work.{Work};
ghost use Rattle.sd_state.specs.declared.states.State.{State};
ghost use Rattle.sd_audit.specs.declared.audits.AuditFault.{AuditFault};
ghost use Rattle.sd_audit.specs.Audits.{IsFault, IsJournal, IsMemory};

/// A text that is the journal of a complete run has no fault but want of memory, and it tells one final state and one number of entries.
pub fn journals_have_no_fault()
    ensures fault { (w : Work) (text : List ℕ) (s : State) (n : ℕ) (fault : AuditFault) → IsJournal w text s n → IsFault w text fault → IsMemory fault }
    ensures one { (w : Work) (text : List ℕ) (s t : State) (n m : ℕ) → IsJournal w text s n → IsJournal w text t m → (s ≡ t) × (n ≡ m) }
{}

/// A text has one fault alone, but for want of memory.
pub fn texts_have_one_fault()
    ensures { (w : Work) (text : List ℕ) (f g : AuditFault) → IsFault w text f → IsFault w text g → (IsMemory f → ⊥) → (IsMemory g → ⊥) → f ≡ g }
{}
