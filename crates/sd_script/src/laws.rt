//! That each list of operations is well formed or has one fault, and never both, and that the fault of an
//! operation stays when more operations follow.

ghost use Rattle.std.specs.Prelude.{◌≡◌, ℕ, ◌+◌, ◌<◌, false, List, ◌++◌, length, slice_get, Some, ◌⊎◌};
ghost use Rattle.sd_types.specs.declared.scripts.Op.{Op};
ghost use Rattle.sd_script.specs.declared.faults.ScriptFault.{ScriptFault};
ghost use Rattle.sd_script.specs.Faults.{IsFault, IsWellFormed, fault_at, is_wait};

/// Each list is well formed or has a fault, and not both.
pub fn one_answer()
    ensures some { (ops : List Op) → IsWellFormed ops ⊎ ((fault : ScriptFault) × IsFault ops fault) }
    ensures one { (ops : List Op) (fault : ScriptFault) → IsWellFormed ops → IsFault ops fault → ⊥ }
{}

/// No list has two faults.
pub fn one_fault()
    ensures { (ops : List Op) (one other : ScriptFault) → IsFault ops one → IsFault ops other → one ≡ other }
{}

/// More operations behind an operation that is no wait, or behind the operation after a wait, change nothing
/// in its fault. So a reader of lines may judge the operations that it has.
pub fn faults_stay()
    ensures followed { (ops more : List Op) (i : ℕ) → i + 1 < length ops → fault_at (ops ++ more) i ≡ fault_at ops i }
    ensures alone { (ops more : List Op) (i : ℕ) (op : Op) → slice_get ops i ≡ Some op → is_wait op ≡ false
        → fault_at (ops ++ more) i ≡ fault_at ops i }
{}
