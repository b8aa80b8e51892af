//! What the words of a record's contracts mean.

ghost use Rattle.std.specs.Prelude.{◌≡◌, ℕ, ◌≤◌, false, Some, None, Contains, ◌⊎◌};
ghost use Rattle.sd_types.specs.declared.numbers.LockId.{LockId};
ghost use Rattle.sd_types.specs.declared.bodies.ThreadBody.{ThreadBody};
ghost use Rattle.sd_types.specs.Priorities.{base_of, eff};
ghost use Rattle.sd_types.specs.Scripts.{is_lock};
ghost use Rattle.sd_types.specs.Willed.{Numbers, number_for, with_number, without_number};

/// The effective priority is the maximum: none of the base and the inherited priorities is greater, and it is one of them.
pub fn effective_is_greatest()
    ensures base { (b : ThreadBody) → base_of b.class ≤ eff b }
    ensures willed { (b : ThreadBody) (number : LockId × ℕ) → Contains b.willed.items number → number.1 ≤ eff b }
    ensures one { (b : ThreadBody) → (eff b ≡ base_of b.class)
        ⊎ ((number : LockId × ℕ) × Contains b.willed.items number × (eff b ≡ number.1)) }
{}

/// To set or remove the number for a lock changes that number, and no other lock's.
pub fn numbers_are_apart()
    ensures set { (ws : Numbers) (l : LockId) (n : ℕ) → number_for l (with_number l n ws) ≡ Some n }
    ensures removed { (ws : Numbers) (l : LockId) → number_for l (without_number l ws) ≡ None }
    ensures set_others { (ws : Numbers) (l other : LockId) (n : ℕ) → is_lock l other ≡ false
        → number_for other (with_number l n ws) ≡ number_for other ws }
    ensures removed_others { (ws : Numbers) (l other : LockId) → is_lock l other ≡ false
        → number_for other (without_number l ws) ≡ number_for other ws }
{}
