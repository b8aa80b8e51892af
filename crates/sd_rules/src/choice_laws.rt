//! That the properties of a choice determine it.

ghost use Rattle.std.specs.Prelude.{◌≡◌, ◌<◌, ℕ, List, Bool, length, All, MatchOption};
ghost use Rattle.sd_types.specs.declared.numbers.CpuId.{CpuId};
ghost use Rattle.sd_rules.specs.Choices.{IsChosen, IsVictim};
ghost use Rattle.sd_rules.specs.ChoiceFunctions.{chosen, victim_of};

/// At most one processor is the choice.
pub fn one_choice()
    ensures { (cpus : List CpuId) (hints : List ℕ) (last : CpuId) (warm : Bool) (c d : CpuId)
        → IsChosen cpus hints last warm c → IsChosen cpus hints last warm d → c ≡ d }
{}

/// At most one processor is the victim.
pub fn one_victim()
    ensures { (cpus : List CpuId) (hints : List ℕ) (c d : CpuId) → IsVictim cpus hints c → IsVictim cpus hints d → c ≡ d }
{}

/// The functions give the choices. So whoever computes by them has what `choose` and `victim` return.
pub fn functions_choose()
    ensures chosen { (cpus : List CpuId) (hints : List ℕ) (last : CpuId) (warm : Bool) → 0 < length cpus → length cpus ≡ length hints
        → IsChosen cpus hints last warm (chosen cpus hints last warm) }
    ensures victim { (cpus : List CpuId) (hints : List ℕ) → length cpus ≡ length hints
        → MatchOption (victim_of cpus hints) (All (λ hint. hint ≡ 0) hints) (IsVictim cpus hints) }
{}
