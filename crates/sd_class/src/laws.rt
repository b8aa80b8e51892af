//! What the rules of priorities and of priocntl(2) mean: laws, with nothing to run.

ghost use Rattle.std.specs.Prelude.{◌≡◌, ℕ, ◌<◌, ◌≤ℤ◌, false, Some, Err, IsErr, IfOk};
ghost use Rattle.sd_types.specs.declared.classes.ClassParms.{ClassParms};
ghost use Rattle.sd_types.specs.declared.classes.ClassState.{ClassState};
ghost use Rattle.sd_types.specs.declared.classes.Class.{Class};
ghost use Rattle.sd_types.specs.declared.scripts.Request.{Request};
ghost use Rattle.sd_types.specs.Priorities.{base_of};
ghost use Rattle.sd_rules.specs.ClassStates.{IsClassState, IsBaseOf};
ghost use Rattle.sd_rules.specs.Priocntl.{judged, class_of_parms, limit_of_parms, greatest_limit};

/// The base priority of each class state whose numbers are in their ranges is below 160, and one that its class has.
pub fn base_priorities_in_range()
    ensures class { (s : ClassState) → IsClassState s → IsBaseOf s (base_of s) }
    ensures bound { (s : ClassState) → IsClassState s → base_of s < 160 }
{}

/// A caller without privilege never changes a real-time thread, makes no thread one, and raises no limit: in the
/// class of the thread the limit stays at most the thread's, and in another it is at most 0.
pub fn callers_without_privilege()
    ensures real_time { (uid owner : ℕ) (target : ClassParms) (r : Request) → class_of_parms target ≡ Class.Rt → IsErr (judged uid false (Some (owner, target)) r) }
    ensures no_real_time { (uid owner : ℕ) (target : ClassParms) (r : Request) → r.class ≡ Class.Rt → IsErr (judged uid false (Some (owner, target)) r) }
    ensures limit { (uid owner : ℕ) (target : ClassParms) (r : Request) → IfOk (judged uid false (Some (owner, target)) r)
        (λ p. limit_of_parms p ≤ℤ greatest_limit target (class_of_parms p)) }
    ensures own { (uid owner : ℕ) (target : ClassParms) (r : Request) → IfOk (judged uid false (Some (owner, target)) r) (λ p. uid ≡ owner) }
{}
