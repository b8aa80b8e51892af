//! The law, as the contract of a function without a body.

ghost use Rattle.sd_invariants.specs.Readers.{ReadersAreSome};
ghost use Rattle.sd_invariants.specs.Laws.{HoldsWhenReached};

/// Where n readers hold a lock, n is at least 1: the last one that gives it up leaves it free or being handed over.
pub fn readers_are_some()
    ensures { HoldsWhenReached (λ w s. ReadersAreSome s) }
{}
