//! Whoever watches a search.

/// Is told from time to time how far a search has come. What it does with that changes nothing of what the search says.
pub trait Watch {
    ghost use Rattle.std.specs.Prelude.{ℕ};

    // From what it was to what it is, by a call with these numbers of states and of turns.
    ghost noted: { Self → Self → ℕ → ℕ → Type 0 };

    /// So many states were found, the last of them after so many turns of processors from the first.
    fn saw(&mut self, states: u64, depth: u64)
        ensures { noted self.old self.new states depth };
}

/// Nobody watches.
#[derive(Drop)]
pub struct Unwatched;

impl Watch for Unwatched {
    ghost use Rattle.std.specs.Prelude.{◌≡◌};

    ghost noted = { λ before after states depth. after ≡ before };

    fn saw(&mut self, _states: u64, _depth: u64) {}
}
