//! The threads that have been given a script.

ghost use Rattle.std.specs.Prelude.{◌≡◌, ◌==◌, [], ◌∷◌, ◌++◌, ℕ, List, nat_eq, OnOk, OnErr};
ghost use Rattle.std.specs.List.{list_any};
ghost use Rattle.sd_types.specs.declared.numbers.ThreadId.{ThreadId as Thread};

use indexmap::IndexSet;
use sd_types::ThreadId;
use std::alloc::{AllocError, Global};
use std::marker::Model;

/// Threads in the order in which they were given a script, each found by its number.
#[derive(Drop)]
pub struct Scripted {
    threads: Vec<ThreadId>,
    numbers: IndexSet<u16>,
}

impl Model for Scripted {
    ghost Value = { List Thread };

    ghost view = { λ s. s.threads.items };

    ghost invariant = { λ s. (n : ℕ) → list_any (nat_eq n) s.numbers.keys ≡ list_any (λ t. t.0 == n) s.threads.items };
}

impl Scripted {
    /// None. It takes no memory.
    pub fn new(alloc: Global) -> Scripted
        ensures { result ≡ [] }
    {
        Scripted {
            threads: Vec::new(alloc),
            numbers: IndexSet::new(alloc),
        }
    }

    /// Whether the thread is among them.
    pub fn contains(&self, thread: ThreadId) -> bool
        ensures { result ≡ list_any (λ t. t.0 == thread.0) self.now }
    {
        self.numbers.contains(&thread.0)
    }

    /// One more thread.
    pub fn push(&mut self, thread: ThreadId) -> Result<(), AllocError>
        ensures ok { OnOk result (self.new ≡ self.old ++ thread ∷ []) }
        ensures err { OnErr result (self.new ≡ self.old) }
    {
        self.threads.reserve(1)?;
        self.numbers.insert(thread.0)?;
        // there is room
        let _ = self.threads.push(thread);
        Ok(())
    }
}
