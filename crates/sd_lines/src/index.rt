//! The index of names.

ghost use Rattle.std.specs.Prelude.{◌≡◌, ◌≤◌, ◌<◌, [], ◌∷◌, ◌++◌, ℕ, List, map, length, position, false, IsTrue, IfSome, OnOk, OnErr};
ghost use Rattle.std.specs.List.{list_all, list_any};
ghost use Rattle.sd_types.specs.Works.{same_bytes};
ghost use Rattle.sd_types.specs.Limits.{most_name_bytes};
ghost use Rattle.sd_lines.specs.Keys.{is_key, word_of};

use crate::key::NameKey;
use indexmap::IndexSet;
use sd_types::MOST_NAME_BYTES;
use std::alloc::{AllocError, Global};
use std::marker::Model;

/// Names of at most 16 bytes that differ, each with its number: its place in the order in which they were put in.
#[derive(Drop)]
pub struct NameIndex {
    keys: IndexSet<NameKey>,
}

impl Model for NameIndex {
    ghost Value = { List (List ℕ) };

    ghost view = { λ s. map word_of s.keys.keys };

    ghost invariant = { λ s. IsTrue (list_all is_key s.keys.keys) };
}

impl NameIndex {
    /// No names. It takes no memory.
    pub fn new(alloc: Global) -> NameIndex
        ensures { result ≡ [] }
    {
        NameIndex {
            keys: IndexSet::new(alloc),
        }
    }

    /// The number of the name that the word spells, where it is there.
    pub fn find(&self, word: &[u8]) -> Option<usize>
        ensures value { result ≡ position (λ name. same_bytes name word.now) self.now }
        ensures within { IfSome result (λ i. i < length self.now) }
    {
        let keys = &self.keys;
        if MOST_NAME_BYTES < word.len() {
            return None;
        }
        keys.get_index_of(&NameKey::of(word))
    }

    /// Puts in one more name, which was not there.
    pub fn push(&mut self, name: &[u8]) -> Result<(), AllocError>
        requires short { length name.now ≤ most_name_bytes }
        requires new { list_any (λ other. same_bytes other name.now) self.old ≡ false }
        ensures ok { OnOk result (self.new ≡ self.old ++ name.now ∷ []) }
        ensures err { OnErr result (self.new ≡ self.old) }
    {
        self.keys.insert(NameKey::of(name))?;
        Ok(())
    }
}
