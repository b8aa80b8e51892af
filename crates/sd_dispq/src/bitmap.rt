//! A bitmap, whose next set bit is found word by word, without a scan of bits.
ghost use Rattle.std.specs.Prelude.{◌≡◌, ◌<◌, ◌≤◌, ◌+◌, ◌*◌, ◌/◌, ℕ, length, IfOk, IfSome, MatchOption};
ghost use Rattle.std.specs.Int.{bit_at};
ghost use Rattle.sd_dispq.specs.Bitmap.{bit_of, HasBit, IsNextSet};

use std::alloc::{AllocError, Global};
use std::marker::Model;

/// Bits, 64 to a word. Contracts see the words.
#[derive(Drop)]
pub struct Bitmap {
    words: Vec<u64>,
}

impl Model for Bitmap {
    ghost use Rattle.std.specs.Prelude.{◌≤◌, ℕ, List, length};

    ghost Value = { List ℕ };

    ghost view = { λ b. b.words.items };

    ghost invariant = { λ b. length b.words.items ≤ 1024 };
}

impl Bitmap {
    /// A bitmap with at least so many bits, of which none is set.
    pub fn new(alloc: Global, count: u16) -> Result<Bitmap, AllocError>
        ensures { IfOk result (λ b. (count < 64 * length b) × ((p : ℕ) → bit_of b p ≡ 0)) }
    {
        let length = count as usize / 64 + 1;
        let mut words = Vec::with_capacity(alloc, length)?;
        for _ in 0..length {
            words.push_reserved(0);
        }
        Ok(Bitmap { words })
    }

    /// Sets the bit at this index, where there is one.
    #[inline(always)]
    pub fn set(&mut self, index: usize)
        ensures bits { index < 64 * length self.old → HasBit self.old index 1 self.new }
        ensures beyond { 64 * length self.old ≤ index → self.new ≡ self.old }
        ensures size { length self.new ≡ length self.old }
    {
        let number = index / 64;
        if number < self.words.len() {
            self.words[number] |= 1 << (index % 64);
        }
    }

    /// Clears the bit at this index.
    #[inline(always)]
    pub fn clear(&mut self, index: usize)
        ensures bits { HasBit self.old index 0 self.new }
        ensures size { length self.new ≡ length self.old }
    {
        let number = index / 64;
        if number < self.words.len() {
            self.words[number] &= !(1 << (index % 64));
        }
    }

    // The word with this number, without its bits before `from`.
    #[inline(always)]
    fn word_from(&self, number: usize, from: usize) -> u64
        requires within { number < length self.now }
        requires reached { from / 64 ≤ number }
        ensures kept { (i : ℕ) → i < 64 → from ≤ 64 * number + i → bit_at result i ≡ bit_of self.now (64 * number + i) }
        ensures cleared { (i : ℕ) → i < 64 → 64 * number + i < from → bit_at result i ≡ 0 }
    {
        let word = self.words[number];
        if number == from / 64 {
            word & (u64::MAX << (from % 64))
        } else {
            word
        }
    }

    /// The index of the first bit that is set, of those from `from` on.
    #[inline(always)]
    pub fn next_set(&self, from: usize) -> Option<usize>
        ensures next { MatchOption result ((i : ℕ) → from ≤ i → bit_of self.now i ≡ 0) (IsNextSet self.now from) }
        ensures within { IfSome result (λ i. i < 65536) }
    {
        for number in from / 64..self.words.len() {
            let word = self.word_from(number, from);
            if word != 0 {
                return Some(64 * number + word.trailing_zeros() as usize);
            }
        }
        None
    }
}
