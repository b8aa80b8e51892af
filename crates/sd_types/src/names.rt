//! Names of threads, locks, channels and sets.

ghost use Rattle.std.specs.Prelude.{◌≡◌, IsTrue};
ghost use Rattle.sd_types.specs.NameWords.{is_name};

use arrayvec::ArrayVec;

/// A name: 1 to 16 bytes of `a` to `z`, `0` to `9`, `_` and `-`, of which the first is a letter
/// (this project's own).
#[derive(Drop)]
pub struct Name {
    pub text: ArrayVec<u8, 16>,
    ghost is_name: { IsTrue (is_name text.items) },
}

impl Name {
    /// The name that the word spells.
    pub fn from_word(word: &[u8]) -> Name
        requires { IsTrue (is_name word.now) }
        ensures { result.text.items ≡ word.now }
    {
        let mut text = ArrayVec::new();
        let _ = text.try_extend_from_slice(word);
        Name { text }
    }

    pub fn bytes(&self) -> &[u8]
        ensures { result.now ≡ self.now.text.items }
    {
        self.text.as_slice()
    }
}
