//! A name as plain bytes, which can be hashed and compared.

ghost use Rattle.std.specs.Prelude.{◌≡◌, ◌≤◌, length};
ghost use Rattle.sd_types.specs.Limits.{most_name_bytes};

/// A name as plain bytes: how many it has, and these bytes with zeros behind them.
#[derive(Clone, Copy, PartialEq, Eq, Hash)]
pub struct NameKey {
    pub length: u8,
    pub bytes: [u8; 16],
}

impl NameKey {
    ghost use Rattle.sd_lines.specs.Keys.{key_of};

    /// The key of a word.
    pub(crate) fn of(word: &[u8]) -> NameKey
        requires { length word.now ≤ most_name_bytes }
        ensures { result ≡ key_of word.now }
    {
        let mut bytes = [0; 16];
        bytes[..word.len()].copy_from_slice(word);
        NameKey {
            length: word.len() as u8,
            bytes,
        }
    }
}
