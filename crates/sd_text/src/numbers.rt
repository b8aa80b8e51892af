//! Numbers as words of decimal digits.
ghost use Rattle.std.specs.Prelude.{◌≡◌, ◌++◌, ◌^◌, ◌<◌, IfSome, OnOk, OnErr, decimal};
ghost use Rattle.sd_text.specs.Numbers.{number_of, signed_of};

use itoa::Buffer;
use std::alloc::AllocError;

/// The number that the word spells: one to ten decimal digits, of which the first may be zeros.
#[tactic(auto, unfolding(crate::specs::Numbers::number_of))]
pub fn number(word: &[u8]) -> Option<u64>
    ensures value { result ≡ number_of word.now }
    ensures bound { IfSome result (λ n. n < 10 ^ 10) }
{
    if word.is_empty() || 10 < word.len() {
        return None;
    }
    let mut value = 0;
    for byte in word {
        if !byte.is_ascii_digit() {
            return None;
        }
        value = value * 10 + u64::from(*byte - b'0');
    }
    Some(value)
}

/// The same after an optional `-`.
#[tactic(auto, unfolding(crate::specs::Numbers::signed_of))]
pub fn signed(word: &[u8]) -> Option<i64>
    ensures { result ≡ signed_of word.now }
{
    match word {
        [b'-', digits @ ..] => number(digits).map(|n| -(n as i64)),
        _ => number(word).map(|n| n as i64),
    }
}

/// Appends the number's decimal digits, without zeros before them.
pub fn put_number(out: &mut Vec<u8>, n: u64) -> Result<(), AllocError>
    ensures ok { OnOk result (out.new.items ≡ out.old.items ++ decimal n) }
    ensures err { OnErr result (out.new.items ≡ out.old.items) }
{
    let mut buffer = Buffer::new();
    out.extend_from_slice(buffer.format(n).as_bytes())
}
