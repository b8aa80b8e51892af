//! What a word is, and the numbers that it spells.

ghost use Rattle.std.specs.Prelude.{◌≡◌, ◌<◌, ◌≤◌, ◌^◌, IfSome, length};
ghost use Rattle.sd_types.specs.Works.{same_bytes};
ghost use Rattle.sd_entries.specs.Reading.{byte_in, count_in, cpu_in, cpu_in_if, digits_of, number_in};

use sd_types::CpuId;

/// Whether a word is this one.
pub(crate) fn is_word(word: &[u8], keyword: &[u8]) -> bool
    ensures { result ≡ same_bytes word.now keyword.now }
{
    word == keyword
}

#[tactic(auto, unfolding(sd_entries::specs::Reading::digits_of))]
fn digits_of(word: &[u8]) -> Option<u128>
    ensures value { result ≡ digits_of word.now }
    ensures bound { IfSome result (λ n. n < 10 ^ 20) }
{
    if 20 < word.len() {
        return None;
    }
    let mut value = 0;
    for byte in word {
        if !byte.is_ascii_digit() {
            return None;
        }
        value = value * 10 + u128::from(*byte - b'0');
    }
    Some(value)
}

// The same of at most 9 digits, as most numbers of a line have.
#[tactic(auto, unfolding(sd_entries::specs::Reading::digits_of))]
fn few_digits_of(word: &[u8]) -> Option<u64>
    requires { length word.now ≤ 9 }
    ensures value { result ≡ digits_of word.now }
    ensures bound { IfSome result (λ n. n < 10 ^ 9) }
{
    let mut value = 0;
    for byte in word {
        if !byte.is_ascii_digit() {
            return None;
        }
        value = value * 10 + u64::from(*byte - b'0');
    }
    Some(value)
}

/// The number of 64 bits that a word spells, 0 where it spells none.
#[tactic(auto, unfolding(sd_entries::specs::Reading::number_in))]
pub(crate) fn number_in(word: &[u8]) -> u64
    ensures { result ≡ number_in word.now }
{
    if word.len() <= 9 {
        return few_digits_of(word).unwrap_or(0);
    }
    match digits_of(word) {
        Some(n) if n < 1 << 64 => n as u64,
        _ => 0,
    }
}

#[tactic(auto, unfolding(sd_entries::specs::Reading::byte_in))]
pub(crate) fn byte_in(word: &[u8]) -> u8
    ensures { result ≡ byte_in word.now }
{
    number_in(word).min(255) as u8
}

#[tactic(auto, unfolding(sd_entries::specs::Reading::count_in))]
pub(crate) fn count_in(word: &[u8]) -> u32
    ensures { result ≡ count_in word.now }
{
    number_in(word).min(4_294_967_295) as u32
}

fn without_first(word: &[u8]) -> &[u8]
    ensures { result.now ≡ Rattle.std.specs.Prelude.drop 1 word.now }
{
    match word {
        [_, rest @ ..] => rest,
        [] => word,
    }
}

/// The processor whose number stands behind the first letter.
#[tactic(auto, unfolding(sd_entries::specs::Reading::cpu_in))]
pub(crate) fn cpu_in(word: &[u8]) -> CpuId
    ensures { result ≡ cpu_in word.now }
{
    CpuId(number_in(without_first(word)).min(65_535) as u16)
}

/// The same, and none where the word is `-`.
#[tactic(auto, unfolding(sd_entries::specs::Reading::cpu_in_if))]
pub(crate) fn cpu_in_if(word: &[u8]) -> Option<CpuId>
    ensures { result ≡ cpu_in_if word.now }
{
    if is_word(word, b"-") {
        None
    } else {
        Some(cpu_in(word))
    }
}
