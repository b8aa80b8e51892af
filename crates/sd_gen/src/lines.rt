//! Pieces of the text, and numbers that are drawn.

ghost use Rattle.std.specs.Prelude.{◌≡◌, ◌<◌, ◌++◌, OnOk};
ghost use Rattle.sd_gen.specs.Generated.{drawn, number_line};

use rand_core::utils::NextWord;
use rand_pcg::Lcg64Xsh32;
use sd_text::put_number;
use std::alloc::AllocError;

/// A number below `k`.
pub(crate) fn drawn(k: u32, generator: &mut Lcg64Xsh32) -> u32
    requires { 0 < k }
    ensures number { result ≡ (drawn k generator.old).0 }
    ensures generator { generator.new ≡ (drawn k generator.old).1 }
    ensures below { result < k }
{
    generator.next_word() % k
}

/// Appends a word.
pub(crate) fn put(text: &[u8], out: &mut Vec<u8>) -> Result<(), AllocError>
    ensures { OnOk result (out.new.items ≡ out.old.items ++ text.now) }
{
    out.extend_from_slice(text)
}

/// Appends a word and a number, as one line.
pub(crate) fn put_number_line(word: &[u8], n: u32, out: &mut Vec<u8>) -> Result<(), AllocError>
    ensures { OnOk result (out.new.items ≡ out.old.items ++ number_line word.now n) }
{
    put(word, out)?;
    put_number(out, u64::from(n))?;
    put(b"\n", out)
}
