//! The last argument `--quiet`: no lines of progress.

ghost use Rattle.std.specs.Prelude.{◌≡◌, map, string_bytes};
ghost use Rattle.sd_types.specs.Works.{same_bytes};
ghost use Rattle.sd_find.specs.Asked.{asked, is_quiet};

fn is_word(text: &[u8], word: &[u8]) -> bool
    ensures { result ≡ same_bytes text.now word.now }
{
    text == word
}

/// The last argument is `--quiet`.
pub(crate) fn is_quiet(arguments: &[String]) -> bool
    ensures { result ≡ is_quiet (map string_bytes arguments.now) }
{
    match arguments.last() {
        Some(last) => is_word(last.as_bytes(), b"--quiet"),
        None => false,
    }
}

/// The arguments without a last `--quiet`.
pub(crate) fn asked(arguments: &[String]) -> &[String]
    ensures { map string_bytes result.now ≡ asked (map string_bytes arguments.now) }
{
    if is_quiet(arguments) {
        &arguments[..arguments.len() - 1]
    } else {
        arguments
    }
}
