//! The forms of the arguments of `disptask`.

ghost use Rattle.std.specs.Prelude.{◌≡◌, map, string_bytes, codes, option_map, None, if◌then◌else◌};
ghost use Rattle.sd_types.specs.Works.{same_bytes};
ghost use Rattle.sd_task_program.specs.Forms.{begins_with_dash, file_of, file_request, file_word, option_request, request_of, unless_help, word_request};

/// What is asked for: the expansion of a set, with or without the map, or the forms of the arguments.
#[derive(Clone, Copy)]
pub enum Request {
    Help,
    Expand(bool),
}

fn is_word(text: &[u8], word: &[u8]) -> bool
    ensures { result ≡ same_bytes text.now word.now }
{
    text == word
}

fn begins_with_dash(word: &[u8]) -> bool
    ensures { result ≡ begins_with_dash word.now }
{
    match word {
        [first, ..] => *first == b'-',
        [] => false,
    }
}

fn option_request(word: &[u8]) -> Option<Request>
    ensures { result ≡ option_request word.now }
{
    if is_word(word, b"--map") {
        Some(Request::Expand(true))
    } else if is_word(word, b"--help") {
        Some(Request::Help)
    } else {
        None
    }
}

fn word_request(word: &[u8]) -> Option<Request>
    ensures { result ≡ word_request word.now }
{
    if begins_with_dash(word) {
        option_request(word)
    } else {
        Some(Request::Expand(false))
    }
}

// No file stands behind `--help`.
fn unless_help(request: Option<Request>) -> Option<Request>
    ensures { result ≡ unless_help request }
{
    match request {
        None => None,
        Some(Request::Help) => None,
        Some(Request::Expand(is_mapped)) => Some(Request::Expand(is_mapped)),
    }
}

fn file_request(option: &[u8], file: &[u8]) -> Option<Request>
    ensures { result ≡ file_request option.now file.now }
{
    if begins_with_dash(file) {
        None
    } else {
        unless_help(option_request(option))
    }
}

/// What the arguments ask for: `--help`, or the expansion of a set, with `--map` or without, of a file or of the standard input;
/// None where they are of none of the forms.
#[tactic(auto, unfolding(crate::specs::Forms::request_of))]
pub(crate) fn request_of(arguments: &[String]) -> Option<Request>
    ensures { result ≡ request_of (map string_bytes arguments.now) }
{
    match arguments {
        [] => Some(Request::Expand(false)),
        [word] => word_request(word.as_bytes()),
        [option, file] => file_request(option.as_bytes(), file.as_bytes()),
        _ => None,
    }
}

fn file_word(word: &String) -> Option<&String>
    ensures { option_map (λ file. string_bytes file.now) result ≡ file_word (string_bytes word.now) }
{
    if begins_with_dash(word.as_bytes()) {
        None
    } else {
        Some(word)
    }
}

// The file behind an option.
fn file_behind<'a>(option: &[u8], file: &'a String) -> Option<&'a String>
    ensures { option_map (λ name. string_bytes name.now) result ≡ (if same_bytes option.now (codes "--map") then file_word (string_bytes file.now) else None) }
{
    if is_word(option, b"--map") {
        file_word(file)
    } else {
        None
    }
}

/// The file that the arguments name, where they name one: one word that does not begin with `-`, alone or behind `--map`.
#[tactic(auto, unfolding(crate::specs::Forms::file_of))]
pub(crate) fn file_of(arguments: &[String]) -> Option<&String>
    ensures { option_map (λ file. string_bytes file.now) result ≡ file_of (map string_bytes arguments.now) }
{
    match arguments {
        [word] => file_word(word),
        [option, file] => file_behind(option.as_bytes(), file),
        _ => None,
    }
}
