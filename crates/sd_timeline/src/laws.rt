//! Laws of the texts of pictures, with nothing to run.

ghost use Rattle.sd_timeline.specs.Plain.{TimelinesArePlain, TitlesNeedNoEscaping};

/// The title of each bar, of each band and of each arrow needs no escaping, in the sense of `names_need_no_escaping` of `sd_stretches`.
pub fn titles_need_no_escaping()
    ensures { TitlesNeedNoEscaping }
{}

/// Every picture is of newlines and printable ASCII, without a backslash, so that it is UTF-8, which XML reads where a text
/// names no encoding.
pub fn timelines_are_plain()
    ensures { TimelinesArePlain }
{}
