//! A law of the labels, with nothing to run.

ghost use Rattle.sd_stretches.specs.Plain.{NamesNeedNoEscaping};

/// For every workload the names of its threads, locks, channels and processor sets, and what is said of what a thread does, are of printable
/// ASCII without quotation marks, apostrophes, backslashes, `<`, `>` and `&`. So each means itself in a JSON string (RFC 8259,
/// section 7), and in a text and an attribute of XML (XML 1.0, section 2.4).
pub fn names_need_no_escaping()
    ensures { NamesNeedNoEscaping }
{}
