//! What the line of an entry tells.

ghost use Rattle.std.specs.Prelude.{◌≡◌, ◌++◌, ◌∷◌, [], IsTrue};
ghost use Rattle.std.specs.List.{join_with_byte};
ghost use Rattle.sd_types.specs.declared.events.Entry.{Entry};
ghost use Rattle.sd_types.specs.declared.works.Work.{Work};
ghost use Rattle.sd_text.specs.Lines.{is_line};
ghost use Rattle.sd_machine.specs.Texts.{entry_text};
ghost use Rattle.sd_entries.specs.EntryWords.{entry_words};
ghost use Rattle.sd_entries.specs.Fitting.{IsSpelled};

/// Two different entries of one workload have different lines, where their numbers name what the workload has and they
/// have read numbers only where their events read.
pub fn lines_tell_entries()
    ensures { (w : Work) (e f : Entry) → IsSpelled w e → IsSpelled w f → entry_text w e ≡ entry_text w f → e ≡ f }
{}

/// A line is the entry's words with single spaces between them, and a newline.
pub fn lines_are_words()
    ensures { (w : Work) (e : Entry) → entry_text w e ≡ join_with_byte 32 (entry_words w e) ++ 10 ∷ [] }
{}

/// The words of an entry with single spaces between them stand in one line: no byte of them is a newline.
pub fn words_stand_in_lines()
    ensures { (w : Work) (e : Entry) → IsSpelled w e → IsTrue (is_line (join_with_byte 32 (entry_words w e))) }
{}
