//! What the definitions of this crate mean: a text that was put together of lines, words and numbers is
//! read again as these, and nothing else is ever read.
ghost use Rattle.std.specs.Prelude.{◌≡◌, ℕ, ◌+◌, ◌^◌, ◌<◌, ◌⊎◌, ◌↔◌, All, List, [], ◌∷◌, ◌++◌, IsTrue, Some, pos, neg_ℤ, decimal};
ghost use Rattle.std.specs.List.{list_all, join_with_byte};
ghost use Rattle.sd_text.specs.Faults.{HasRisen, greatest_count};
ghost use Rattle.sd_text.specs.Lines.{lines_of, is_line, text_of_lines, EndsLine, IsOneLine, pieces_of, text_of_pieces};
ghost use Rattle.sd_text.specs.Words.{words_of, is_word, EndsWord};
ghost use Rattle.sd_text.specs.Numbers.{number_of, signed_of};

/// A count of 64 bits has risen where it is greater than before, or stands at the greatest.
pub fn risen_counts()
    ensures { (old new : ℕ) → old < 2 ^ 64 → new < 2 ^ 64 → HasRisen old new ↔ ((old < new) ⊎ (new ≡ greatest_count)) }
{}

/// The lines of a text are lines, and together with their newlines they are the text again, but for a newline that
/// the last line lacked. Lines that were written with their newlines are read again.
pub fn lines_of_texts()
    ensures lines { (text : List ℕ) → IsTrue (list_all is_line (lines_of text)) }
    ensures text { (text : List ℕ) → (text_of_lines (lines_of text) ≡ text) ⊎ (text_of_lines (lines_of text) ≡ text ++ 10 ∷ []) }
    ensures again { (lines : List (List ℕ)) (rest : List ℕ) → IsTrue (list_all is_line lines)
        → lines_of (text_of_lines lines ++ rest) ≡ lines ++ lines_of rest }
{}

/// A text of whole lines is its lines with their newlines, one piece after another. It is put together of such pieces in no other
/// way: pieces that are one line each are those of the text that they make, which ends with a line.
pub fn pieces_are_lines()
    ensures lines { (text : List ℕ) → All IsOneLine (pieces_of text) }
    ensures text { (text : List ℕ) → EndsLine text → text_of_pieces (pieces_of text) ≡ text }
    ensures ends { (pieces : List (List ℕ)) → All IsOneLine pieces → EndsLine (text_of_pieces pieces) }
    ensures only { (pieces : List (List ℕ)) → All IsOneLine pieces → pieces_of (text_of_pieces pieces) ≡ pieces }
{}

/// The words of a line are words. Words that were written with single spaces between them are read again, also
/// where a blank or a comment follows.
pub fn words_of_lines()
    ensures words { (line : List ℕ) → IsTrue (list_all is_word (words_of line)) }
    ensures again { (words : List (List ℕ)) (rest : List ℕ) → IsTrue (list_all is_word words) → EndsWord rest
        → words_of (join_with_byte 32 words ++ rest) ≡ words ++ words_of rest }
    ensures blank { (rest : List ℕ) → words_of (32 ∷ rest) ≡ words_of rest }
    ensures comment { (rest : List ℕ) → words_of (35 ∷ rest) ≡ [] }
{}

/// A number of at most ten digits that was written is read again. What was written is a word and stands in one line.
pub fn numbers_of_words()
    ensures again { (n : ℕ) → n < 10 ^ 10 → number_of (decimal n) ≡ Some n }
    ensures signed { (n : ℕ) → n < 10 ^ 10 → signed_of (decimal n) ≡ Some (pos n) }
    ensures negative { (n : ℕ) → n < 10 ^ 10 → signed_of (45 ∷ decimal n) ≡ Some (neg_ℤ (pos n)) }
    ensures word { (n : ℕ) → n < 2 ^ 64 → IsTrue (is_word (decimal n)) }
    ensures line { (n : ℕ) → n < 2 ^ 64 → IsTrue (is_line (decimal n)) }
{}
