//! A line cut into its words, which is done once for each line.

ghost use Rattle.std.specs.Prelude.{◌≡◌, ◌≤◌};
ghost use Rattle.sd_text.specs.Words.{words_of};
ghost use Rattle.sd_entries.specs.Reading.{at};
ghost use Rattle.sd_entry_reader.specs.Cutting.{ArePlaces};

use arrayvec::ArrayVec;
use sd_text::next_word;
use std::marker::Model;

/// The words of a line, by their places from 0. The first eleven were sought, since no entry has more. Contracts see all of them. The
/// places are lent, since they are big to move.
#[derive(Drop)]
pub(crate) struct Words<'a> {
    line: &'a [u8],
    places: &'a [(usize, usize)],
}

impl<'a> Model for Words<'a> {
    ghost use Rattle.std.specs.Prelude.{ℕ, List};
    ghost use Rattle.sd_text.specs.Words.{words_of};
    ghost use Rattle.sd_entry_reader.specs.Cutting.{ArePlaces};

    ghost Value = { List (List ℕ) };

    ghost view = { λ w. words_of w.line.now };

    ghost invariant = { λ w. ArePlaces w.line.now w.places.now };
}

/// Where the first eleven words begin and end.
pub(crate) fn places_in(line: &[u8]) -> ArrayVec<(usize, usize), 11>
    ensures { ArePlaces line.now result.items }
{
    let mut places = ArrayVec::new();
    let mut from = 0;
    while places.len() < 11 {
        match next_word(line, from) {
            Some((start, end)) => {
                places.push((start, end));
                from = end;
            }
            None => return places,
        }
    }
    places
}

impl<'a> Words<'a> {
    /// The words of this line, which stand at these places.
    pub(crate) fn at(line: &'a [u8], places: &'a [(usize, usize)]) -> Words<'a>
        requires { ArePlaces line.now places.now }
        ensures { result ≡ words_of line.now }
    {
        Words { line, places }
    }

    /// The word at this place, empty where there is none.
    #[tactic(auto, using(crate::proofs::PlaceLemmas::place_within))]
    pub(crate) fn word(&self, i: usize) -> &'a [u8]
        requires { i ≤ 10 }
        ensures { result.now ≡ at self.now i }
    {
        if i < self.places.len() {
            let (start, end) = self.places[i];
            &self.line[start..end]
        } else {
            b""
        }
    }
}
