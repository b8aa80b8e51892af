//! The lines of a journal, one after another. Most of them are ticks, whose lines are those of the last entry of their processor but
//! for the number: such a line is told by that entry, and is not cut into words.

ghost use Rattle.std.specs.Prelude.{◌≡◌, ◌++◌, ◌∷◌, [], IfNone, IfSome, IsTrue};
ghost use Rattle.sd_types.specs.declared.events.Entry.{Entry as EntryValue};
ghost use Rattle.sd_machine.specs.Texts.{entry_text};
ghost use Rattle.sd_entries.specs.Fitting.{IsSpelled, entry_fits};

use crate::Names;
use crate::fitting::entry_fits;
use crate::read::{is_line_of, read_entry};
use arrayvec::ArrayVec;
use sd_entries::EntryLine;
use sd_types::{Entry, Hints, MOST_PROCESSORS};
use std::alloc::Global;

/// A line from the blank behind its number on, with its entry.
#[derive(Drop)]
struct Seen<'a> {
    rest: &'a [u8],
    entry: Entry,
}

/// The last line of each processor, as far as there is memory for them, and the buffer in which the line of an entry is made again.
/// What is kept is a guess: no entry is told by it whose line is not that of the text.
#[derive(Drop)]
pub struct Lines<'a> {
    seen: Vec<Option<Seen<'a>>>,
    buffer: EntryLine,
}

// What stands behind the number of a line, with the blank before it.
fn rest_of(line: &[u8]) -> Option<&[u8]> {
    let blank = line.iter().position(|byte| *byte == b' ')?;
    Some(&line[blank..])
}

// Where the last line is kept of the processor whose one or two digits stand behind a blank and a letter.
fn place_in(rest: &[u8]) -> usize {
    match rest {
        [_, _, tens, units, ..] if units.is_ascii_digit() => {
            usize::from(*tens & 15) * 10 + usize::from(*units & 15)
        }
        [_, _, units, ..] => usize::from(*units & 15),
        _ => 0,
    }
}

fn copy_of_hints(hints: &Option<Hints>) -> Option<Hints> {
    match hints {
        None => None,
        Some(hints) => {
            let mut numbers = ArrayVec::new();
            let _ = numbers.try_extend_from_slice(hints.numbers.as_slice());
            Some(Hints {
                which: hints.which,
                numbers,
            })
        }
    }
}

// The same entry with this number.
fn entry_again(entry: &Entry, number: u64) -> Entry {
    Entry {
        number,
        cpu: entry.cpu,
        event: entry.event,
        hints: copy_of_hints(&entry.hints),
    }
}

impl<'a> Lines<'a> {
    /// No line was read.
    pub fn new(alloc: Global) -> Lines<'a> {
        let mut seen = Vec::new(alloc);
        for _ in 0..MOST_PROCESSORS {
            let _ = seen.push(None);
        }
        Lines {
            seen,
            buffer: EntryLine::new(),
        }
    }

    // The entry of this number that the line tells where it is the last of its processor again.
    fn guess(&self, line: &[u8], number: u64) -> Option<Entry> {
        let rest = rest_of(line)?;
        match self.seen.get(place_in(rest)) {
            Some(Some(seen)) if seen.rest == rest => Some(entry_again(&seen.entry, number)),
            _ => None,
        }
    }

    // Keeps a line for guesses.
    fn keep(&mut self, line: &'a [u8], entry: &Entry) {
        if let Some(rest) = rest_of(line) {
            let place = place_in(rest);
            if place < self.seen.len() {
                self.seen[place] = Some(Seen {
                    rest,
                    entry: entry_again(entry, 0),
                });
            }
        }
    }

    /// As `read_entry`. The line is likely to have this number.
    pub fn read(&mut self, names: &Names<'_>, line: &'a [u8], number: u64) -> Option<Entry>
        ensures some { IfSome result (λ e. IsTrue (entry_fits names.now.work.now e) × (entry_text names.now.work.now e ≡ line.now ++ 10 ∷ [])) }
        ensures none { IfNone result ((e : EntryValue) → IsSpelled names.now.work.now e → entry_text names.now.work.now e ≡ line.now ++ 10 ∷ [] → ⊥) }
    {
        let work = names.work;
        if let Some(entry) = self.guess(line, number) {
            if entry_fits(work, &entry) && is_line_of(work, &entry, &mut self.buffer, line) {
                return Some(entry);
            }
        }
        let entry = read_entry(names, &mut self.buffer, line)?;
        self.keep(line, &entry);
        Some(entry)
    }
}
