//! The entry that a line tells.

ghost use Rattle.std.specs.Prelude.{◌≡◌, ◌+◌, ◌≤◌, ◌++◌, ◌∷◌, [], ◌↔◌, IfNone, IfSome, IsTrue, length, position};
ghost use Rattle.sd_types.specs.declared.events.Entry.{Entry as EntryValue};
ghost use Rattle.sd_machine.specs.Texts.{entry_text};
ghost use Rattle.sd_entries.specs.Fitting.{IsSpelled, entry_fits};
ghost use Rattle.sd_entries.specs.Reading.{at, bind_len, entry_of, event_len, hints_by, is_comma, numbers_in, prio_len, put_len, woken_len};

use crate::Names;
use crate::cutting::{Words, places_in};
use crate::events::event_of;
use crate::fitting::{entry_fits, may_read};
use crate::words::{byte_in, cpu_in, is_word, number_in};
use arrayvec::ArrayVec;
use sd_entries::EntryLine;
use sd_types::{
    BindAnswer, Entry, Event, Hints, MOST_PROCESSORS, PrioAnswer, Put, ThreadId, Which, Work,
};

fn put_len(place: Option<Put>) -> usize
    ensures len { result ≡ put_len place }
    ensures few { result ≤ 2 }
{
    match place {
        None => 0,
        Some(_) => 2,
    }
}

fn woken_len(woken: Option<(ThreadId, Put)>) -> usize
    ensures len { result ≡ woken_len woken }
    ensures few { result ≤ 3 }
{
    match woken {
        None => 1,
        Some(_) => 3,
    }
}

fn prio_len(answer: PrioAnswer) -> usize
    ensures len { result ≡ prio_len answer }
    ensures few { result ≤ 4 }
{
    match answer {
        PrioAnswer::Changed { at, .. } => 2 + put_len(at),
        PrioAnswer::Refused(_) => 1,
    }
}

fn bind_len(answer: BindAnswer) -> usize
    ensures len { result ≡ bind_len answer }
    ensures few { result ≤ 3 }
{
    match answer {
        BindAnswer::Changed { at } => 1 + put_len(at),
        _ => 1,
    }
}

// How many words the event has, where it may have read numbers.
fn event_len(event: &Event) -> usize
    ensures len { result ≡ event_len event.now }
    ensures few { result ≤ 7 }
{
    match *event {
        Event::Idle => 1,
        Event::Steal { .. } => 4,
        Event::Napend { .. } => 4,
        Event::Wake { woken, .. } => 3 + woken_len(woken),
        Event::Rouse { woken, .. } => 2 + woken_len(woken),
        Event::Will { at, .. } => 4 + put_len(at),
        Event::Unblock { .. } => 5,
        Event::Grant { .. } => 5,
        Event::Prio { answer, .. } => 3 + prio_len(answer),
        Event::SemaVWake { .. } => 6,
        Event::Move { .. } => 4,
        Event::Bind { answer, .. } => 4 + bind_len(answer),
        _ => 1,
    }
}

fn comma_index(bytes: &[u8]) -> Option<usize>
    ensures { result ≡ position is_comma bytes.now }
{
    bytes.iter().position(|byte| *byte == b',')
}

// The numbers that commas join, of 8 bits; at most as many as there may be processors.
#[tactic(auto, unfolding(sd_entries::specs::Reading::numbers_in))]
fn numbers_in(word: &[u8]) -> ArrayVec<u8, 64>
    ensures { result.items ≡ numbers_in word.now }
{
    let mut numbers = ArrayVec::new();
    let mut from = 0;
    while numbers.len() < MOST_PROCESSORS {
        match comma_index(&word[from..]) {
            Some(len) => {
                numbers.push(byte_in(&word[from..from + len]));
                from += len + 1;
            }
            None => {
                numbers.push(byte_in(&word[from..]));
                return numbers;
            }
        }
    }
    numbers
}

fn hints_by(may: Option<Which>, h: &[u8], numbers: &[u8]) -> Option<Hints>
    ensures { result ≡ hints_by may h.now numbers.now }
{
    let which = may?;
    if is_word(h, b"h") {
        Some(Hints {
            which,
            numbers: numbers_in(numbers),
        })
    } else {
        None
    }
}

// The numbers that the words from place `i` on tell, where the event may have read any: only then are these words looked at.
fn hints_at(may: Option<Which>, words: &Words<'_>, i: usize) -> Option<Hints>
    requires { i ≤ 9 }
    ensures { result ≡ hints_by may (at words.now i) (at words.now (i + 1)) }
{
    match may {
        None => None,
        may => hints_by(may, words.word(i), words.word(i + 1)),
    }
}

// The entry of the words, where they are one's.
#[tactic(auto, unfolding(sd_entries::specs::Reading::entry_of))]
fn entry_of(names: &Names<'_>, words: &Words<'_>) -> Entry
    ensures { result ≡ entry_of names.now.work.now words.now }
{
    let event = event_of(names, words);
    let i = 2 + event_len(&event);
    Entry {
        number: number_in(words.word(0)),
        cpu: cpu_in(words.word(1)),
        event,
        hints: hints_at(may_read(&event), words, i),
    }
}

/// Whether the line is that of the entry, without its newline. That of the entry is made in the buffer.
pub(crate) fn is_line_of(work: &Work, entry: &Entry, text: &mut EntryLine, line: &[u8]) -> bool
    ensures { IsTrue result ↔ (entry_text work.now entry.now ≡ line.now ++ 10 ∷ []) }
{
    is_with_newline(text.format(work, entry), line)
}

// Whether the text is the line with a newline behind it.
fn is_with_newline(text: &[u8], line: &[u8]) -> bool
    ensures { IsTrue result ↔ (text.now ≡ line.now ++ 10 ∷ []) }
{
    let len = line.len();
    text.len() == len + 1 && text[len] == b'\n' && is_same(&text[..len], line)
}

fn is_same(text: &[u8], other: &[u8]) -> bool
    ensures { IsTrue result ↔ (text.now ≡ other.now) }
{
    text == other
}

/// The entry that a line without its newline tells: some where the line is that of an entry whose numbers name what the
/// workload has, and which has read numbers only where its event reads; and none exactly where it is that of no such entry. In the
/// buffer, which whoever reads a whole journal keeps, the line of an entry is made again.
pub fn read_entry(names: &Names<'_>, text: &mut EntryLine, line: &[u8]) -> Option<Entry>
    ensures some { IfSome result (λ e. IsTrue (entry_fits names.now.work.now e) × (entry_text names.now.work.now e ≡ line.now ++ 10 ∷ [])) }
    ensures none { IfNone result ((e : EntryValue) → IsSpelled names.now.work.now e → entry_text names.now.work.now e ≡ line.now ++ 10 ∷ [] → ⊥) }
{
    let work = names.work;
    let places = places_in(line);
    let words = Words::at(line, places.as_slice());
    let entry = entry_of(names, &words);
    if entry_fits(work, &entry) && is_line_of(work, &entry, text, line) {
        Some(entry)
    } else {
        None
    }
}
