//! What an entry is made of, where it lies, so that its line can be made and it can be counted without the whole of it.

ghost use Rattle.std.specs.Prelude.{◌≡◌, ◌≤◌, length, replicate};
ghost use Rattle.sd_types.specs.Limits.{most_processors};
ghost use Rattle.sd_log.specs.Parts.{hints_of, listed, numbers_of, which_of, whole};

use arrayvec::ArrayVec;
use sd_basics::known;
use sd_types::{CpuId, Entry, Event, Hints, MOST_PROCESSORS, Which};

/// Numbers that were read of processors, where they lie.
#[derive(Clone, Copy)]
pub enum Numbers<'a> {
    /// One behind another.
    Bytes(&'a [u8]),
    /// So many zeros, which lie nowhere.
    Zeros(usize),
}

/// The parts of an entry: of which kind the numbers are that it read, if any, and these numbers.
#[derive(Clone, Copy)]
pub struct Parts<'a> {
    pub number: u64,
    pub cpu: CpuId,
    pub event: &'a Event,
    pub which: Option<Which>,
    pub numbers: Numbers<'a>,
}

/// As many zeros as an entry can read.
static ZEROS: [u8; MOST_PROCESSORS] = [0; MOST_PROCESSORS];

/// Of which kind the numbers are that were read.
#[inline(always)]
fn which_of(hints: &Option<Hints>) -> Option<Which>
    ensures { result ≡ which_of hints.now }
{
    match hints {
        None => None,
        Some(hints) => Some(hints.which),
    }
}

/// The numbers that were read.
#[inline(always)]
pub(crate) fn numbers_of(hints: &Option<Hints>) -> &[u8]
    ensures numbers { result.now ≡ numbers_of hints.now }
    ensures few { length result.now ≤ most_processors }
{
    match hints {
        None => &[],
        Some(hints) => hints.numbers.as_slice(),
    }
}

/// So many zeros.
fn zeros(count: usize) -> &'static [u8]
    requires { count ≤ most_processors }
    ensures { result.now ≡ replicate count 0 }
{
    &ZEROS[..count]
}

impl<'a> Numbers<'a> {
    /// The numbers as bytes.
    fn bytes(self) -> &'a [u8]
        requires { length (listed self) ≤ most_processors }
        ensures { result.now ≡ listed self.entry }
    {
        match self {
            Numbers::Bytes(bytes) => bytes,
            Numbers::Zeros(count) => zeros(count),
        }
    }
}

/// These numbers, if any were read.
fn hints_of(which: Option<Which>, numbers: Numbers<'_>) -> Option<Hints>
    requires { length (listed numbers) ≤ most_processors }
    ensures { result ≡ hints_of which (listed numbers.entry) }
{
    let which = which?;
    let bytes = numbers.bytes();
    let mut numbers = ArrayVec::new();
    let copied = numbers.try_extend_from_slice(bytes);
    known(copied.is_ok());
    match copied {
        Ok(()) => {}
        Err(_) => unreachable!(),
    }
    Some(Hints { which, numbers })
}

impl<'a> Parts<'a> {
    /// The parts of a whole entry.
    #[inline(always)]
    pub fn of(entry: &'a Entry) -> Parts<'a>
        ensures whole { whole result ≡ entry.now }
        ensures few { length (listed result.numbers) ≤ most_processors }
    {
        Parts {
            number: entry.number,
            cpu: entry.cpu,
            event: &entry.event,
            which: which_of(&entry.hints),
            numbers: Numbers::Bytes(numbers_of(&entry.hints)),
        }
    }

    /// The whole entry.
    pub fn entry(&self) -> Entry
        requires { length (listed self.now.numbers) ≤ most_processors }
        ensures { result ≡ whole self.now }
    {
        Entry {
            number: self.number,
            cpu: self.cpu,
            event: *self.event,
            hints: hints_of(self.which, self.numbers),
        }
    }
}
