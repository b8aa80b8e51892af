//! Where texts that hold a workload and a journal are cut, worked out by hand.

use crate::judging::judge;
use sd_answers::find_cut;

/// A text, and where it is cut: where the workload ends and where the journal starts.
const CUTS: [(&[u8], Option<(usize, usize)>); 8] = [
    (b"", None),
    (b"journal", Some((0, 7))),
    (b"journal\n", Some((0, 8))),
    (b"limit 1\njournal\n0 c0 idle\n", Some((8, 16))),
    (b"limit 1\njournal\njournal\n", Some((8, 16))),
    (b"limit 1\n journal\n", None),
    (b"limit 1\njournal\r\n", None),
    (b"journals\nlimit 1", None),
];

fn cut_of(text: &[u8]) -> Option<(usize, usize)> {
    match find_cut(text) {
        Some(cut) => Some((cut.workload_end, cut.journal_start)),
        None => None,
    }
}

/// The first text that is cut elsewhere.
fn wrong_cut() -> Option<usize> {
    for (index, row) in CUTS.iter().enumerate() {
        let (text, cut) = *row;
        if cut_of(text) != cut {
            return Some(index);
        }
    }
    None
}

#[test]
fn texts_are_cut(rt: HostRuntime) {
    judge(&rt, Ok(wrong_cut()));
}
