//! A processor's seat at the table.

use arrayvec::ArrayVec;
use atomic_table::Seat as Place;
use sd_hand::Acting;
use sd_homes::Home;
use sd_shared_rule::View;
use sd_types::{CpuId, Entry, HomeId};

/// A home that is held, by its number.
#[derive(Clone, Copy)]
pub struct Held(pub HomeId);

impl Default for Held {
    fn default() -> Held {
        Held(HomeId::Cpu(CpuId(0)))
    }
}

/// A processor at the table: its place there, which exists in proofs alone; the processor with its hand, its count and its duty; the homes
/// in its hand in the order in which they were taken, the last one last; and the entries that it made.
#[derive(Drop)]
pub struct Seat {
    pub place: Place<Option<Home>, View>,
    pub acting: Acting,
    pub order: ArrayVec<Held, 4>,
    pub log: Vec<Entry>,
}
