//! A processor that acts, with the homes that it holds.

use crate::hand::Hand;
use sd_types::{CpuId, Duty};

/// The processor that acts, with its count of ticks and its duty, which belong to it and to no home.
#[derive(Clone, Copy)]
pub struct Actor {
    pub cpu: CpuId,
    pub count: u32,
    pub duty: Duty,
}

/// A processor that acts, with the homes that it holds.
#[derive(Drop)]
pub struct Acting {
    pub hand: Hand,
    pub actor: Actor,
}
