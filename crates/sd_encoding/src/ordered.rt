//! A state of which the keys count only by their order.

use sd_state::State;

/// A state that stands for each in which the keys have the same order.
#[derive(Drop)]
pub struct Ordered {
    pub state: State,
}
