//! The homes of a state: where its threads stand, as in the kernel. A processor with its dispatch queue, the real-time queue
//! of a partition, a chain of turnstiles, a chain of sleep queues. Threads move from home to home, and no move takes memory.
//! The contracts speak of lists; what a home shows of a state is said above.
#![tactic(auto)]

mod bodies;
mod chain;
mod cpu;
mod home;
mod list_id;
mod parts;
mod places;
mod ready;
mod ready_index;
mod real_time;
mod sleepers;
mod traveller;

pub use chain::ChainHome;
pub use cpu::CpuHome;
pub use home::{Home, home_at, same_home};
pub use list_id::ListId;
pub use places::{is_over, list_at, record_key};
pub use real_time::{IsFull, RealTimeHome};
pub use sleepers::SleepersHome;
pub use traveller::Traveller;
