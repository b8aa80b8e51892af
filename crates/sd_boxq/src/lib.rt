//! Queues of boxes that are linked through themselves. A box moves from queue to queue, and no move
//! takes memory.
#![tactic(auto)]

mod boxed;
mod four;
mod node;
mod nodes;
mod queue;
mod ranked;
mod search;

pub use boxed::Boxed;
pub use four::Four;
pub use node::Node;
pub use nodes::items::Items;
pub use nodes::walk::Walk;
pub use queue::BoxQueue;
pub use ranked::Ranked;
