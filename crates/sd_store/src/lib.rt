//! What the events of the machine need of the thing that holds its state: look-ups, and the changes of which they are
//! composed, each small enough that a part of the state can answer it alone.
#![tactic(auto)]

mod changes;
mod clock;
mod flat;
mod keyless;
mod look;
mod parts;
mod sets;
mod spots;
mod store;

pub use changes::BodyChange;
pub use clock::Clock;
pub use flat::{Never, view_of};
pub use keyless::{duty_of, place_by, place_put, rouse, rouse_key, set_of, task_of, walk};
pub use look::Look;
pub use parts::{CpuView, Part};
pub use sets::Sets;
pub use spots::{Chore, Destination, Spot, Task};
pub use store::{Store, finish_op, hold, inherit, let_go, send_back, set_class, set_looped, tick};
