//! The rules of the scheduling classes, of dispatch tables, of processor sets and of the dispatcher's choices, as definitions
//! and lemmas that contracts cite. There is code for those rules that need neither a class nor a state: the choice of a
//! processor, the choice of a victim from whom a thread is stolen, and the partitions with which a run begins.
#![tactic(auto)]

mod choice_laws;
mod choices;
mod partition_laws;
mod partitions;

pub use choice_laws::{functions_choose, one_choice, one_victim};
pub use choices::{choose, is_busier, victim};
pub use partition_laws::{each_in_one, partitions_are_sets, partitions_stand};
pub use partitions::{cpus_of_set, set_of_cpu};
