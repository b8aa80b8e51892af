//! Tests of the scheduling classes, of priocntl, of the choices of a processor and of a victim, and of partitions. All expected values were
//! worked out by hand.
#![tactic(auto)]

#[cfg(test)]
mod choices;
#[cfg(test)]
mod fixed_priority;
#[cfg(test)]
mod given;
#[cfg(test)]
mod partitions;
#[cfg(test)]
mod priocntl;
#[cfg(test)]
mod real_time;
#[cfg(test)]
mod tables;
#[cfg(test)]
mod time_sharing;
