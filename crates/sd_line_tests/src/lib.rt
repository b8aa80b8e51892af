//! Tests of the lines of a journal, written and read, over a workload that is read from a text, and of the log that keeps entries. All
//! expected values were written by hand.
#![tactic(auto)]

#[cfg(test)]
mod events;
#[cfg(test)]
mod given;
#[cfg(test)]
mod lines;
#[cfg(test)]
mod logs;
