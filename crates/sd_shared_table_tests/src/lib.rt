//! Tests of the homes that processors share: a home that is held, a thread whose home is held, two threads of the host at one table, and
//! what they find in their way.
#![tactic(auto)]

#[cfg(test)]
mod counting;
#[cfg(test)]
mod deeds;
#[cfg(test)]
mod joining;
#[cfg(test)]
mod sharing;
#[cfg(test)]
mod tables;
#[cfg(test)]
mod trying;
