//! Tests of task sets: accepted ones with the lines to which they expand, and refused ones. The expected bytes, maps and refusals come from
//! an independent program.
#![tactic(auto)]

#[cfg(test)]
mod accepted;
#[cfg(test)]
mod judging;
#[cfg(test)]
mod refused;
