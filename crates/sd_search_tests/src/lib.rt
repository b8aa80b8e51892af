//! Tests of the search: how many states small workloads have and in how many of them runs end, as another program found them that
//! searched all orders of the processors; when threads end in them, how long they wait and how many entries their runs have at most, as was worked out by hand; and states as bytes.
#![tactic(auto)]

#[cfg(test)]
mod counts;
#[cfg(test)]
mod encoding;
#[cfg(test)]
mod extremes;
#[cfg(test)]
mod latency;
#[cfg(test)]
mod longest;
#[cfg(test)]
mod searches;
