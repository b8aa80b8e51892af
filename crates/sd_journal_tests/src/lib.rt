//! Tests of journals: the audit and the drawings of one, and the accounts, the blocking cycles, the history and the report of a run
//! over threads that stand in given places. All expected values were written by hand.
#![tactic(auto)]

#[cfg(test)]
mod accounts;
#[cfg(test)]
mod audits;
#[cfg(test)]
mod blocking;
#[cfg(test)]
mod deadlines;
#[cfg(test)]
mod drawings;
#[cfg(test)]
mod given;
#[cfg(test)]
mod reports;
#[cfg(test)]
mod sentences;
#[cfg(test)]
mod shown;
