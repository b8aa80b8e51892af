//! Tests of the texts of workloads: how bytes come and go, lines, scripts, what is declared, whole workloads and their canonical spellings.
//! All cases were worked out by hand.
#![tactic(auto)]

#[cfg(test)]
mod damaged;
#[cfg(test)]
mod declared;
#[cfg(test)]
mod fault_texts;
#[cfg(test)]
mod judging;
#[cfg(test)]
mod lines;
#[cfg(test)]
mod scripts;
#[cfg(test)]
mod spellings;
#[cfg(test)]
mod streams;
#[cfg(test)]
mod tables;
#[cfg(test)]
mod workloads;
