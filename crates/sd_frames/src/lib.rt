//! One event at a time: what its processor found, where it moves a thread, what it changes and what it leaves alone. It has
//! definitions and lemmas alone, and no law of runs: each lemma is of one state and the state after it.
#![tactic(auto)]
