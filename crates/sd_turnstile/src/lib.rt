//! Turnstiles: the queues on which threads wait for locks, writers and readers apart.
#![tactic(auto)]

mod chain;
mod rack;
mod serving;
mod turnstile;

pub use chain::TurnstileChain;
pub use rack::Rack;
pub use turnstile::Turnstile;
