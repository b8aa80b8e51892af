//! A state as compact bytes, and back: its numbers, each with the zeros behind it. With it a state with its rank for each key, so
//! that states whose keys have the same order have the same bytes.
#![tactic(auto)]

mod arrays;
mod buffer;
mod bytes;
mod classes;
mod clock;
mod duties;
mod encoding;
mod identities;
mod items;
mod locks;
mod look;
mod ordered;
mod packed;
mod places;
mod plain;
mod processors;
mod ranks;
mod sets;
mod spelled;
mod states;
mod store;
mod threads;
mod writer;

pub use bytes::read_numbers;
pub use encoding::{decode, encode, encodings_differ, states_are_read_again};
pub use ordered::Ordered;
pub use writer::Writer;
