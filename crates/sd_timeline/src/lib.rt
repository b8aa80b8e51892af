//! The timeline of a run: an SVG picture with a row for each processor and each thread. It is one file that needs no other,
//! made of rectangles, lines and texts whose places are given by ticks and by numbers of rows.
//!
//! Names stand in it as they are, since none means anything in XML (`names_need_no_escaping` of `sd_stretches`).
#![tactic(auto)]

mod arrows;
mod bars;
mod circles;
mod colours;
mod head;
mod held;
mod labels;
mod laws;
mod legend;
mod moments;
mod notes;
mod parts;
mod picture;
mod pieces;
mod style;

pub use laws::{timelines_are_plain, titles_need_no_escaping};
pub use picture::timeline;
