// The text that the lister prints: a type for each line but the heading, and a function for the whole listing.
#![tactic(auto)]

mod lines;
#[cfg(test)]
mod tests;
mod text;

pub use lines::{CountLine, FaultLine, UnitLine, heading, hex_figure, unit_line};
pub use text::list;
