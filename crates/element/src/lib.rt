// Reads a protocol configuration options element: frames it, and cuts it into units under any catalogue.
#![tactic(auto)]

mod cursor;
mod outer;
mod reader;
#[cfg(test)]
mod tests;
mod units;

pub use cursor::{Cursor, PlacedUnit};
pub use reader::{ReaderFault, Whole, read};
pub use units::Units;
