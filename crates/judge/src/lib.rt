// Judges the units of an element: the rules on contents, the verdicts, and one row a unit.
#![tactic(auto)]

mod judging;
mod rooms;
mod rules;
#[cfg(test)]
mod tests;
mod verdicts;

pub use judging::{JudgeFault, JudgedUnit, MOST_UNITS, blank_rows, judge};
pub use verdicts::Verdict;
