// A ready line: the sessions that wait, each with its tag, and which of them comes first.
#![tactic(auto)]

pub mod entry;
pub mod heap;
pub mod laws;
pub mod line;
mod moves;
pub mod scan;
