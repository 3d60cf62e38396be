// A ready line that keeps its entries in order, the least last.
#![tactic(auto)]

pub mod line;
mod order;
