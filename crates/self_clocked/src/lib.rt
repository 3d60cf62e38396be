// The self-clocked discipline: the packet with the smallest mark starts, and the clock is the mark of the packet that started last.
#![tactic(auto)]

pub mod laws;
pub mod line;
mod marks;
pub mod whole;
