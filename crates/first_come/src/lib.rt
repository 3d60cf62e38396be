// First come, first served: the packet that entered earliest starts first.
#![tactic(auto)]

pub mod line;
mod ring;
