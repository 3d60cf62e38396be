// Disciplines: what they show, and what stands over any of them.
#![tactic(auto)]

pub mod cap;
pub mod discipline;
pub mod run;
