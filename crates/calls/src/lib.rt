// What is asked of a line, what it answers, and the numbers that both rest on.
#![tactic(auto)]

pub mod call;
pub mod refusal;
pub mod session;
pub mod stride;
