// Reading a trace: octets in, calls and faults out.
#![tactic(auto)]

pub mod cut;
pub mod fault;
pub mod field;
pub mod laws;
pub mod line;
pub mod listing;
pub mod number;
pub mod reading;
pub mod stream;
pub mod text;
