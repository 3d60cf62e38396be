// The listing of a trace: the text of its lines, and the whole of it.
#![tactic(auto)]

pub mod laws;
mod lines;
pub mod lister;
mod text;
pub mod whole;
