// Sessions, their waiting packets and the packet in service: what every line has, whatever its discipline.
#![tactic(auto)]

mod condition;
mod parts;
mod seat;
pub mod state;
