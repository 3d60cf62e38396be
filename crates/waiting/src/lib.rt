// Packets that wait, one queue for each session, all in one table of 256 places.
#![tactic(auto)]

mod chains;
mod place;
pub mod table;
