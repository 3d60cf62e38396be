// A line of first come.
ghost use Rattle.first_come.specs.Invariants.{ArrivalsListed};

use crate::ring::Ring;
use sessions::state::Sessions;

pub mod rule;

// The ring holds the session of each waiting packet, in the order in which the packets entered.
#[derive(Drop)]
pub struct FirstCome {
    sessions: Sessions,
    ring: Ring,
    // Each session stands in the ring once for each of its waiting packets.
    ghost listed: { ArrivalsListed sessions ring },
}
