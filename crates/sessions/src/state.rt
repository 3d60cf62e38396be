// The state of the sessions.
ghost use Rattle.sessions.specs.Invariants.{TermsWithin, ClosedEmpty, ConditionFits, ServesOpen};

use crate::parts::Parts;

pub mod changes;
pub mod questions;

// The sessions, their waiting packets and the packet in service.
#[derive(Clone, Copy)]
pub struct Sessions {
    parts: Parts,
    // Weights are from 1 to 16, limits from 1 to 65,535.
    ghost terms: { TermsWithin parts },
    // Nothing waits in a session that is not open.
    ghost closed: { ClosedEmpty parts },
    // The condition is idle when nothing waits, pausing when something does, or a packet is in service.
    ghost fits: { ConditionFits parts },
    // The session of the packet in service is open.
    ghost served: { ServesOpen parts },
}
