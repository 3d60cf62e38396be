// The numbers of the sessions.
ghost use Rattle.std.specs.Prelude.{◌≡◌};
ghost use Rattle.calls.specs.Places.{place_answer};

use crate::refusal::Refusal;

// How many sessions a line has. Their numbers are 0 to 63.
pub const SESSIONS: usize = 64;

// The place of a session in a table of 64: a session above 63 has none.
pub fn place_of(session: u32) -> Result<usize, Refusal>
    ensures { result ≡ place_answer session }
{
    let place = session as usize;
    if place >= SESSIONS {
        return Err(Refusal::NoSuchSession);
    }
    Ok(place)
}
