// Why a call is refused.
ghost use Rattle.std.specs.Prelude.{◌≡◌, Ok, Err, if◌then◌else◌};
ghost use Rattle.calls.specs.Refusals.{refusal_number};
ghost use Rattle.calls.specs.Strides.{within};

// The reasons, each with its number. The numbers 14, 15 and 16 are faults of a trace line and no refusals.
#[derive(Clone, Copy, PartialEq, Eq, Debug)]
pub enum Refusal {
    // The session is above 63.
    NoSuchSession = 1,
    // The weight is 0 or above 16.
    BadWeight = 2,
    // The limit is 0 or above 65,535.
    BadLimit = 3,
    // The session is open already.
    AlreadyOpen = 4,
    // The session is not open.
    NotOpen = 5,
    // The length is 0 or above the session's limit.
    BadLength = 6,
    // The session has no room.
    Full = 7,
    // The length is above the session's reach.
    OutOfReach = 8,
    // Start, and nothing waits.
    NothingWaiting = 9,
    // Start, and a packet is in service.
    ServerBusy = 10,
    // Finish, and no packet is in service.
    NothingInService = 11,
    // The cap is 0 or above 256.
    BadCap = 12,
    // A buffer is too short.
    ShortBuffer = 13,
    // The trace is above 65,536 octets.
    LongTrace = 17,
    // The ready line has an entry of this session.
    DuplicateEntry = 18,
}

impl Refusal {
    // The number by which the refusal is told to a host.
    pub fn number(self) -> u32
        ensures { result ≡ refusal_number self }
    {
        self as u32
    }
}

// Refuses a number that is 0 or above the top, for this reason.
pub fn check_within(number: u32, top: u32, reason: Refusal) -> Result<(), Refusal>
    ensures { result ≡ (if within number top then Ok tt else Err reason) }
{
    if number == 0 || number > top {
        return Err(reason);
    }
    Ok(())
}
