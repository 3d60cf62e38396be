// The calls of a line and their answers.
use crate::refusal::Refusal;

// The most octets that a packet of any session has.
pub const LONGEST_PACKET: u32 = 65_535;

// A piece of a message. The ticket is the host's own; the mark is given when the packet enters.
#[derive(Clone, Copy, PartialEq, Eq, Debug)]
pub struct Packet {
    pub length: u32,
    pub ticket: u32,
    pub mark: u64,
}

// What a session is opened with.
#[derive(Clone, Copy, PartialEq, Eq, Debug)]
pub struct Terms {
    pub weight: u32,
    pub limit: u32,
}

// A packet in service, with its session.
#[derive(Clone, Copy, PartialEq, Eq, Debug)]
pub struct Service {
    pub session: u32,
    pub packet: Packet,
}

// One call, with the numbers as they were given: any of 32 bits.
#[derive(Clone, Copy, PartialEq, Eq, Debug)]
pub enum Call {
    Open {
        session: u32,
        weight: u32,
        limit: u32,
    },
    Enter {
        session: u32,
        length: u32,
        ticket: u32,
    },
    Start,
    Finish,
}

// What a line answers to a call that it accepts.
#[derive(Clone, Copy, PartialEq, Eq, Debug)]
pub enum Reply {
    Opened,
    Entered { mark: u64 },
    Started(Service),
    Finished(Service),
}

// What a line answers. A refused call changes nothing.
pub type Answer = Result<Reply, Refusal>;
