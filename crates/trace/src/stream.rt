// A trace that comes in chunks.
use arrayvec::ArrayVec;
use std::marker::Model;

pub mod steps;

// What is held of a line: of one that is too long, one octet more than it may have.
pub(crate) type Held = ArrayVec<u8, 81>;

// The line that is being read: its number and its first octets. Of a line that is too long 81 octets are enough.
#[derive(Drop)]
pub struct LineReader {
    at: u32,
    held: Held,
}

// A contract sees the number and the octets.
impl Model for LineReader {
    ghost use Rattle.trace.specs.Streams.{Stream};

    ghost Value = { Stream };

    ghost view = { λ x. record { at = x.at; held = x.held.items } };
}
