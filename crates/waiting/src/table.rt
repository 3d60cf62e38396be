// The table of the packets that wait.
ghost use Rattle.std.specs.Prelude.{◌≡◌, ◌<◌, ◌≤◌, length};
ghost use Rattle.waiting.specs.Invariants.{LinksWithin, HeadsWithin, TailsWithin, LengthsWithin, TailsLast, LengthsSummed, CountsSummed, NoPlaceTwice};

use crate::chains::Chains;

pub mod changes;
pub mod questions;

// How many packets can wait, of all sessions together.
pub const PLACES: u32 = 256;

// A queue of packets for each session, in order of arrival.
#[derive(Clone, Copy)]
pub struct Waiting {
    chains: Chains,
    // The arrays have their lengths, and every number of a place is below 256.
    ghost places: { length chains.places ≡ 256 },
    ghost queues: { length chains.queues ≡ 64 },
    ghost links: { LinksWithin chains },
    ghost heads: { HeadsWithin chains },
    ghost tails: { TailsWithin chains },
    ghost free: { chains.free < 256 },
    // No more places are used than there are, and a length has 32 bits: no count and no sum of lengths wraps.
    ghost used: { chains.used ≤ 256 },
    ghost sizes: { LengthsWithin chains },
    // What a header says of its queue is true, and the used places are those of the queues.
    ghost lasts: { TailsLast chains },
    ghost lengths: { LengthsSummed chains },
    ghost counts: { CountsSummed chains },
    // A place is free or in one queue, and stands there once.
    ghost once: { NoPlaceTwice chains },
}
