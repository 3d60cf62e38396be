// What the table is made of: places for packets, and the headers of the queues.
ghost use Rattle.std.specs.Prelude.{◌≡◌, ◌+◌, ◌^◌, ◌<◌, ◌≤◌};
ghost use Rattle.waiting.specs.Steps.{with_last, without_first};

use calls::call::Packet;

// A place holds a packet of some queue, or it is free. `next` is the place behind it, in its queue or among the free places.
#[derive(Clone, Copy)]
pub(crate) struct Place {
    pub(crate) packet: Packet,
    pub(crate) next: u32,
}

impl Place {
    pub(crate) const EMPTY: Place = Place {
        packet: Packet {
            length: 0,
            ticket: 0,
            mark: 0,
        },
        next: 0,
    };
}

// The header of a queue: its first and its last place, which say nothing while it has no packet; how many packets it has; and
// their lengths together.
#[derive(Clone, Copy)]
pub(crate) struct Queue {
    pub(crate) head: u32,
    pub(crate) tail: u32,
    pub(crate) count: u32,
    pub(crate) lengths: u64,
}

impl Queue {
    pub(crate) const EMPTY: Queue = Queue {
        head: 0,
        tail: 0,
        count: 0,
        lengths: 0,
    };

    // The header once a packet of this length stands last, in this place.
    pub(crate) fn with_last(self, place: u32, length: u32) -> Queue
        requires { (self.count < 256) × (self.lengths + length < 2 ^ 64) }
        ensures { result ≡ with_last self place length }
    {
        Queue {
            head: if self.count == 0 { place } else { self.head },
            tail: place,
            count: self.count + 1,
            lengths: self.lengths + u64::from(length),
        }
    }

    // The header once the first packet, of this length, is gone and `next` is the first place.
    pub(crate) fn without_first(self, next: u32, length: u32) -> Queue
        requires { (0 < self.count) × (length ≤ self.lengths) }
        ensures { result ≡ without_first self next length }
    {
        Queue {
            head: next,
            tail: self.tail,
            count: self.count - 1,
            lengths: self.lengths - u64::from(length),
        }
    }
}
