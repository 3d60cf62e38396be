// The places in chains: the queue of each session, and the places that are free.
ghost use Rattle.std.specs.Prelude.{◌≡◌, ◌<◌};
ghost use Rattle.waiting.specs.Steps.{Fresh, Appendable, Removable, stored, freed, linked, appended, removed};

use crate::place::{Place, Queue};
use crate::table::PLACES;
use calls::call::Packet;
use calls::session::SESSIONS;

// The free places are a chain of 256 - `used` places, of which `free` is the first.
#[derive(Clone, Copy)]
pub(crate) struct Chains {
    pub(crate) places: [Place; PLACES as usize],
    pub(crate) queues: [Queue; SESSIONS],
    pub(crate) free: u32,
    pub(crate) used: u32,
}

impl Chains {
    // Every place free, and no packet in any queue.
    #[tactic(auto, using(crate::proofs::Making::linked_below_none))]
    pub(crate) fn new() -> Chains
        ensures { Fresh result }
    {
        let mut places = [Place::EMPTY; PLACES as usize];
        for i in 0..PLACES - 1 {
            places[i as usize].next = i + 1;
        }
        Chains {
            places,
            queues: [Queue::EMPTY; SESSIONS],
            free: 0,
            used: 0,
        }
    }

    // Puts the packet into the first free place, and answers that place.
    fn store(&mut self, packet: Packet) -> u32
        requires { (self.old.free < 256) × (self.old.used < 256) }
        ensures place { result ≡ self.old.free }
        ensures after { self.new ≡ stored self.old packet }
    {
        let place = self.free;
        self.free = self.places[place as usize].next;
        self.places[place as usize].packet = packet;
        self.used += 1;
        place
    }

    // Makes the place the first of the free ones.
    fn release(&mut self, place: u32)
        requires { (place < 256) × (0 < self.old.used) }
        ensures { self.new ≡ freed self.old place }
    {
        self.places[place as usize].next = self.free;
        self.free = place;
        self.used -= 1;
    }

    // Puts the place behind the last one of the queue, if the queue has any.
    fn link(&mut self, queue: Queue, place: u32)
        requires { queue.tail < 256 }
        ensures { self.new ≡ linked self.old queue place }
    {
        if queue.count == 0 {
            return;
        }
        self.places[queue.tail as usize].next = place;
    }

    // Puts the packet last in the session's queue.
    pub(crate) fn append(&mut self, session: u32, packet: Packet)
        requires { Appendable self.old session packet }
        ensures { self.new ≡ appended self.old session packet }
    {
        let place = self.store(packet);
        let queue = self.queues[session as usize];
        self.link(queue, place);
        self.queues[session as usize] = queue.with_last(place, packet.length);
    }

    // Takes the first packet out of the session's queue, and frees its place.
    pub(crate) fn remove_first(&mut self, session: u32)
        requires { Removable self.old session }
        ensures { self.new ≡ removed self.old session }
    {
        let queue = self.queues[session as usize];
        let place = self.places[queue.head as usize];
        self.release(queue.head);
        self.queues[session as usize] = queue.without_first(place.next, place.packet.length);
    }
}
