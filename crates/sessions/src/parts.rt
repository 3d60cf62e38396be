// The parts of the state, and the small changes that the calls are made of.
ghost use Rattle.std.specs.Prelude.{◌≡◌, ◌<◌, length, is_some, Some, option_map};
ghost use Rattle.calls.specs.Strides.{charge};
ghost use Rattle.sharing.specs.Rules.{open_refusal};
ghost use Rattle.waiting.specs.Queues.{all_waiting};
ghost use Rattle.sessions.specs.Seats.{seat_at, account_at, new_account, with_octets};
ghost use Rattle.sessions.specs.Conditions.{moved, resting, free_from, start_from, service_of};
ghost use Rattle.sessions.specs.Verdicts.{verdict, served};

use crate::condition::{Condition, Event};
use crate::seat::Account;
use calls::call::{LONGEST_PACKET, Packet, Service, Terms};
use calls::refusal::{Refusal, check_within};
use calls::session::{SESSIONS, place_of};
use calls::stride::{LARGEST_WEIGHT, charge};
use waiting::table::Waiting;

#[derive(Clone, Copy)]
pub(crate) struct Parts {
    pub(crate) seats: [Option<Account>; SESSIONS],
    pub(crate) waiting: Waiting,
    pub(crate) condition: Condition,
    ghost sessions: { length seats ≡ 64 },
}

impl Parts {
    ghost use Rattle.sessions.specs.Steps.{Fresh, Entering, Starting, with_seat, with_condition};

    // Every session closed, and nothing waits.
    pub(crate) fn new() -> Parts
        ensures { Fresh result }
    {
        Parts {
            seats: [None; SESSIONS],
            waiting: Waiting::new(),
            condition: Condition::Idle,
        }
    }

    // The account of an open session.
    pub(crate) fn account(&self, session: u32) -> Result<Account, Refusal>
        ensures { result ≡ account_at self.now.seats session }
    {
        let place = place_of(session)?;
        self.seats[place].ok_or(Refusal::NotOpen)
    }

    // Whether the session can be opened with these terms.
    pub(crate) fn check_open(&self, session: u32, terms: Terms) -> Result<(), Refusal>
        ensures { result ≡ verdict (open_refusal (is_some (seat_at self.now.seats session)) session terms.weight terms.limit) tt }
    {
        let place = place_of(session)?;
        check_within(terms.weight, LARGEST_WEIGHT, Refusal::BadWeight)?;
        check_within(terms.limit, LONGEST_PACKET, Refusal::BadLimit)?;
        if self.seats[place].is_some() {
            return Err(Refusal::AlreadyOpen);
        }
        Ok(())
    }

    // Refused while a packet is in service.
    pub(crate) fn check_free(&self) -> Result<(), Refusal>
        ensures { result ≡ free_from self.now.condition }
    {
        match self.condition {
            Condition::Carrying(_) => Err(Refusal::ServerBusy),
            _ => Ok(()),
        }
    }

    // Refused while a packet is in service, and when nothing waits.
    pub(crate) fn check_start(&self) -> Result<(), Refusal>
        ensures { result ≡ start_from self.now.condition }
    {
        match self.condition {
            Condition::Carrying(_) => Err(Refusal::ServerBusy),
            Condition::Idle => Err(Refusal::NothingWaiting),
            Condition::Pausing => Ok(()),
        }
    }

    // The packet in service with its session, if there is one.
    pub(crate) fn in_service(&self) -> Option<Service>
        ensures { result ≡ service_of self.now.condition }
    {
        match self.condition {
            Condition::Carrying(service) => Some(service),
            _ => None,
        }
    }

    // The packet in service with its session. Refused while there is none.
    pub(crate) fn carried(&self) -> Result<Service, Refusal>
        ensures { result ≡ served (service_of self.now.condition) }
    {
        self.in_service().ok_or(Refusal::NothingInService)
    }

    // The condition while no packet is in service.
    fn rest(&self) -> Condition
        ensures { result ≡ resting (all_waiting self.now.waiting) }
    {
        if self.waiting.total() == 0 {
            return Condition::Idle;
        }
        Condition::Pausing
    }

    // Moves the condition on.
    fn moves(&mut self, event: Event)
        ensures { self.new ≡ with_condition self.old (moved self.old.condition event (all_waiting self.old.waiting)) }
    {
        self.condition = match (self.condition, event) {
            (Condition::Idle, Event::Entered) => Condition::Pausing,
            (Condition::Pausing, Event::Started(service)) => Condition::Carrying(service),
            (Condition::Carrying(_), Event::Finished) => self.rest(),
            (condition, _) => condition,
        };
    }

    // Opens the session with these terms.
    pub(crate) fn open(&mut self, session: u32, terms: Terms)
        requires { session < 64 }
        ensures { self.new ≡ with_seat self.old session (Some (new_account terms)) }
    {
        self.seats[session as usize] = Some(Account::new(terms));
    }

    // The packet waits as the last of its session.
    pub(crate) fn enter(&mut self, session: u32, packet: Packet)
        requires number { session < 64 }
        requires room { all_waiting self.old.waiting < 256 }
        ensures { Entering self.old session packet self.new }
    {
        let _ = self.waiting.put_last(session, packet);
        self.moves(Event::Entered);
    }

    // The first waiting packet of the session goes into service.
    pub(crate) fn start(&mut self, service: Service)
        ensures { Starting self.old service self.new }
    {
        let _ = self.waiting.take_first(service.session);
        self.moves(Event::Started(service));
    }

    // Adds the packet's charge to the octets of its session.
    fn credit(&mut self, service: Service)
        requires { service.session < 64 }
        ensures { self.new ≡ with_seat self.old service.session (option_map (with_octets (charge service.packet.length)) (seat_at self.old.seats service.session)) }
    {
        let index = service.session as usize;
        let amount = charge(service.packet.length);
        self.seats[index] = self.seats[index].map(|account| account.credited(amount));
    }

    // The packet in service leaves, and its session is charged.
    pub(crate) fn finish(&mut self, service: Service)
        requires { service.session < 64 }
        ensures { self.new ≡ with_condition (with_seat self.old service.session (option_map (with_octets (charge service.packet.length)) (seat_at self.old.seats service.session))) (moved self.old.condition Event.Finished (all_waiting self.old.waiting)) }
    {
        self.credit(service);
        self.moves(Event::Finished);
    }
}
