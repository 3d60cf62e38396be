// The rule of first come: the packet that entered earliest starts first, every mark is 0, and a packet may have any length up to 65,535.
ghost use Rattle.std.specs.Prelude.{◌≡◌, None, refl};
ghost use Rattle.std.proofs.Common.{ap, arith, rules};
ghost use Rattle.calls.specs.declared.call.Call.TheVariants.{Enter};
ghost use Rattle.sessions.specs.Meanings.{meaning_of};
ghost use Rattle.sessions.specs.Verdicts.{verdict, why_put};
ghost use Rattle.first_come.specs.Models.{Exact, new_model, unmarked, appended, why, room_in, reach_in};
ghost use Rattle.first_come.specs.States.{model_of};
ghost use Rattle.first_come.specs.Moving.{exact_moves};
ghost use Rattle.sessions.proofs.Generals.{refused_leaves};
ghost use Rattle.sessions.proofs.Using.{open_in_order, at_most_256};

use crate::line::FirstCome;
use crate::ring::Ring;
use calls::call::{LONGEST_PACKET, Packet, Service, Terms};
use calls::refusal::Refusal;
use discipline::discipline::Discipline;
use sessions::state::Sessions;

// A packet with the mark 0.
fn unmarked(length: u32, ticket: u32) -> Packet
    ensures { result ≡ unmarked length ticket }
{
    Packet {
        length,
        ticket,
        mark: 0,
    }
}

impl FirstCome {
    // Every session closed, and nothing waits.
    #[tactic(auto, using(crate::specs::Stepping::fresh_keeps, crate::specs::Stepping::fresh_model))]
    pub fn new() -> FirstCome
        ensures { model_of result ≡ new_model }
    {
        FirstCome {
            sessions: Sessions::new(),
            ring: Ring::new(),
        }
    }

    // Whether the session may enter a packet of this length. The ticket plays no part.
    fn check_enter(&self, session: u32, length: u32) -> Result<(), Refusal>
        ensures { result ≡ verdict (why (meaning_of self.now.sessions) (Enter session length 0)) tt }
    {
        self.sessions.check_length(session, length)?;
        self.sessions.check_room()
    }

    // The packet waits as the last of its session, and is the latest arrival.
    #[tactic(auto, using(crate::specs::Stepping::append_model, crate::specs::Stepping::append_keeps))]
    fn append(&mut self, session: u32, packet: Packet)
        requires { why_put (meaning_of self.old.sessions) session ≡ None }
        ensures { model_of self.new ≡ appended (model_of self.old) session packet }
    {
        let count = self.sessions.total();
        let _ = self.sessions.put(session, packet);
        self.ring.append(count, session);
    }
}

impl Discipline for FirstCome {
    ghost fresh = { λ x. model_of x ≡ new_model };

    // The fields of the line carry all that every call keeps.
    ghost sound = { λ x. Unit {0} };

    ghost steps = { λ x call answer y. Exact (model_of x) call answer (model_of y) };

    ghost meaning = { λ x. meaning_of x.sessions };

    ghost room = { λ x. room_in (meaning_of x.sessions) };

    ghost reach = { λ x. reach_in };

    ghost begins = { Prim.search rules };

    ghost empty = { λ x new. ap (λ z. z.meaning) new };

    ghost keeps = { Prim.search rules };

    ghost moves = { λ x y c a ok step. exact_moves x (model_of y) c a step };

    ghost refuses = { λ x y c e ok step. (ap room_in (refused_leaves (exact_moves x (model_of y) c _ step)), refl) };

    ghost idles = { λ x s t ok low none free opened. (omega arith, (open_in_order x.sessions s t opened).limit) };

    ghost few = { λ x ok. omega (arith, at_most_256 x.sessions) };

    #[tactic(auto, using(crate::specs::Stepping::open_leaves, crate::specs::Stepping::same_keeps, crate::specs::Stepping::same_arrivals))]
    fn open(&mut self, session: u32, weight: u32, limit: u32) -> Result<(), Refusal> {
        self.sessions.open(session, weight, limit)
    }

    #[tactic(auto, using(crate::specs::Stepping::enter_puts, sessions::proofs::Keeping::no_reason))]
    fn enter(&mut self, session: u32, length: u32, ticket: u32) -> Result<u64, Refusal> {
        self.check_enter(session, length)?;
        let packet = unmarked(length, ticket);
        self.append(session, packet);
        Ok(packet.mark)
    }

    #[tactic(auto, using(crate::specs::Stepping::start_keeps))]
    fn start(&mut self) -> Result<Service, Refusal> {
        self.sessions.check_start()?;
        let session = self.ring.first();
        let service = self.sessions.take(session)?;
        self.ring.advance();
        Ok(service)
    }

    #[tactic(auto, using(crate::specs::Stepping::finish_leaves, crate::specs::Stepping::same_keeps, crate::specs::Stepping::same_arrivals))]
    fn finish(&mut self) -> Result<Service, Refusal> {
        self.sessions.finish()
    }

    fn terms(&self, session: u32) -> Result<Terms, Refusal> {
        self.sessions.terms(session)
    }

    fn waiting_count(&self, session: u32) -> Result<u32, Refusal> {
        self.sessions.waiting_count(session)
    }

    fn waiting_lengths(&self, session: u32) -> Result<u64, Refusal> {
        self.sessions.waiting_lengths(session)
    }

    fn octets(&self, session: u32) -> Result<u64, Refusal> {
        self.sessions.octets(session)
    }

    fn room(&self, session: u32) -> Result<u32, Refusal> {
        self.sessions.terms(session)?;
        Ok(self.sessions.places_left())
    }

    fn reach(&self, session: u32) -> Result<u32, Refusal> {
        self.sessions.terms(session)?;
        Ok(LONGEST_PACKET)
    }

    fn in_service(&self) -> Option<Service> {
        self.sessions.in_service()
    }
}
