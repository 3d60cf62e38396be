// The calls that make the sessions and change them.
ghost use Rattle.std.specs.Prelude.{◌≡◌, OnErr};
ghost use Rattle.sharing.specs.Meanings.{nothing_open, after_open, after_enter};
ghost use Rattle.sessions.specs.Meanings.{meaning_of};
ghost use Rattle.sessions.specs.Verdicts.{verdict, settled, why_open, why_put, take_answer, after_take, finish_answer, after_served};

use crate::parts::Parts;
use crate::state::Sessions;
use calls::call::{Packet, Service, Terms};
use calls::refusal::Refusal;

impl Sessions {
    // Every session closed, and nothing waits.
    #[tactic(auto, using(crate::proofs::Keeping::fresh_keeps, crate::proofs::Changing::fresh_meaning), unfolding(crate::specs::Meanings::meaning_of))]
    pub fn new() -> Sessions
        ensures { meaning_of result ≡ nothing_open }
    {
        Sessions {
            parts: Parts::new(),
        }
    }

    // Opens the session. Refused: no such session, a wrong weight, a wrong limit, open already.
    #[tactic(auto, using(crate::proofs::Stepping::opened, crate::proofs::Stepping::stays, crate::proofs::Stepping::open_below, crate::proofs::Stepping::open_keeps))]
    pub fn open(&mut self, session: u32, weight: u32, limit: u32) -> Result<(), Refusal>
        ensures answer { result ≡ verdict (why_open (meaning_of self.old) session weight limit) tt }
        ensures after { meaning_of self.new ≡ settled (why_open (meaning_of self.old) session weight limit) (meaning_of self.old) (after_open (meaning_of self.old) session weight limit) }
        ensures refused { OnErr result (self.new ≡ self.old) }
    {
        let terms = Terms { weight, limit };
        self.check_open(session, terms)?;
        self.parts.open(session, terms);
        Ok(())
    }

    // The packet waits as the last of its session. Refused: no such session, not open, 256 packets wait.
    #[tactic(auto, using(crate::proofs::Stepping::put_below, crate::proofs::Stepping::put_room, crate::proofs::Stepping::entered, crate::proofs::Stepping::stays))]
    pub fn put(&mut self, session: u32, packet: Packet) -> Result<(), Refusal>
        ensures answer { result ≡ verdict (why_put (meaning_of self.old) session) tt }
        ensures after { meaning_of self.new ≡ settled (why_put (meaning_of self.old) session) (meaning_of self.old) (after_enter (meaning_of self.old) session packet) }
        ensures refused { OnErr result (self.new ≡ self.old) }
    {
        self.check_put(session)?;
        self.parts.enter(session, packet);
        Ok(())
    }

    // The first waiting packet of the session goes into service. Refused: a packet is in service, no such session, it has no packet.
    #[tactic(auto, using(crate::proofs::Stepping::take_busy, crate::proofs::Stepping::take_past, crate::proofs::Stepping::take_none, crate::proofs::Stepping::take_ok, crate::proofs::Stepping::took))]
    pub fn take(&mut self, session: u32) -> Result<Service, Refusal>
        ensures answer { result ≡ take_answer (meaning_of self.old) session }
        ensures after { meaning_of self.new ≡ after_take (meaning_of self.old) result }
        ensures refused { OnErr result (self.new ≡ self.old) }
    {
        self.parts.check_free()?;
        let Some(packet) = self.parts.waiting.first(session)? else {
            return Err(Refusal::NothingWaiting);
        };
        let service = Service { session, packet };
        self.parts.start(service);
        Ok(service)
    }

    // The packet in service leaves, and its session is charged. Refused: none is in service.
    #[tactic(auto, using(crate::proofs::Stepping::finish_verdict, crate::proofs::Stepping::finish_below, crate::proofs::Stepping::finished_keeps, crate::proofs::Stepping::finished))]
    pub fn finish(&mut self) -> Result<Service, Refusal>
        ensures answer { result ≡ finish_answer (meaning_of self.old) }
        ensures after { meaning_of self.new ≡ after_served (meaning_of self.old) result }
        ensures refused { OnErr result (self.new ≡ self.old) }
    {
        let service = self.parts.carried()?;
        self.parts.finish(service);
        Ok(service)
    }
}
