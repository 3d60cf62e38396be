// The calls that make a table and change it.
ghost use Rattle.std.specs.Prelude.{◌≡◌, IfOk, IfNone, OnErr};
ghost use Rattle.waiting.specs.Queues.{queue, no_packets, put_answer, first_answer, after_put, after_take};

use crate::chains::Chains;
use crate::table::Waiting;
use calls::call::Packet;
use calls::refusal::Refusal;

impl Waiting {
    // A table in which no packet waits.
    #[tactic(auto, using(crate::proofs::Making::fresh_keeps, crate::proofs::Making::fresh_queue), unfolding(crate::specs::Queues::queue))]
    pub fn new() -> Waiting
        ensures { queue result ≡ no_packets }
    {
        Waiting {
            chains: Chains::new(),
        }
    }

    // Puts the packet last in the session's queue. Refused: no such session, then no place.
    #[tactic(auto, using(crate::proofs::Stepping::append_queues))]
    pub fn put_last(&mut self, session: u32, packet: Packet) -> Result<(), Refusal>
        ensures answer { result ≡ put_answer (queue self.old) session }
        ensures queues { queue self.new ≡ after_put (queue self.old) session packet result }
        ensures refused { OnErr result (self.new ≡ self.old) }
    {
        self.check_put(session)?;
        self.chains.append(session, packet);
        Ok(())
    }

    // Takes the first packet out of the session's queue, if there is one. Its place is free at once.
    #[tactic(auto, using(crate::proofs::Stepping::remove_queues, crate::proofs::Using::take_refused))]
    pub fn take_first(&mut self, session: u32) -> Result<Option<Packet>, Refusal>
        ensures answer { result ≡ first_answer (queue self.old) session }
        ensures queues { queue self.new ≡ after_take (queue self.old) session }
        ensures refused { OnErr result (self.new ≡ self.old) }
        ensures none { IfOk result (λ first. IfNone first (self.new ≡ self.old)) }
    {
        let Some(packet) = self.first(session)? else {
            return Ok(None);
        };
        self.chains.remove_first(session);
        Ok(Some(packet))
    }
}
