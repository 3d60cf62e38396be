// What can be asked of the table. Nothing here changes it.
ghost use Rattle.std.specs.Prelude.{◌≡◌, ◌≤◌};
ghost use Rattle.waiting.specs.Queues.{queue, all_waiting, first_answer, count_answer, lengths_answer, room_answer, put_answer};
ghost use Rattle.waiting.specs.Headers.{HeaderAnswer};

use crate::place::Queue;
use crate::table::{PLACES, Waiting};
use calls::call::Packet;
use calls::refusal::Refusal;
use calls::session::place_of;

impl Waiting {
    // The header of the session's queue.
    #[tactic(auto, using(crate::proofs::Reading::describes))]
    fn header(&self, session: u32) -> Result<Queue, Refusal>
        ensures { HeaderAnswer self.now session result }
    {
        let index = place_of(session)?;
        Ok(self.chains.queues[index])
    }

    // The session's first packet, if it has any.
    pub fn first(&self, session: u32) -> Result<Option<Packet>, Refusal>
        ensures { result ≡ first_answer (queue self.now) session }
    {
        let queue = self.header(session)?;
        if queue.count == 0 {
            return Ok(None);
        }
        Ok(Some(self.chains.places[queue.head as usize].packet))
    }

    // How many packets the session has.
    pub fn count(&self, session: u32) -> Result<u32, Refusal>
        ensures { result ≡ count_answer (queue self.now) session }
    {
        let queue = self.header(session)?;
        Ok(queue.count)
    }

    // The lengths of the session's packets together.
    pub fn lengths(&self, session: u32) -> Result<u64, Refusal>
        ensures { result ≡ lengths_answer (queue self.now) session }
    {
        let queue = self.header(session)?;
        Ok(queue.lengths)
    }

    // How many packets all sessions have together: at most 256.
    #[tactic(auto, using(crate::proofs::Reading::used_is_all_waiting))]
    pub fn total(&self) -> u32
        ensures all { result ≡ all_waiting self.now }
        ensures most { result ≤ 256 }
    {
        self.chains.used
    }

    // Refused while every place is taken.
    pub fn check_room(&self) -> Result<(), Refusal>
        ensures { result ≡ room_answer (all_waiting self.now) }
    {
        if self.total() >= PLACES {
            return Err(Refusal::Full);
        }
        Ok(())
    }

    // Whether the session can have one packet more. Refused: no such session, then no place.
    pub(crate) fn check_put(&self, session: u32) -> Result<(), Refusal>
        ensures { result ≡ put_answer (queue self.now) session }
    {
        place_of(session)?;
        self.check_room()
    }
}
