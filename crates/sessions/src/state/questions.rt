// What can be asked of the sessions. Nothing here changes them.
ghost use Rattle.std.specs.Prelude.{◌≡◌, ◌≤◌};
ghost use Rattle.sharing.specs.Rules.{room_beside};
ghost use Rattle.sharing.specs.Meanings.{waiting_in, all_waiting, terms_answer, count_answer, lengths_answer, octets_answer};
ghost use Rattle.waiting.specs.Queues.{first_of};
ghost use Rattle.sessions.specs.Meanings.{meaning_of};
ghost use Rattle.sessions.specs.Verdicts.{verdict, why_open, why_start, why_put, room_answer_at, length_answer};

use crate::state::Sessions;
use calls::call::{Packet, Service, Terms};
use calls::refusal::{Refusal, check_within};
use waiting::table::PLACES;

impl Sessions {
    // Weight and limit of the session. Refused: no such session, not open.
    #[tactic(auto, using(crate::proofs::Reading::asked_open, crate::proofs::Reading::asked_refused))]
    pub fn terms(&self, session: u32) -> Result<Terms, Refusal>
        ensures { result ≡ terms_answer (meaning_of self.now) session }
    {
        let account = self.parts.account(session)?;
        Ok(account.terms)
    }

    // What the session's finished packets were charged. Refused as `terms` is.
    #[tactic(auto, using(crate::proofs::Reading::asked_open, crate::proofs::Reading::asked_refused))]
    pub fn octets(&self, session: u32) -> Result<u64, Refusal>
        ensures { result ≡ octets_answer (meaning_of self.now) session }
    {
        let account = self.parts.account(session)?;
        Ok(account.octets)
    }

    // How many packets of the session wait. Refused as `terms` is.
    #[tactic(auto, using(crate::proofs::Reading::asked_waiting, crate::proofs::Reading::asked_refused))]
    pub fn waiting_count(&self, session: u32) -> Result<u32, Refusal>
        ensures { result ≡ count_answer (meaning_of self.now) session }
    {
        self.parts.account(session)?;
        self.parts.waiting.count(session)
    }

    // Their lengths together. Refused as `terms` is.
    #[tactic(auto, using(crate::proofs::Reading::asked_waiting, crate::proofs::Reading::asked_refused, crate::proofs::Reading::sum_of_lengths))]
    pub fn waiting_lengths(&self, session: u32) -> Result<u64, Refusal>
        ensures { result ≡ lengths_answer (meaning_of self.now) session }
    {
        self.parts.account(session)?;
        self.parts.waiting.lengths(session)
    }

    // The first waiting packet of the session, if there is one.
    #[tactic(auto, using(crate::proofs::Reading::first_asked))]
    pub fn first(&self, session: u32) -> Option<Packet>
        ensures { result ≡ first_of (waiting_in (meaning_of self.now) session) }
    {
        self.parts.waiting.first(session).ok().flatten()
    }

    // How many packets wait in all: at most 256.
    #[tactic(auto, using(crate::proofs::Reading::all_waiting_is_total))]
    pub fn total(&self) -> u32
        ensures all { result ≡ all_waiting (meaning_of self.now) }
        ensures most { result ≤ 256 }
    {
        self.parts.waiting.total()
    }

    // The packet in service with its session, if there is one.
    #[tactic(auto, unfolding(crate::specs::Meanings::meaning_of))]
    pub fn in_service(&self) -> Option<Service>
        ensures { result ≡ (meaning_of self.now).in_service }
    {
        self.parts.in_service()
    }

    // The terms of a session that may enter a packet of this length. Refused as `terms` is, and when the length is 0 or above the limit.
    pub fn check_length(&self, session: u32, length: u32) -> Result<Terms, Refusal>
        ensures { result ≡ length_answer (meaning_of self.now) session length }
    {
        let terms = self.terms(session)?;
        check_within(length, terms.limit, Refusal::BadLength)?;
        Ok(terms)
    }

    // The places that are left beside the waiting packets.
    pub fn places_left(&self) -> u32
        ensures { result ≡ room_beside (all_waiting (meaning_of self.now)) }
    {
        PLACES - self.total()
    }

    // Refused while 256 packets wait.
    #[tactic(auto, using(crate::proofs::Reading::all_waiting_is_total))]
    pub fn check_room(&self) -> Result<(), Refusal>
        ensures { result ≡ room_answer_at (all_waiting (meaning_of self.now)) }
    {
        self.parts.waiting.check_room()
    }

    // Whether the session can be opened with these terms. Refused: no such session, a wrong weight, a wrong limit, open already.
    #[tactic(auto, using(crate::proofs::Stepping::open_verdict))]
    pub(crate) fn check_open(&self, session: u32, terms: Terms) -> Result<(), Refusal>
        ensures { result ≡ verdict (why_open (meaning_of self.now) session terms.weight terms.limit) tt }
    {
        self.parts.check_open(session, terms)
    }

    // Whether a packet of the session can wait. Refused as `terms` is, and when 256 packets wait.
    pub(crate) fn check_put(&self, session: u32) -> Result<(), Refusal>
        ensures { result ≡ verdict (why_put (meaning_of self.now) session) tt }
    {
        self.terms(session)?;
        self.check_room()
    }

    // Whether a packet can start. Refused while a packet is in service, then when nothing waits.
    #[tactic(auto, using(crate::proofs::Reading::start_from_meaning))]
    pub fn check_start(&self) -> Result<(), Refusal>
        ensures { result ≡ verdict (why_start (meaning_of self.now)) tt }
    {
        self.parts.check_start()
    }
}
