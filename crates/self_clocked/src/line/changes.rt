// The checks of a self-clocked line, and the changes that its calls are made of.
ghost use Rattle.std.specs.Prelude.{◌≡◌, ◌<◌, max, replicate, if◌then◌else◌, None, Ok, nat_eq};
ghost use Rattle.waiting.specs.Queues.{first_of};
ghost use Rattle.ready.specs.Tags.{no_entries};
ghost use Rattle.sharing.specs.Meanings.{all_waiting, waiting_in};
ghost use Rattle.sharing.specs.Clocked.{while_waiting};
ghost use Rattle.sessions.specs.Meanings.{meaning_of};
ghost use Rattle.sessions.specs.Verdicts.{why_put, taken};
ghost use Rattle.self_clocked.specs.Exact.{enter_answer, entered_at, started_at, with_first, renewed, renew_answer, first_marks, Due, Fresh};
ghost use Rattle.self_clocked.specs.States.{state, last_in};

use crate::line::SelfClocked;
use crate::marks::mark;
use calls::call::{Packet, Service};
use calls::refusal::Refusal;
use calls::session::SESSIONS;
use ready::line::ReadyLine;
use sessions::state::Sessions;

// A ready line with no entries, whatever it had.
fn cleared<R: ReadyLine>(mut ready: R) -> R
    ensures { R.ReadyLine.tags result ≡ no_entries }
{
    ready.clear();
    ready
}

// The session comes into the ready line again with its next packet, if one waits.
pub(crate) fn renew<R: ReadyLine>(
    ready: &mut R,
    next: Option<Packet>,
    session: u32,
) -> Result<(), Refusal>
    ensures answer { result ≡ renew_answer (R.ReadyLine.tags ready.old) next session }
    ensures after { R.ReadyLine.tags ready.new ≡ renewed (R.ReadyLine.tags ready.old) next session }
{
    match next {
        Some(packet) => ready.add(packet.mark, session),
        None => Ok(()),
    }
}

impl<R: ReadyLine + Drop> SelfClocked<R> {
    // Every session closed, nothing waits, and the clock and every last mark at 0. What the ready line had is cleared.
    #[tactic(auto, using(crate::specs::Calls::zeros_last))]
    pub fn new(ready: R) -> SelfClocked<R>
        ensures { Fresh (R.ReadyLine.tags result.ready) (state result) }
    {
        SelfClocked {
            sessions: Sessions::new(),
            clock: 0,
            lasts: [0; SESSIONS],
            ready: cleared(ready),
        }
    }

    // What the session's next mark counts from: its last mark or the clock, whichever is larger.
    pub(crate) fn base(&self, session: u32) -> u64
        requires { session < 64 }
        ensures { result ≡ max (last_in self.now.lasts session) self.now.clock }
    {
        self.lasts[session as usize].max(self.clock)
    }

    // The mark that a packet of this length would have, or why it does not enter.
    #[tactic(auto, using(crate::proofs::Admits::admits))]
    pub(crate) fn admit(&self, session: u32, length: u32) -> Result<u64, Refusal>
        ensures { result ≡ enter_answer (state self.now) session length }
    {
        let terms = self.sessions.check_length(session, length)?;
        self.sessions.check_room()?;
        mark(self.base(session), length, terms.weight)
    }

    // The packet waits as the last of its session, and its mark is the session's last mark. A session of which nothing waited is ready now.
    #[tactic(auto, using(crate::proofs::Entries::entered_state, crate::proofs::Entries::entered_first))]
    pub(crate) fn place(&mut self, session: u32, packet: Packet) -> Result<(), Refusal>
        ensures answer { R.ReadyLine.tags self.old.ready ≡ first_marks (meaning_of self.old.sessions) → why_put (meaning_of self.old.sessions) session ≡ None → result ≡ Ok tt }
        ensures after { why_put (meaning_of self.old.sessions) session ≡ None → state self.new ≡ entered_at (state self.old) session packet }
        ensures ready { R.ReadyLine.tags self.old.ready ≡ first_marks (meaning_of self.old.sessions) → why_put (meaning_of self.old.sessions) session ≡ None → R.ReadyLine.tags self.new.ready ≡ first_marks (meaning_of self.new.sessions) }
    {
        let waits = self.sessions.first(session).is_some();
        self.sessions.put(session, packet)?;
        self.lasts[session as usize] = packet.mark;
        if waits {
            return Ok(());
        }
        self.ready.add(packet.mark, session)
    }

    // The first waiting packet of the session goes into service, the clock goes to its mark, and the session is ready with its next packet.
    #[tactic(auto, using(crate::proofs::Starts::due_answer, crate::proofs::Starts::started_state))]
    pub(crate) fn serve(&mut self, mark: u64, session: u32) -> Result<Service, Refusal>
        ensures answer { Due (R.ReadyLine.tags self.old.ready) (meaning_of self.old.sessions) mark session → result ≡ taken session (first_of (waiting_in (meaning_of self.old.sessions) session)) }
        ensures after { Due (R.ReadyLine.tags self.old.ready) (meaning_of self.old.sessions) mark session → state self.new ≡ started_at (state self.old) (with_first session (waiting_in (meaning_of self.old.sessions) session)) }
        ensures ready { Due (R.ReadyLine.tags self.old.ready) (meaning_of self.old.sessions) mark session → R.ReadyLine.tags self.new.ready ≡ first_marks (meaning_of self.new.sessions) }
    {
        let service = self.sessions.take(session)?;
        self.clock = mark;
        renew(&mut self.ready, self.sessions.first(session), session)?;
        Ok(service)
    }

    // Where nothing waits the clock and every last mark go back to 0.
    pub(crate) fn reset_if_empty(&mut self)
        ensures sessions { self.new.sessions ≡ self.old.sessions }
        ensures clock { self.new.clock ≡ while_waiting (meaning_of self.old.sessions) self.old.clock }
        ensures lasts { self.new.lasts ≡ (if nat_eq (all_waiting (meaning_of self.old.sessions)) 0 then replicate 64 0 else self.old.lasts) }
        ensures ready { self.new.ready ≡ self.old.ready }
    {
        if self.sessions.total() == 0 {
            self.clock = 0;
            self.lasts = [0; SESSIONS];
        }
    }
}
