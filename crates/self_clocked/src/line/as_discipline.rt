// A self-clocked line as a discipline.
ghost use Rattle.self_clocked.specs.Exact.{Exact, Fresh, Sound, room_of, reach_of};
ghost use Rattle.self_clocked.specs.States.{state};
ghost use Rattle.sessions.specs.Meanings.{meaning_of};
ghost use Rattle.self_clocked.specs.Calls.{fresh_sound};
ghost use Rattle.self_clocked.specs.Steps.{exact_general, exact_refused, exact_clocked};
ghost use Rattle.std.proofs.Common.{ap, arith, rules};
ghost use Rattle.sessions.proofs.Using.{open_in_order, at_most_256, waits_below_64};
ghost use Rattle.self_clocked.specs.Idles.{idle_room};

use crate::line::SelfClocked;
use crate::marks::reach;
use calls::call::{Packet, Service, Terms};
use calls::refusal::Refusal;
use discipline::discipline::{Discipline, SelfClockedDiscipline};
use ready::line::ReadyLine;

impl<R: ReadyLine + Drop> Discipline for SelfClocked<R> {
    ghost fresh = { λ x. Fresh (R.ReadyLine.tags x.ready) (state x) };

    ghost sound = { λ x. Sound (R.ReadyLine.tags x.ready) (state x) };

    ghost steps = { λ x c a y. Exact (state x) c a (state y) × Sound (R.ReadyLine.tags y.ready) (state y) };

    ghost meaning = { λ x. meaning_of x.sessions };

    ghost room = { λ x. room_of (state x) };

    ghost reach = { λ x. reach_of (state x) };

    ghost begins = { λ x new. fresh_sound (R.ReadyLine.tags x.ready) (state x) new };

    ghost empty = { Prim.search rules };

    ghost keeps = { Prim.search rules };

    ghost moves = { λ x y c a ok step. exact_general (state x) (state y) c a step.0 };

    ghost refuses = { λ x y c e ok step. let same = exact_refused (state x) (state y) c e step.0 in (ap room_of same, ap reach_of same) };

    ghost idles = { λ x s t ok low none free is. idle_room (R.ReadyLine.tags x.ready) (state x) s t ok none free (open_in_order x.sessions s t is).limit };

    ghost few = { λ x ok. omega (arith, at_most_256 x.sessions) };

    fn open(&mut self, session: u32, weight: u32, limit: u32) -> Result<(), Refusal> {
        self.sessions.open(session, weight, limit)
    }

    fn enter(&mut self, session: u32, length: u32, ticket: u32) -> Result<u64, Refusal> {
        let mark = self.admit(session, length)?;
        self.place(
            session,
            Packet {
                length,
                ticket,
                mark,
            },
        )?;
        Ok(mark)
    }

    fn start(&mut self) -> Result<Service, Refusal> {
        self.sessions.check_start()?;
        let (mark, session) = self.ready.drop_least().ok_or(Refusal::NothingWaiting)?;
        self.serve(mark, session)
    }

    fn finish(&mut self) -> Result<Service, Refusal> {
        let service = self.sessions.finish()?;
        self.reset_if_empty();
        Ok(service)
    }

    fn terms(&self, session: u32) -> Result<Terms, Refusal> {
        self.sessions.terms(session)
    }

    fn waiting_count(&self, session: u32) -> Result<u32, Refusal> {
        self.sessions.waiting_count(session)
    }

    fn waiting_lengths(&self, session: u32) -> Result<u64, Refusal> {
        self.sessions.waiting_lengths(session)
    }

    fn octets(&self, session: u32) -> Result<u64, Refusal> {
        self.sessions.octets(session)
    }

    fn room(&self, session: u32) -> Result<u32, Refusal> {
        self.sessions.terms(session)?;
        Ok(self.sessions.places_left())
    }

    #[tactic(auto, using(crate::proofs::Admits::reaches))]
    fn reach(&self, session: u32) -> Result<u32, Refusal> {
        let terms = self.sessions.terms(session)?;
        reach(self.base(session), terms.weight)
    }

    fn in_service(&self) -> Option<Service> {
        self.sessions.in_service()
    }
}

impl<R: ReadyLine + Drop> SelfClockedDiscipline for SelfClocked<R> {
    ghost clocked = { λ x. state x };

    ghost clocked_meaning = { Prim.search rules };

    ghost clocked_new = { Prim.search rules };

    ghost clocked_steps = { λ x y c a ok step. exact_clocked (state x) (waits_below_64 x.sessions) (state y) c a step.0 };
}
