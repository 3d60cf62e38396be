// Caps: a discipline over another one, with at most so many packets of one session waiting.
ghost use Rattle.std.specs.Prelude.{◌≡◌, ℕ, ◌-◌, ◌<◌, ◌≤◌, Ok, Err, MatchResult};
ghost use Rattle.std.proofs.Common.{sym, subst, ap, arith, rules};
ghost use Rattle.calls.specs.declared.call.Call.TheVariants.{Enter};
ghost use Rattle.discipline.specs.Caps.{cap_answer, places, room_under, cap_refusal, refused_by, StepUnder};
ghost use Rattle.discipline.specs.CapsLemmas.{step_cases, refused_under, passed_under, general_refused, clocked_refused};
ghost use Rattle.sharing.specs.Meanings.{Meaning, General, waiting_in};
ghost use Rattle.sharing.specs.Meanings;
ghost use Rattle.std.proofs.Math.ListN;
ghost use Rattle.sharing.proofs.Sums.{term_le_sum};
ghost use Rattle.sharing.specs.Clocked.{ClockedStep};

use crate::discipline::{Discipline, SelfClockedDiscipline};
use calls::call::{Service, Terms};
use calls::refusal::{Refusal, check_within};

// The number of a cap: 1 to 256.
#[derive(Clone, Copy)]
pub struct CapNumber {
    number: u32,
    ghost positive: { 0 < number },
    ghost small: { number ≤ 256 },
}

// Refused by 12.
impl TryFrom<u32> for CapNumber {
    type Error = Refusal;

    ghost try_from_gives = { λ number result. MatchResult result (λ cap. cap_answer number ≡ Ok cap.number) (λ reason. cap_answer number ≡ Err reason) };

    fn try_from(number: u32) -> Result<CapNumber, Refusal> {
        check_within(number, 256, Refusal::BadCap)?;
        Ok(CapNumber { number })
    }
}

impl From<CapNumber> for u32 {
    ghost from_gives = { λ cap number. number ≡ cap.number };

    fn from(cap: CapNumber) -> u32 {
        cap.number
    }
}

impl CapNumber {
    // How many more may wait beside these.
    fn places(self, waiting: u32) -> u32
        ensures { result ≡ self.number - waiting }
    {
        self.number.saturating_sub(waiting)
    }
}

// A discipline in which at most so many packets of each session wait; all else is as in the one below.
#[derive(Drop)]
pub struct Cap<D: Drop> {
    below: D,
    cap: CapNumber,
}

impl<D: Discipline + Drop> Cap<D> {
    // Over a discipline in any state, also one in which more packets wait than the cap allows.
    pub fn over(below: D, cap: CapNumber) -> Cap<D>
        ensures below { result.below ≡ below }
        ensures cap { result.cap ≡ cap }
    {
        Cap { below, cap }
    }

    // Refused by 1, 5, 6, 7.
    fn admit(&self, session: u32, length: u32) -> Result<(), Refusal>
        ensures { refused_by result ≡ cap_refusal self.now.cap.number (D.Discipline.meaning self.now.below) (Enter session length 0) }
    {
        let terms = self.below.terms(session)?;
        check_within(length, terms.limit, Refusal::BadLength)?;
        let waiting = self.below.waiting_count(session)?;
        if self.cap.places(waiting) == 0 {
            return Err(Refusal::Full);
        }
        Ok(())
    }
}

impl<D: Discipline + Drop> Discipline for Cap<D> {
    ghost fresh = { λ x. D.Discipline.fresh x.below };

    ghost sound = { λ x. D.Discipline.sound x.below };

    ghost steps = { λ x c a y. (y.cap ≡ x.cap) × StepUnder (cap_refusal x.cap.number (D.Discipline.meaning x.below) c) D.Discipline.steps x.below c a y.below };

    ghost meaning = { λ x. D.Discipline.meaning x.below };

    ghost room = { λ x. room_under x.cap.number (D.Discipline.meaning x.below) (D.Discipline.room x.below) };

    ghost reach = { λ x. D.Discipline.reach x.below };

    ghost begins = { Prim.search rules };

    ghost empty = { Prim.search rules };

    ghost keeps = { λ x y c a ok step.
        let d = D.Discipline in
        step_cases d.steps _ x.below c a y.below step.1 (d.sound y.below)
        (λ reason is said same. subst d.sound (sym same) ok)
        (λ is one. D.Discipline.keeps x.below y.below c a ok one) };

    ghost moves = { λ x y c a ok step.
        let d = D.Discipline in
        let m : Meaning = d.meaning x.below in
        let room = d.room x.below in
        let reach = d.reach x.below in
        let number = x.cap.number in
        step_cases d.steps (cap_refusal number m c) x.below c a y.below step.1
        (General m (Meanings.refusal m (room_under number m room) reach c) (d.meaning y.below) c a)
        (λ reason is said same. rw said (Meanings.refuses (refused_under number m room reach c reason is) (ap d.meaning same)))
        (λ is one. rw (passed_under number m room reach c is) (D.Discipline.moves x.below y.below c a ok one)) };

    ghost refuses = { λ x y c e ok step.
        let d = D.Discipline in
        let m : Meaning = d.meaning x.below in
        let number : y.cap.number ≡ x.cap.number = ap (λ t. t.number) step.0 in
        let all : (n : Meaning) (room : ℕ → ℕ) → n ≡ m → room ≡ d.room x.below →
        room_under y.cap.number n room ≡ room_under x.cap.number m (d.room x.below) =
        λ n room p q i. room_under (number i) (p i) (q i) in
        step_cases d.steps (cap_refusal x.cap.number m c) x.below c (Err e) y.below step.1
        ((room_under y.cap.number (d.meaning y.below) (d.room y.below) ≡ room_under x.cap.number m (d.room x.below)) ×
        (d.reach y.below ≡ d.reach x.below))
        (λ reason is said same. (all _ _ (ap d.meaning same) (ap d.room same), ap d.reach same))
        (λ is one.
        let left = D.Discipline.refuses x.below y.below c e ok one in
        (all _ _ (general_refused (D.Discipline.moves x.below y.below c (Err e) ok one)) left.0, left.1)) };

    ghost idles = { λ x s t ok low none free opened.
        let m : Meaning = D.Discipline.meaning x.below in
        let below = D.Discipline.idles x.below s t ok low none free opened in
        let empty : ListN.length (waiting_in m s) ≤ 0 = omega (arith, term_le_sum 64 s (λ n. ListN.length (waiting_in m n)) low, none) in
        (omega (arith, below.0, empty, x.cap.positive), below.1) };

    ghost few = { Prim.search rules };

    fn open(&mut self, session: u32, weight: u32, limit: u32) -> Result<(), Refusal> {
        self.below.open(session, weight, limit)
    }

    fn enter(&mut self, session: u32, length: u32, ticket: u32) -> Result<u64, Refusal> {
        self.admit(session, length)?;
        self.below.enter(session, length, ticket)
    }

    fn start(&mut self) -> Result<Service, Refusal> {
        self.below.start()
    }

    fn finish(&mut self) -> Result<Service, Refusal> {
        self.below.finish()
    }

    fn terms(&self, session: u32) -> Result<Terms, Refusal> {
        self.below.terms(session)
    }

    fn waiting_count(&self, session: u32) -> Result<u32, Refusal> {
        self.below.waiting_count(session)
    }

    fn waiting_lengths(&self, session: u32) -> Result<u64, Refusal> {
        self.below.waiting_lengths(session)
    }

    fn octets(&self, session: u32) -> Result<u64, Refusal> {
        self.below.octets(session)
    }

    fn room(&self, session: u32) -> Result<u32, Refusal> {
        let below = self.below.room(session)?;
        let queued = self.below.waiting_count(session)?;
        Ok(below.min(self.cap.places(queued)))
    }

    fn reach(&self, session: u32) -> Result<u32, Refusal> {
        self.below.reach(session)
    }

    fn in_service(&self) -> Option<Service> {
        self.below.in_service()
    }
}

impl<D: SelfClockedDiscipline + Drop> SelfClockedDiscipline for Cap<D> {
    ghost clocked = { λ x. D.SelfClockedDiscipline.clocked x.below };

    ghost clocked_meaning = { Prim.search rules };

    ghost clocked_new = { Prim.search rules };

    ghost clocked_steps = { λ x y c a ok step.
        let k = D.SelfClockedDiscipline.clocked in
        step_cases D.Discipline.steps (cap_refusal x.cap.number (D.Discipline.meaning x.below) c) x.below c a y.below step.1
        (ClockedStep (k x.below) c a (k y.below))
        (λ reason is said same. rw said (subst (λ z. ClockedStep (k x.below) c (Err reason) (k z)) (sym same) (clocked_refused (k x.below) c reason)))
        (λ is one. D.SelfClockedDiscipline.clocked_steps x.below y.below c a ok one) };
}
