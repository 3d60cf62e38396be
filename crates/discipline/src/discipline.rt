// What every discipline shows, and what a self-clocked one shows besides.
ghost use Rattle.std.specs.Prelude.{◌≡◌, ℕ, ◌<◌, ◌≤◌, Some, None, Err};
ghost use Rattle.calls.specs.declared.refusal.Refusal.{Refusal as Reason};
ghost use Rattle.calls.specs.declared.call.Call.{Call as Asked};
ghost use Rattle.calls.specs.declared.call.Call.TheVariants.{Open, Enter, Start, Finish};
ghost use Rattle.calls.specs.Answers.{Answer as Said};
ghost use Rattle.sharing.specs.Meanings.{Meaning, Session, General, nothing_open, refusal, all_waiting, terms_answer, count_answer, lengths_answer, octets_answer, room_answer, reach_answer};
ghost use Rattle.sharing.specs.Clocked.{Clocked, New, ClockedStep};
ghost use Rattle.discipline.specs.Answers.{opened, entered, started, finished};

use calls::call::{Service, Terms};
use calls::refusal::Refusal;

pub trait Discipline {
    // What a new one is.
    ghost fresh: { Self → Type 0 };

    // What a new one has and every call keeps.
    ghost sound: { Self → Type 0 };

    // The discipline's own rule: the call, its answer, and the state before and after it.
    ghost steps: { Self → Asked → Said → Self → Type 0 };

    // The sessions and the packet in service.
    ghost meaning: { Self → Meaning };

    // How many more packets each session may enter.
    ghost room: { Self → ℕ → ℕ };

    // The longest packet that each session may enter.
    ghost reach: { Self → ℕ → ℕ };

    // Refused by 1, 2, 3, 4.
    fn open(&mut self, session: u32, weight: u32, limit: u32) -> Result<(), Refusal>
        ensures { sound self.old → steps self.old (Open session weight limit) (opened result) self.new };

    // Refused by 1, 5, 6, 7, 8; else the answer is the packet's mark.
    fn enter(&mut self, session: u32, length: u32, ticket: u32) -> Result<u64, Refusal>
        ensures { sound self.old → steps self.old (Enter session length ticket) (entered result) self.new };

    // Refused by 10, 9; else the answer is the packet that is now in service, with its session.
    fn start(&mut self) -> Result<Service, Refusal>
        ensures { sound self.old → steps self.old Start (started result) self.new };

    // Refused by 11; else the answer is the packet that was in service, with its session.
    fn finish(&mut self) -> Result<Service, Refusal>
        ensures { sound self.old → steps self.old Finish (finished result) self.new };

    // Weight and limit of the session. This question and the next five are refused by 1, 5.
    fn terms(&self, session: u32) -> Result<Terms, Refusal>
        ensures { result ≡ terms_answer (meaning self.now) session };

    // How many packets of the session wait.
    fn waiting_count(&self, session: u32) -> Result<u32, Refusal>
        ensures { result ≡ count_answer (meaning self.now) session };

    // Their lengths together.
    fn waiting_lengths(&self, session: u32) -> Result<u64, Refusal>
        ensures { result ≡ lengths_answer (meaning self.now) session };

    // What the session's finished packets were charged, up to 18,446,744,073,709,551,615.
    fn octets(&self, session: u32) -> Result<u64, Refusal>
        ensures { result ≡ octets_answer (meaning self.now) session };

    fn room(&self, session: u32) -> Result<u32, Refusal>
        ensures { result ≡ room_answer (meaning self.now) (room self.now) session };

    fn reach(&self, session: u32) -> Result<u32, Refusal>
        ensures { result ≡ reach_answer (meaning self.now) (reach self.now) session };

    // The packet in service with its session, if there is one.
    fn in_service(&self) -> Option<Service>
        ensures { result ≡ (meaning self.now).in_service };

    ghost begins: { (x : Self) → fresh x → sound x };

    ghost empty: { (x : Self) → fresh x → meaning x ≡ nothing_open };

    ghost keeps: { (x y : Self) (c : Asked) (a : Said) → sound x → steps x c a y → sound y };

    // Every step is one of the general rules, at the discipline's own room and reach.
    ghost moves: { (x y : Self) (c : Asked) (a : Said) → sound x → steps x c a y → General (meaning x) (refusal (meaning x) (room x) (reach x) c) (meaning y) c a };

    // A refused call leaves every room and reach too.
    ghost refuses: { (x y : Self) (c : Asked) (e : Reason) → sound x → steps x c (Err e) y → (room y ≡ room x) × (reach y ≡ reach x) };

    // With nothing waiting and nothing in service each open session has room, and reaches its limit.
    ghost idles: { (x : Self) (s : ℕ) (t : Session) → sound x → s < 64 → all_waiting (meaning x) ≡ 0 → (meaning x).in_service ≡ None → (meaning x).session s ≡ Some t → (0 < room x s) × (t.limit ≤ reach x s) };

    ghost few: { (x : Self) → sound x → all_waiting (meaning x) ≤ 65535 };
}

// A discipline whose every step is a self-clocked one.
pub trait SelfClockedDiscipline: Discipline {
    ghost clocked: { Self → Clocked };

    ghost clocked_meaning: { (x : Self) → (clocked x).meaning ≡ Self.Discipline.meaning x };

    ghost clocked_new: { (x : Self) → Self.Discipline.fresh x → New (clocked x) };

    ghost clocked_steps: { (x y : Self) (c : Asked) (a : Said) → Self.Discipline.sound x → Self.Discipline.steps x c a y → ClockedStep (clocked x) c a (clocked y) };
}
