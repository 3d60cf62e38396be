// One line of a trace at a time: the call is made, and what is said to it is told.
ghost use Rattle.std.specs.Prelude.{◌≡◌, ◌≤◌, length};
ghost use Rattle.std.specs.Option.{option_map};
ghost use Rattle.sharing.specs.Histories.{History};
ghost use Rattle.sharing.specs.Runs.{Led};
ghost use Rattle.sharing.specs.Clocked.{New};
ghost use Rattle.self_clocked.specs.Exact.{Exact, answer_to, after};
ghost use Rattle.self_clocked.specs.States.{state};
ghost use Rattle.self_clocked.specs.Rows.{new_line};
ghost use Rattle.listing.specs.Texts.{Wrote};
ghost use Rattle.listing.specs.Listings.{reading_text, after_reading, closing_at, closing_line, standing_text};
ghost use Rattle.listing.specs.Tellings.{GoesOn};

use crate::lines::{put_answer, put_fault, put_standing};
use crate::lister::Lister;
use calls::call::{Answer, Call};
use discipline::discipline::Discipline;
use discipline::run::apply;
use ready::heap::Heap;
use self_clocked::line::SelfClocked;
use trace::listing::{Closing, closing_line, write_answer};
use trace::reading::{Reading, write_fault};
use trace::text::{LINE_ROOM, Line};

impl Lister {
    // With a new line.
    pub fn new() -> Lister
        ensures { state result ≡ new_line }
    {
        Lister {
            line: SelfClocked::new(Heap::new()),
        }
    }

    // Makes one call.
    fn answer_to(&mut self, call: Call) -> Answer
        ensures answer { result ≡ answer_to (state self.old) call }
        ensures after { state self.new ≡ after (state self.old) call }
    {
        apply(&mut self.line, call)
    }

    // Makes the call that was read, if there is one, and writes the line about it to the front of the octets. Answers how many it wrote.
    pub(crate) fn put_reading(&mut self, reading: Reading, out: &mut [u8]) -> usize
        requires { 96 ≤ length out.old }
        ensures wrote { Wrote out.old 0 (reading_text (state self.old) reading) out.new result }
        ensures short { result ≤ 96 }
        ensures after { state self.new ≡ after_reading (state self.old) reading }
    {
        match reading.line {
            Ok(call) => put_answer(out, reading.at, call, self.answer_to(call)),
            Err(fault) => put_fault(out, reading.at, fault),
        }
    }

    // Makes the call that was read, if there is one, and writes the line about it, in place of what the text held.
    #[tactic(auto, using(crate::proofs::Tellings::goes_on))]
    pub fn write_reading(&mut self, reading: Reading, line: &mut Line)
        ensures octets { line.new.bytes ≡ reading_text (state self.old) reading }
        ensures after { state self.new ≡ after_reading (state self.old) reading }
        ensures fair { (h : History) → Led New Exact h (state self.old) → GoesOn (state self.old) reading.line (state self.new) h }
    {
        match reading.line {
            Ok(call) => write_answer(reading.at, call, self.answer_to(call), line),
            Err(fault) => write_fault(reading.at, fault, line),
        }
    }

    // The same to the front of the octets of one line. Answers the text's length.
    pub fn write_reading_into(&mut self, reading: Reading, text: &mut [u8; LINE_ROOM]) -> usize
        ensures wrote { Wrote text.old 0 (reading_text (state self.old) reading) text.new result }
        ensures short { result ≤ 96 }
        ensures after { state self.new ≡ after_reading (state self.old) reading }
        ensures fair { (h : History) → Led New Exact h (state self.old) → GoesOn (state self.old) reading.line (state self.new) h }
    {
        self.put_reading(reading, text)
    }

    // How the session stands, if it is open.
    fn closing(&self, session: u32) -> Option<Closing>
        ensures { result ≡ closing_at (state self.now).meaning session }
    {
        let terms = self.line.terms(session).ok()?;
        let octets = self.line.octets(session).ok()?;
        let waiting = self.line.waiting_count(session).ok()?;
        Some(Closing {
            session,
            weight: terms.weight,
            octets,
            waiting,
        })
    }

    // The closing line of the session, if it is open.
    pub fn closing_line(&self, session: u32) -> Option<Line>
        ensures { option_map (λ line. line.bytes) result ≡ option_map standing_text (closing_at (state self.now).meaning session) }
    {
        Some(closing_line(self.closing(session)?))
    }

    // Writes the closing line of the session, if it is open. Answers how many octets it wrote.
    #[tactic(auto, using(crate::proofs::Rows::wrote_closed))]
    pub(crate) fn put_closing(&self, session: u32, out: &mut [u8]) -> usize
        requires { 96 ≤ length out.old }
        ensures wrote { Wrote out.old 0 (closing_line (closing_at (state self.now).meaning session)) out.new result }
        ensures short { result ≤ 96 }
    {
        match self.closing(session) {
            Some(closing) => put_standing(out, closing),
            None => 0,
        }
    }

    // The same to the front of the octets of one line. Answers the text's length, 0 where the session is not open.
    pub fn write_closing(&self, session: u32, text: &mut [u8; LINE_ROOM]) -> usize
        ensures wrote { Wrote text.old 0 (closing_line (closing_at (state self.now).meaning session)) text.new result }
        ensures short { result ≤ 96 }
    {
        self.put_closing(session, text)
    }
}
