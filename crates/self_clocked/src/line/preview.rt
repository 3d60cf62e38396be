// The order in which the waiting packets of a line will start.
ghost use Rattle.std.specs.Prelude.{◌≡◌, ◌≤◌, ◌++◌, length, drop, replicate, IfOk};
ghost use Rattle.sharing.specs.Meanings.{all_waiting};
ghost use Rattle.sessions.specs.Meanings.{meaning_of};
ghost use Rattle.sessions.specs.Verdicts.{verdict};
ghost use Rattle.self_clocked.specs.Exact.{first_marks, Sound};
ghost use Rattle.self_clocked.specs.Previews.{start_order, tickets_of, preview_refusal, preview_answer, tickets_after, scratch_after};
ghost use Rattle.self_clocked.specs.States.{state};

use crate::line::SelfClocked;
use crate::line::changes::renew;
use calls::refusal::Refusal;
use calls::session::SESSIONS;
use discipline::discipline::Discipline;
use ready::heap::Heap;
use ready::line::ReadyLine;
use sessions::state::Sessions;
use waiting::table::PLACES;

// How many numbers each buffer of a preview has at least.
const PREVIEW_ROOM: usize = PLACES as usize;

// Refuses a buffer that is too short.
fn check_buffers(tickets: &[u32], scratch: &[u64]) -> Result<(), Refusal>
    ensures { result ≡ verdict (preview_refusal tickets.now scratch.now) tt }
{
    if tickets.len() < PREVIEW_ROOM || scratch.len() < PREVIEW_ROOM {
        return Err(Refusal::ShortBuffer);
    }
    Ok(())
}

// Sets the first 256 numbers to 0.
fn clear_scratch(scratch: &mut [u64])
    requires { 256 ≤ length scratch.old }
    ensures { scratch.new ≡ replicate 256 0 ++ drop 256 scratch.old }
{
    scratch[..PREVIEW_ROOM].fill(0);
}

// A heap with an entry for each session with a waiting packet: the mark of its first one.
fn ready_firsts(sessions: &Sessions) -> Heap
    ensures { result.tags ≡ first_marks (meaning_of sessions.now) }
{
    let mut ready = Heap::new();
    for session in 0..SESSIONS as u32 {
        let _ = renew(&mut ready, sessions.first(session), session);
    }
    ready
}

impl SelfClocked<Heap> {
    // Starts and finishes until nothing waits, and writes the tickets in the order of their starts. Answers how many there were.
    fn write_starts(&mut self, tickets: &mut [u32]) -> usize
        requires sound { Sound self.old.ready.tags (state self.old) }
        requires room { all_waiting (meaning_of self.old.sessions) ≤ length tickets.old }
        ensures count { result ≡ all_waiting (meaning_of self.old.sessions) }
        ensures tickets { tickets.new ≡ tickets_of (start_order (state self.old)) ++ drop (all_waiting (meaning_of self.old.sessions)) tickets.old }
    {
        let mut count = 0;
        let _ = self.finish();
        while let Ok(service) = self.start() {
            tickets[count] = service.packet.ticket;
            count += 1;
            let _ = self.finish();
        }
        count
    }
}

impl<R: ReadyLine + Drop> SelfClocked<R> {
    // A line over a heap with the same sessions. Its clock and last marks are 0: no start or finish goes by them.
    #[tactic(auto, using(crate::specs::Calls::zeros_last))]
    fn copy_over_heap(&self) -> SelfClocked<Heap>
        ensures sessions { result.sessions ≡ self.now.sessions }
        ensures sound { Sound result.ready.tags (state result) }
    {
        SelfClocked {
            sessions: self.sessions,
            clock: 0,
            lasts: [0; SESSIONS],
            ready: ready_firsts(&self.sessions),
        }
    }

    // Writes the tickets of the waiting packets in the order in which they start if only start and finish come from now on, and answers how
    // many wait. The first 256 numbers of the scratch buffer are 0 afterwards. Refused by 13 where a buffer has fewer than 256 numbers.
    #[tactic(auto, using(crate::proofs::Previewing::previewed_scratch))]
    pub fn preview(&self, tickets: &mut [u32], scratch: &mut [u64]) -> Result<usize, Refusal>
        ensures answer { result ≡ preview_answer (state self.now) tickets.old scratch.old }
        ensures few { IfOk result (λ n. n ≤ 256) }
        ensures tickets { tickets.new ≡ tickets_after (state self.now) tickets.old scratch.old }
        ensures scratch { scratch.new ≡ scratch_after tickets.old scratch.old }
    {
        check_buffers(tickets, scratch)?;
        let count = self.copy_over_heap().write_starts(tickets);
        clear_scratch(scratch);
        Ok(count)
    }
}
