// A whole trace that is handed over, and the buffer that its listing is written into.
ghost use Rattle.std.specs.Prelude.{◌≡◌, ◌+◌, ◌*◌, ◌≤◌, length, IfOk};
ghost use Rattle.sessions.specs.Verdicts.{verdict};
ghost use Rattle.self_clocked.specs.States.{state};
ghost use Rattle.self_clocked.specs.Rows.{after_calls};
ghost use Rattle.trace.specs.Lines.{read_line};
ghost use Rattle.trace.specs.Streams.{lines_of, readings};
ghost use Rattle.listing.specs.Texts.{Wrote};
ghost use Rattle.listing.specs.Listings.{ends_in, said_of, after_line, calls_of, told_on, closing_at, closing_line, closings_below, listing, list_refusal, list_answer, listed_over};
ghost use Rattle.listing.specs.Tellings.{Tells};

use crate::lister::Lister;
use calls::refusal::Refusal;
use calls::session::SESSIONS;
use trace::cut::split_once;
use trace::line::read_line;
use trace::reading::Reading;
use trace::stream::steps::next_at;
pub use trace::text::LINE_ROOM;

// The most octets that a trace may have.
pub const LONGEST_TRACE: usize = 65536;

// What is enough for the closing lines of 64 sessions.
pub const CLOSING_ROOM: usize = LINE_ROOM * SESSIONS;

// How many octets 10 the trace has.
fn count_ends(trace: &[u8]) -> u32
    requires { length trace.now ≤ 65536 }
    ensures ends { result ≡ ends_in trace.now }
    ensures few { result ≤ length trace.now }
{
    let mut count: u32 = 0;
    for octet in trace {
        if *octet == b'\n' {
            count += 1;
        }
    }
    count
}

// How many lines the trace has, faulty ones and a last one that no octet 10 ends among them.
fn count_lines(trace: &[u8]) -> usize
    requires { length trace.now ≤ 65536 }
    ensures lines { result ≡ length (lines_of trace.now) }
    ensures few { result ≤ length trace.now }
{
    let ended = count_ends(trace) as usize;
    if trace.is_empty() || trace[trace.len() - 1] == b'\n' {
        return ended;
    }
    ended + 1
}

// Refuses a trace that is too long, and then a buffer that is too short for its listing.
fn check_sizes(trace: &[u8], out: &[u8]) -> Result<(), Refusal>
    ensures { result ≡ verdict (list_refusal trace.now out.now) tt }
{
    if trace.len() > LONGEST_TRACE {
        return Err(Refusal::LongTrace);
    }
    if out.len() < LINE_ROOM * count_lines(trace) + CLOSING_ROOM {
        return Err(Refusal::ShortBuffer);
    }
    Ok(())
}

impl Lister {
    // Makes the call of one line and writes the line about it. Answers how many octets it wrote.
    fn put_line(&mut self, at: u32, line: &[u8], out: &mut [u8]) -> usize
        requires { 96 ≤ length out.old }
        ensures wrote { Wrote out.old 0 (said_of (state self.old) at (read_line line.now)) out.new result }
        ensures short { result ≤ 96 }
        ensures after { state self.new ≡ after_line (state self.old) (read_line line.now) }
    {
        let reading = Reading {
            at,
            line: read_line(line),
        };
        self.put_reading(reading, out)
    }

    // Makes the calls of the trace and writes the lines about them. Answers how many octets it wrote.
    fn put_lines(&mut self, trace: &[u8], out: &mut [u8]) -> usize
        requires { 96 * length (lines_of trace.now) ≤ length out.old }
        ensures wrote { Wrote out.old 0 (told_on (state self.old) (readings trace.now)) out.new result }
        ensures short { result ≤ 96 * length (lines_of trace.now) }
        ensures after { state self.new ≡ after_calls (state self.old) (calls_of (readings trace.now)) }
    {
        let mut at = 1;
        let mut rest = trace;
        let mut end = 0;
        while let Some((line, left)) = split_once(rest, b'\n') {
            end += self.put_line(at, line, &mut out[end..]);
            at = next_at(at);
            rest = left;
        }
        if rest.is_empty() {
            return end;
        }
        end + self.put_line(at, rest, &mut out[end..])
    }

    // Writes the closing lines of the open sessions. Answers how many octets it wrote.
    fn put_closings(&self, out: &mut [u8]) -> usize
        requires { 6144 ≤ length out.old }
        ensures wrote { Wrote out.old 0 (closings_below 64 (state self.now).meaning) out.new result }
        ensures short { result ≤ 6144 }
    {
        let mut end = 0;
        for session in 0..SESSIONS as u32 {
            end += self.put_closing(session, &mut out[end..]);
        }
        end
    }
}

// Writes the listing of the whole trace to the front of the buffer, and answers its length.
fn list_all(trace: &[u8], out: &mut [u8]) -> usize
    requires { 96 * length (lines_of trace.now) + 6144 ≤ length out.old }
    ensures wrote { Wrote out.old 0 (listing trace.now) out.new result }
    ensures short { result ≤ 96 * length (lines_of trace.now) + 6144 }
{
    let mut lister = Lister::new();
    let end = lister.put_lines(trace, out);
    end + lister.put_closings(&mut out[end..])
}

// Runs the trace on a new self-clocked line over the heap and writes its listing to the front of the buffer. Answers the listing's length,
// which is at most 96 x 65,536 + 6,144. Refused by 17, then 13, with the buffer as it was.
pub fn list(trace: &[u8], out: &mut [u8]) -> Result<usize, Refusal>
    ensures answer { result ≡ list_answer trace.now out.old }
    ensures octets { out.new ≡ listed_over trace.now out.old }
    ensures few { IfOk result (λ n. n ≤ 6297600) }
    ensures tells { Tells (readings trace.now) (listing trace.now) }
{
    check_sizes(trace, out)?;
    Ok(list_all(trace, out))
}
