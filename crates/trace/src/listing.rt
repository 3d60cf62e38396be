// The lines of a listing: what was said to each call, and how each open session stands at the end.
ghost use Rattle.std.specs.Prelude.{◌≡◌, ◌+◌, ◌≤◌, ◌++◌, codes, decimal, Ok};
ghost use Rattle.arrayvec.specs.ArrayString.{array_string_len};
ghost use Rattle.calls.specs.declared.call.Reply.TheVariants.{Entered, Opened};
ghost use Rattle.trace.specs.Texts.{session_of, started_text, finished_text, refused_text, answer_text, closing_text};

use crate::text::{Line, begin_line, push_field};
use calls::call::{Answer, Call, Packet, Reply, Service};
use calls::refusal::Refusal;

// How an open session stands.
#[derive(Clone, Copy)]
pub struct Closing {
    pub session: u32,
    pub weight: u32,
    pub octets: u64,
    pub waiting: u32,
}

// The session that the call names, 0 where it names none.
pub fn session_of(call: Call) -> u32
    ensures { result ≡ session_of call }
{
    match call {
        Call::Open { session, .. } | Call::Enter { session, .. } => session,
        Call::Start | Call::Finish => 0,
    }
}

fn push_opened(line: &mut Line, at: u32, call: Call)
    ensures { line.new.bytes ≡ answer_text at call (Ok Opened) }
{
    begin_line(line, at);
    push_field(line, " said=opened session=", session_of(call));
    line.push_str("\n");
}

fn push_entered(line: &mut Line, at: u32, call: Call, mark: u64)
    ensures { line.new.bytes ≡ answer_text at call (Ok (Entered mark)) }
{
    begin_line(line, at);
    push_field(line, " said=entered session=", session_of(call));
    push_field(line, " mark=", mark);
    line.push_str("\n");
}

// Puts the field that the lines about a packet share.
fn push_ticket(line: &mut Line, packet: Packet)
    requires { array_string_len line.old + 18 ≤ 96 }
    ensures octets { line.new.bytes ≡ line.old.bytes ++ (codes " ticket=" ++ decimal packet.ticket) }
    ensures short { array_string_len line.new ≤ array_string_len line.old + 18 }
{
    push_field(line, " ticket=", packet.ticket);
}

fn push_started(line: &mut Line, at: u32, service: Service)
    ensures { line.new.bytes ≡ started_text at service }
{
    begin_line(line, at);
    push_field(line, " said=started session=", service.session);
    push_ticket(line, service.packet);
    push_field(line, " mark=", service.packet.mark);
    line.push_str("\n");
}

fn push_finished(line: &mut Line, at: u32, service: Service)
    ensures { line.new.bytes ≡ finished_text at service }
{
    begin_line(line, at);
    push_field(line, " said=finished session=", service.session);
    push_ticket(line, service.packet);
    push_field(line, " length=", service.packet.length);
    line.push_str("\n");
}

fn push_refused(line: &mut Line, at: u32, reason: Refusal)
    ensures { line.new.bytes ≡ refused_text at reason }
{
    begin_line(line, at);
    push_field(line, " said=refused number=", reason.number());
    line.push_str("\n");
}

// Writes what was said to the call of the line with the number `at`, in place of what the text held. A text that is answered by value
// would be copied on its way up, right after it was written.
pub fn write_answer(at: u32, call: Call, answer: Answer, line: &mut Line)
    ensures { line.new.bytes ≡ answer_text at call answer }
{
    match answer {
        Ok(Reply::Opened) => push_opened(line, at, call),
        Ok(Reply::Entered { mark }) => push_entered(line, at, call, mark),
        Ok(Reply::Started(service)) => push_started(line, at, service),
        Ok(Reply::Finished(service)) => push_finished(line, at, service),
        Err(reason) => push_refused(line, at, reason),
    }
}

// The closing line of a session.
pub fn closing_line(closing: Closing) -> Line
    ensures { result.bytes ≡ closing_text closing.session closing.weight closing.octets closing.waiting }
{
    let mut line = Line::new();
    push_field(&mut line, "end=", closing.session);
    push_field(&mut line, " weight=", closing.weight);
    push_field(&mut line, " octets=", closing.octets);
    push_field(&mut line, " waiting=", closing.waiting);
    line.push_str("\n");
    line
}
