// What was read of a line, with the line's number; a call and a fault as text.
ghost use Rattle.std.specs.Prelude.{◌≡◌, ◌≤◌, length};
ghost use Rattle.calls.specs.declared.call.Call.TheVariants.{Open, Enter};
ghost use Rattle.trace.specs.Texts.{call_text, fault_text};

use crate::fault::LineFault;
use crate::text::{Line, begin_line, push_field};
use arrayvec::ArrayString;
use calls::call::Call;

// A call as a line of a trace, without octet 10.
pub type CallLine = ArrayString<63>;

// The number of a line, counted from 1, and the call that it writes or its fault.
#[derive(Clone, Copy, PartialEq, Eq, Debug)]
pub struct Reading {
    pub at: u32,
    pub line: Result<Call, LineFault>,
}

fn open_line(session: u32, weight: u32, limit: u32) -> CallLine
    ensures { result.bytes ≡ call_text (Open session weight limit) }
{
    let mut line = CallLine::new();
    push_field(&mut line, "do=open session=", session);
    push_field(&mut line, " weight=", weight);
    push_field(&mut line, " limit=", limit);
    line
}

fn enter_line(session: u32, length: u32, ticket: u32) -> CallLine
    ensures { result.bytes ≡ call_text (Enter session length ticket) }
{
    let mut line = CallLine::new();
    push_field(&mut line, "do=enter session=", session);
    push_field(&mut line, " length=", length);
    push_field(&mut line, " ticket=", ticket);
    line
}

fn word_line(word: &str) -> CallLine
    requires { length word.now ≤ 63 }
    ensures { result.bytes ≡ word.now }
{
    let mut line = CallLine::new();
    line.push_str(word);
    line
}

// The call as a line of a trace, without octet 10.
pub fn call_line(call: Call) -> CallLine
    ensures { result.bytes ≡ call_text call }
{
    match call {
        Call::Open {
            session,
            weight,
            limit,
        } => open_line(session, weight, limit),
        Call::Enter {
            session,
            length,
            ticket,
        } => enter_line(session, length, ticket),
        Call::Start => word_line("do=start"),
        Call::Finish => word_line("do=finish"),
    }
}

// Writes the line about a faulty line, in place of what the text held.
pub fn write_fault(at: u32, fault: LineFault, line: &mut Line)
    ensures { line.new.bytes ≡ fault_text at fault }
{
    begin_line(line, at);
    push_field(line, " said=fault number=", fault.number());
    push_field(line, " field=", fault.field().unwrap_or(0));
    line.push_str("\n");
}
