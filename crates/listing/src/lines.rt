// The lines of a listing, each written to the front of a caller's octets: what was said to a call or about a faulty line, and how an open
// session stands at the end. They are the lines of `trace::listing` and `trace::reading`, which make a text of each.
ghost use Rattle.std.specs.Prelude.{◌+◌, ◌≤◌, ◌++◌, length, codes, decimal, Ok};
ghost use Rattle.calls.specs.declared.call.Reply.TheVariants.{Entered, Opened};
ghost use Rattle.trace.specs.Faults.{fault_field};
ghost use Rattle.trace.specs.Texts.{started_text, finished_text, refused_text, answer_text, fault_text};
ghost use Rattle.listing.specs.Texts.{Wrote};
ghost use Rattle.listing.specs.Listings.{standing_text};

use crate::text::{put, put_field, put_wide_field};
use calls::call::{Answer, Call, Packet, Reply, Service};
use calls::refusal::Refusal;
use trace::fault::LineFault;
use trace::listing::{Closing, session_of};

// Fields of the lines, from a place on. Each answers the place behind it.

fn put_ticket(out: &mut [u8], start: usize, packet: Packet) -> usize
    requires { start + 18 ≤ length out.old }
    ensures wrote { Wrote out.old start (codes " ticket=" ++ decimal packet.ticket) out.new result }
    ensures short { result ≤ start + 18 }
{
    put_field(out, start, b" ticket=", packet.ticket)
}

fn put_mark(out: &mut [u8], start: usize, mark: u64) -> usize
    requires { start + 26 ≤ length out.old }
    ensures wrote { Wrote out.old start (codes " mark=" ++ decimal mark) out.new result }
    ensures short { result ≤ start + 26 }
{
    put_wide_field(out, start, b" mark=", mark)
}

fn put_place(out: &mut [u8], start: usize, fault: LineFault) -> usize
    requires { start + 17 ≤ length out.old }
    ensures wrote { Wrote out.old start (codes " field=" ++ decimal (fault_field fault)) out.new result }
    ensures short { result ≤ start + 17 }
{
    put_field(out, start, b" field=", fault.field().unwrap_or(0))
}

fn put_waiting(out: &mut [u8], start: usize, closing: Closing) -> usize
    requires { start + 19 ≤ length out.old }
    ensures wrote { Wrote out.old start (codes " waiting=" ++ decimal closing.waiting) out.new result }
    ensures short { result ≤ start + 19 }
{
    put_field(out, start, b" waiting=", closing.waiting)
}

// The lines. Each answers how many octets it has.

fn put_opened(out: &mut [u8], at: u32, call: Call) -> usize
    requires { 96 ≤ length out.old }
    ensures wrote { Wrote out.old 0 (answer_text at call (Ok Opened)) out.new result }
    ensures short { result ≤ 96 }
{
    let place = put_field(out, 0, b"at=", at);
    let place = put_field(out, place, b" said=opened session=", session_of(call));
    put(out, place, b"\n")
}

fn put_entered(out: &mut [u8], at: u32, call: Call, mark: u64) -> usize
    requires { 96 ≤ length out.old }
    ensures wrote { Wrote out.old 0 (answer_text at call (Ok (Entered mark))) out.new result }
    ensures short { result ≤ 96 }
{
    let place = put_field(out, 0, b"at=", at);
    let place = put_field(out, place, b" said=entered session=", session_of(call));
    let place = put_mark(out, place, mark);
    put(out, place, b"\n")
}

fn put_started(out: &mut [u8], at: u32, service: Service) -> usize
    requires { 96 ≤ length out.old }
    ensures wrote { Wrote out.old 0 (started_text at service) out.new result }
    ensures short { result ≤ 96 }
{
    let place = put_field(out, 0, b"at=", at);
    let place = put_field(out, place, b" said=started session=", service.session);
    let place = put_ticket(out, place, service.packet);
    let place = put_mark(out, place, service.packet.mark);
    put(out, place, b"\n")
}

fn put_finished(out: &mut [u8], at: u32, service: Service) -> usize
    requires { 96 ≤ length out.old }
    ensures wrote { Wrote out.old 0 (finished_text at service) out.new result }
    ensures short { result ≤ 96 }
{
    let place = put_field(out, 0, b"at=", at);
    let place = put_field(out, place, b" said=finished session=", service.session);
    let place = put_ticket(out, place, service.packet);
    let place = put_field(out, place, b" length=", service.packet.length);
    put(out, place, b"\n")
}

fn put_refused(out: &mut [u8], at: u32, reason: Refusal) -> usize
    requires { 96 ≤ length out.old }
    ensures wrote { Wrote out.old 0 (refused_text at reason) out.new result }
    ensures short { result ≤ 96 }
{
    let place = put_field(out, 0, b"at=", at);
    let place = put_field(out, place, b" said=refused number=", reason.number());
    put(out, place, b"\n")
}

// Writes what was said to the call of the line with the number `at`, and answers how many octets it wrote.
pub(crate) fn put_answer(out: &mut [u8], at: u32, call: Call, answer: Answer) -> usize
    requires { 96 ≤ length out.old }
    ensures wrote { Wrote out.old 0 (answer_text at call answer) out.new result }
    ensures short { result ≤ 96 }
{
    match answer {
        Ok(Reply::Opened) => put_opened(out, at, call),
        Ok(Reply::Entered { mark }) => put_entered(out, at, call, mark),
        Ok(Reply::Started(service)) => put_started(out, at, service),
        Ok(Reply::Finished(service)) => put_finished(out, at, service),
        Err(reason) => put_refused(out, at, reason),
    }
}

// Writes the line about a faulty line, and answers how many octets it wrote.
pub(crate) fn put_fault(out: &mut [u8], at: u32, fault: LineFault) -> usize
    requires { 96 ≤ length out.old }
    ensures wrote { Wrote out.old 0 (fault_text at fault) out.new result }
    ensures short { result ≤ 96 }
{
    let place = put_field(out, 0, b"at=", at);
    let place = put_field(out, place, b" said=fault number=", fault.number());
    let place = put_place(out, place, fault);
    put(out, place, b"\n")
}

// Writes the closing line of a session, and answers how many octets it wrote.
pub(crate) fn put_standing(out: &mut [u8], closing: Closing) -> usize
    requires { 96 ≤ length out.old }
    ensures wrote { Wrote out.old 0 (standing_text closing) out.new result }
    ensures short { result ≤ 96 }
{
    let place = put_field(out, 0, b"end=", closing.session);
    let place = put_field(out, place, b" weight=", closing.weight);
    let place = put_wide_field(out, place, b" octets=", closing.octets);
    let place = put_waiting(out, place, closing);
    put(out, place, b"\n")
}
