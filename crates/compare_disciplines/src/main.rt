// Runs one list of calls on four new lines and prints what each answers, side by side: self-clocked over the heap, over the scan,
// first come, and self-clocked under two caps. Then it fills a line, and lets a session come back after a pause.
#![tactic(auto)]

use calls::call::{Answer, Call};
use calls::refusal::Refusal;
use discipline::cap::{Cap, CapNumber};
use discipline::discipline::Discipline;
use discipline::run::apply;
use first_come::line::FirstCome;
use ready::heap::Heap;
use ready::scan::Scan;
use self_clocked::line::SelfClocked;
use std::io;
use std::io::{BufWriter, Write};
use trace::listing::write_answer;
use trace::text::Line;

// Prints what one line answers, with the name of the line before it.
fn print_answer(
    out: &mut impl Write,
    name: &str,
    at: u32,
    call: Call,
    answer: Answer,
) -> io::Result<()> {
    let mut line = Line::new();
    write_answer(at, call, answer, &mut line);
    write!(out, "{name}{line}")
}

fn open(session: u32, weight: u32, limit: u32) -> Call {
    Call::Open {
        session,
        weight,
        limit,
    }
}

fn enter(session: u32, length: u32, ticket: u32) -> Call {
    Call::Enter {
        session,
        length,
        ticket,
    }
}

// The calls that all four lines are asked.
fn script() -> [Call; 24] {
    [
        Call::Start,
        Call::Finish,
        open(0, 1, 1000),
        open(1, 2, 1000),
        open(1, 2, 1000),
        open(64, 1, 1),
        open(2, 17, 1),
        open(2, 16, 65536),
        enter(2, 1, 1),
        enter(0, 1001, 2),
        enter(0, 0, 3),
        enter(0, 600, 4),
        enter(0, 600, 5),
        enter(0, 100, 6),
        enter(1, 1000, 7),
        enter(1, 200, 8),
        Call::Start,
        Call::Start,
        Call::Finish,
        Call::Start,
        Call::Finish,
        Call::Start,
        Call::Finish,
        Call::Start,
    ]
}

fn side_by_side(out: &mut impl Write, inner: CapNumber, outer: CapNumber) -> io::Result<()> {
    let mut by_heap = SelfClocked::new(Heap::new());
    let mut by_scan = SelfClocked::new(Scan::new());
    let mut first_come = FirstCome::new();
    let mut capped = Cap::over(Cap::over(SelfClocked::new(Heap::new()), inner), outer);
    for (at, call) in (1u32..).zip(script()) {
        print_answer(out, "heap       ", at, call, apply(&mut by_heap, call))?;
        print_answer(out, "scan       ", at, call, apply(&mut by_scan, call))?;
        print_answer(out, "first come ", at, call, apply(&mut first_come, call))?;
        print_answer(out, "capped     ", at, call, apply(&mut capped, call))?;
    }
    Ok(())
}

// 256 packets wait; one more is refused by 7; a start lets one more in, and again one is refused.
fn fill<D: Discipline>(out: &mut impl Write, name: &str, line: &mut D) -> io::Result<()> {
    let _ = apply(line, open(5, 3, 65535));
    for ticket in 1..258 {
        let call = enter(5, 1, ticket);
        let answer = apply(line, call);
        if ticket > 254 {
            print_answer(out, name, ticket, call, answer)?;
        }
    }
    let started = apply(line, Call::Start);
    print_answer(out, name, 258, Call::Start, started)?;
    for ticket in 259..261 {
        let call = enter(5, 1, ticket);
        let answer = apply(line, call);
        print_answer(out, name, ticket, call, answer)?;
    }
    Ok(())
}

// While session 1 is away, session 0 sends ten packets. Coming back, session 1 is marked from the clock and not from its own last
// mark, so it gets no service for the time that it was away.
fn come_back<D: Discipline>(out: &mut impl Write, name: &str, line: &mut D) -> io::Result<()> {
    let _ = apply(line, open(0, 1, 1000));
    let _ = apply(line, open(1, 1, 1000));
    let _ = apply(line, enter(1, 10, 0));
    for ticket in 1..12 {
        let _ = apply(line, enter(0, 1000, ticket));
    }
    for _ in 0..10 {
        let _ = apply(line, Call::Start);
        let _ = apply(line, Call::Finish);
    }
    for ticket in 20..23 {
        let call = enter(1, 1000, ticket);
        let answer = apply(line, call);
        print_answer(out, name, ticket, call, answer)?;
    }
    for at in 23..28 {
        let started = apply(line, Call::Start);
        print_answer(out, name, at, Call::Start, started)?;
        let _ = apply(line, Call::Finish);
    }
    Ok(())
}

// The caps of two and three packets, one over the other.
fn caps() -> Result<(CapNumber, CapNumber), Refusal> {
    Ok((CapNumber::try_from(3)?, CapNumber::try_from(2)?))
}

fn main(rt: HostRuntime) -> io::Result<()> {
    let mut out = BufWriter::new(rt.alloc(), rt.stdout())?;
    if let Ok((inner, outer)) = caps() {
        side_by_side(&mut out, inner, outer)?;
    }
    fill(&mut out, "heap       ", &mut SelfClocked::new(Heap::new()))?;
    fill(&mut out, "scan       ", &mut SelfClocked::new(Scan::new()))?;
    fill(&mut out, "first come ", &mut FirstCome::new())?;
    come_back(&mut out, "heap       ", &mut SelfClocked::new(Heap::new()))?;
    come_back(&mut out, "first come ", &mut FirstCome::new())?;
    out.flush()
}
