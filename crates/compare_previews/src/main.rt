// Prints what a preview tells while a packet is in service, and then the packets that start: the same tickets, with ties between
// sessions, over the heap and over the scan.
#![tactic(auto)]

use calls::call::{Answer, Call};
use discipline::run::apply;
use ready::heap::Heap;
use ready::line::ReadyLine;
use ready::scan::Scan;
use self_clocked::line::SelfClocked;
use std::io;
use std::io::{BufWriter, Write};
use trace::listing::write_answer;
use trace::text::Line;

// Prints what was answered to the start with this number.
fn print_answer(out: &mut impl Write, name: &str, at: u32, answer: Answer) -> io::Result<()> {
    let mut line = Line::new();
    write_answer(at, Call::Start, answer, &mut line);
    write!(out, "{name}{line}")
}

// Opens four sessions, of the weights 1 and 2, enters twelve packets and starts one.
fn fill<R: ReadyLine + Drop>(line: &mut SelfClocked<R>) {
    for session in 0..4 {
        let _ = apply(
            line,
            Call::Open {
                session: 3 - session,
                weight: 1 + session % 2,
                limit: 1000,
            },
        );
    }
    for ticket in 0..12 {
        let _ = apply(
            line,
            Call::Enter {
                session: ticket % 4,
                length: 100 + 100 * (ticket % 2),
                ticket: 30 + ticket,
            },
        );
    }
    let _ = apply(line, Call::Start);
}

fn look_ahead<R: ReadyLine + Drop>(
    out: &mut impl Write,
    name: &str,
    line: &mut SelfClocked<R>,
) -> io::Result<()> {
    fill(line);
    let mut tickets = [0; 256];
    let mut scratch = [1; 256];
    if let Ok(count) = line.preview(&mut tickets, &mut scratch) {
        for ticket in &tickets[0..count] {
            writeln!(out, "{name}preview ticket={ticket}")?;
        }
    }
    for at in 1..12 {
        let _ = apply(line, Call::Finish);
        let started = apply(line, Call::Start);
        print_answer(out, name, at, started)?;
    }
    Ok(())
}

fn main(rt: HostRuntime) -> io::Result<()> {
    let mut out = BufWriter::new(rt.alloc(), rt.stdout())?;
    look_ahead(&mut out, "heap       ", &mut SelfClocked::new(Heap::new()))?;
    look_ahead(&mut out, "scan       ", &mut SelfClocked::new(Scan::new()))?;
    out.flush()
}
