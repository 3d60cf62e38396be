// Feeds one list of steps to the heap and to the scan and prints what each answers, and sends packets of three sessions through
// the table of waiting packets.
#![tactic(auto)]

use calls::call::Packet;
use calls::refusal::Refusal;
use ready::entry::Entry;
use ready::heap::Heap;
use ready::line::ReadyLine;
use ready::scan::Scan;
use std::{fmt, io};
use waiting::table::Waiting;

#[derive(Clone, Copy, Debug)]
enum Step {
    Add(u64, u32),
    Least,
    DropLeast,
    Count,
    Clear,
}

#[derive(Clone, Copy, Debug)]
enum Outcome {
    Done,
    Found(Option<Entry>),
    Counted(u32),
}

// What a step comes to, as it is printed.
#[derive(Clone, Copy)]
struct Shown(Result<Outcome, Refusal>);

impl fmt::Display for Shown {
    fn fmt<W: fmt::Write>(&self, f: &mut fmt::Formatter<W>) -> fmt::Result {
        match self.0 {
            Ok(outcome) => write!(f, "{outcome:?}"),
            Err(refusal) => write!(f, "Refused({refusal:?})"),
        }
    }
}

const STEPS: [Step; 26] = [
    Step::Least,
    Step::DropLeast,
    Step::Add(500, 9),
    Step::Add(500, 3),
    Step::Add(18446744073709551615, 0),
    Step::Add(7, 63),
    Step::Count,
    Step::Least,
    Step::Add(1, 64),
    Step::Add(1, 256),
    Step::Add(1, 4294967295),
    Step::Add(1, 3),
    Step::Count,
    Step::DropLeast,
    Step::DropLeast,
    Step::Add(500, 1),
    Step::DropLeast,
    Step::DropLeast,
    Step::DropLeast,
    Step::DropLeast,
    Step::Add(0, 40),
    Step::Add(0, 39),
    Step::Clear,
    Step::Count,
    Step::Add(0, 40),
    Step::DropLeast,
];

fn apply<R: ReadyLine>(line: &mut R, step: Step) -> Result<Outcome, Refusal> {
    match step {
        Step::Add(tag, session) => {
            line.add(tag, session)?;
            Ok(Outcome::Done)
        }
        Step::Least => Ok(Outcome::Found(line.least())),
        Step::DropLeast => Ok(Outcome::Found(line.drop_least())),
        Step::Count => Ok(Outcome::Counted(line.count())),
        Step::Clear => {
            line.clear();
            Ok(Outcome::Done)
        }
    }
}

fn compare(rt: &HostRuntime) -> io::Result<()> {
    let mut heap = Heap::new();
    let mut scan = Scan::new();
    for step in STEPS {
        let by_heap = Shown(apply(&mut heap, step));
        let by_scan = Shown(apply(&mut scan, step));
        println!(rt; "{step:?}: heap {by_heap}, scan {by_scan}")?;
    }
    Ok(())
}

// Packets come in turn from three sessions, and leave session by session in the order in which they came.
fn pass_through(rt: &HostRuntime) -> io::Result<()> {
    let mut table = Waiting::new();
    for ticket in 0..6u32 {
        let session = 5 + 20 * (ticket % 3);
        let packet = Packet {
            length: 100 + ticket,
            ticket,
            mark: 0,
        };
        let answer = table.put_last(session, packet);
        println!(rt; "put {ticket} in {session}: {answer:?}")?;
    }
    let total = table.total();
    let wrong = table.count(64);
    println!(rt; "in all {total}, session 64 {wrong:?}")?;
    for session in [45u32, 5, 25] {
        let count = table.count(session);
        let lengths = table.lengths(session);
        println!(rt; "session {session}: count {count:?}, lengths {lengths:?}")?;
        for _ in 0..3u32 {
            let taken = table.take_first(session);
            println!(rt; "taken {taken:?}")?;
        }
    }
    Ok(())
}

fn main(rt: HostRuntime) -> io::Result<()> {
    compare(&rt)?;
    pass_through(&rt)
}
