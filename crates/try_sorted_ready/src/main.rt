// Makes one list of calls on the self-clocked line over three ready lines, and prints what is answered and whether all three answer it.
#![tactic(auto)]

use calls::call::{Answer, Call, Reply, Service};
use calls::refusal::Refusal;
use ready::heap::Heap;
use ready::line::ReadyLine;
use ready::scan::Scan;
use self_clocked::whole::run_on;
use sorted_ready::line::SortedLine;
use std::{fmt, io};

// Three sessions whose first packets have one mark, and whose next ones have again one.
const CALLS: [Call; 20] = [
    Call::Open {
        session: 40,
        weight: 2,
        limit: 200,
    },
    Call::Open {
        session: 9,
        weight: 1,
        limit: 200,
    },
    Call::Open {
        session: 3,
        weight: 1,
        limit: 200,
    },
    Call::Enter {
        session: 9,
        length: 100,
        ticket: 1,
    },
    Call::Enter {
        session: 40,
        length: 200,
        ticket: 2,
    },
    Call::Enter {
        session: 3,
        length: 100,
        ticket: 3,
    },
    Call::Enter {
        session: 3,
        length: 50,
        ticket: 4,
    },
    Call::Enter {
        session: 9,
        length: 50,
        ticket: 5,
    },
    Call::Start,
    Call::Start,
    Call::Finish,
    Call::Start,
    Call::Finish,
    Call::Start,
    Call::Finish,
    Call::Start,
    Call::Finish,
    Call::Start,
    Call::Finish,
    Call::Start,
];

// What the self-clocked line over a ready line answers. Refusal 13 stays where no answer was written.
fn answers_on<R: ReadyLine + Drop>(ready: R) -> [Answer; 20] {
    let mut answers = [Err(Refusal::ShortBuffer); 20];
    let _ = run_on(ready, &CALLS, &mut answers);
    answers
}

// An answer as it is printed.
#[derive(Clone, Copy)]
struct Shown(Answer);

impl fmt::Display for Shown {
    fn fmt<W: fmt::Write>(&self, f: &mut fmt::Formatter<W>) -> fmt::Result {
        match self.0 {
            Ok(Reply::Started(Service { session, packet })) => write!(
                f,
                "Started {{ session: {session}, packet: {packet:?} }}"
            ),
            Ok(Reply::Finished(Service { session, packet })) => write!(
                f,
                "Finished {{ session: {session}, packet: {packet:?} }}"
            ),
            Ok(reply) => write!(f, "{reply:?}"),
            Err(refusal) => write!(f, "Refused({refusal:?})"),
        }
    }
}

fn main(rt: HostRuntime) -> io::Result<()> {
    let by_heap = answers_on(Heap::new());
    let by_scan = answers_on(Scan::new());
    let by_sorted = answers_on(SortedLine::new());
    for (at, call) in CALLS.iter().enumerate() {
        let answer = by_sorted[at];
        let equal = answer == by_heap[at] && answer == by_scan[at];
        let shown = Shown(answer);
        println!(rt; "{call:?}: {shown}, equal {equal}")?;
    }
    Ok(())
}
