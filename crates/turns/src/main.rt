// turns: what a line does while it is busy, for counting what that costs. Its arguments are `heap` or `scan`, a number of sessions,
// a number of packets that wait in each, and a number of turns. In a turn the packet in service is finished, the next one is started,
// and a packet enters in its session, so that as many wait as before. It prints what was sent.
#![tactic(auto)]

use anyhow::Context;
use calls::call::Service;
use calls::refusal::Refusal;
use discipline::discipline::Discipline;
use ready::heap::Heap;
use ready::scan::Scan;
use self_clocked::line::SelfClocked;
use std::env;

// How busy the line is kept, and for how long.
#[derive(Clone, Copy)]
struct Load {
    sessions: u32,
    waiting: u32,
    turns: u32,
}

fn turn<D: Discipline>(line: &mut D, ticket: u32) -> Result<Service, Refusal> {
    let sent = line.finish()?;
    let started = line.start()?;
    line.enter(started.session, 500, ticket)?;
    Ok(sent)
}

// Opens the sessions, with weights 1 to 16 in turn, and lets the packets enter that wait from then on.
fn fill<D: Discipline>(line: &mut D, load: Load) -> Result<(), Refusal> {
    for session in 0..load.sessions {
        line.open(session, 1 + session % 16, 1500)?;
    }
    for ticket in 0..load.waiting {
        for session in 0..load.sessions {
            line.enter(session, 500, ticket)?;
        }
    }
    let started = line.start()?;
    line.enter(started.session, 500, 0)?;
    Ok(())
}

// What was sent in all the turns.
fn sent<D: Discipline>(line: &mut D, load: Load) -> Result<u64, Refusal> {
    fill(line, load)?;
    (0..load.turns).try_fold(0, |octets: u64, ticket| {
        let service = turn(line, ticket)?;
        Ok(octets.saturating_add(u64::from(service.packet.length)))
    })
}

fn number(word: Option<String>) -> anyhow::Result<u32> {
    let word = word.context("three numbers are wanted")?;
    Ok(word.as_str().parse::<u32>()?)
}

fn main(rt: HostRuntime) -> anyhow::Result<()> {
    let mut words = env::args(&rt)?;
    let _ = words.next();
    let name = words.next().context("heap or scan is wanted")?;
    let load = Load {
        sessions: number(words.next())?,
        waiting: number(words.next())?,
        turns: number(words.next())?,
    };
    let octets = if name.as_str() == "scan" {
        sent(&mut SelfClocked::new(Scan::new()), load)
    } else {
        sent(&mut SelfClocked::new(Heap::new()), load)
    };
    match octets {
        Ok(octets) => println!(rt; "octets={octets}")?,
        Err(refusal) => println!(rt; "refused={}", refusal.number())?,
    }
    Ok(())
}
