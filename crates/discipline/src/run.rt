// Calls in a row on any discipline, and what every history of them keeps.
ghost use Rattle.std.specs.Prelude.{◌≡◌};
ghost use Rattle.sharing.specs.Statements.{OrderPreserved, Fair};
ghost use Rattle.discipline.specs.Continues.{run_answer, RunEffect, Made};

use crate::discipline::{Discipline, SelfClockedDiscipline};
use calls::call::{Answer, Call, Reply};
use calls::refusal::Refusal;

// Makes one call.
pub fn apply<D: Discipline>(line: &mut D, call: Call) -> Answer
    ensures { D.Discipline.sound line.old → D.Discipline.steps line.old call result line.new }
{
    match call {
        Call::Open {
            session,
            weight,
            limit,
        } => {
            line.open(session, weight, limit)?;
            Ok(Reply::Opened)
        }
        Call::Enter {
            session,
            length,
            ticket,
        } => {
            let mark = line.enter(session, length, ticket)?;
            Ok(Reply::Entered { mark })
        }
        Call::Start => Ok(Reply::Started(line.start()?)),
        Call::Finish => Ok(Reply::Finished(line.finish()?)),
    }
}

// Makes the calls in turn and notes each answer. Refused by 13, with nothing done, where the answers have no room.
pub fn run<D: Discipline>(
    line: &mut D,
    calls: &[Call],
    answers: &mut [Answer],
) -> Result<usize, Refusal>
    ensures answer { result ≡ run_answer calls.now answers.old }
    ensures effect { RunEffect D.Discipline.fresh D.Discipline.steps D.Discipline.meaning OrderPreserved calls.now answers.old answers.new line.old line.new result }
    ensures made { D.Discipline.sound line.old → Made D.Discipline.steps calls.now answers.new line.old line.new result }
{
    if answers.len() < calls.len() {
        return Err(Refusal::ShortBuffer);
    }
    for (i, call) in calls.iter().enumerate() {
        answers[i] = apply(line, *call);
    }
    Ok(calls.len())
}

// The same on a self-clocked discipline, whose every history is fair besides.
pub fn run_self_clocked<D: SelfClockedDiscipline>(
    line: &mut D,
    calls: &[Call],
    answers: &mut [Answer],
) -> Result<usize, Refusal>
    ensures answer { result ≡ run_answer calls.now answers.old }
    ensures effect { RunEffect D.Discipline.fresh D.Discipline.steps D.Discipline.meaning Fair calls.now answers.old answers.new line.old line.new result }
    ensures made { D.Discipline.sound line.old → Made D.Discipline.steps calls.now answers.new line.old line.new result }
{
    run(line, calls, answers)
}
