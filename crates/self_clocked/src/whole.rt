// Whole lines, made here: what is promised of their runs has no premise.
ghost use Rattle.std.specs.Prelude.{◌≡◌};
ghost use Rattle.discipline.specs.Continues.{run_answer, Made};
ghost use Rattle.sharing.specs.Clocked.{ClockedStep};
ghost use Rattle.self_clocked.specs.Exact.{Exact, Fresh};
ghost use Rattle.self_clocked.specs.States.{state};
ghost use Rattle.self_clocked.specs.Whole.{WholeRun, Capped, LedBy};

use crate::line::SelfClocked;
use calls::call::{Answer, Call};
use calls::refusal::Refusal;
use discipline::cap::{Cap, CapNumber};
use discipline::discipline::SelfClockedDiscipline;
use discipline::run::run_self_clocked;
use ready::line::ReadyLine;

// Makes the calls in turn on a new line over this ready line, and notes each answer: that of the exact rule. Refused by 13, with nothing done,
// where the answers have no room.
pub fn run_on<R: ReadyLine + Drop>(
    ready: R,
    calls: &[Call],
    answers: &mut [Answer],
) -> Result<usize, Refusal>
    ensures answer { result ≡ run_answer calls.now answers.old }
    ensures effect { WholeRun Exact calls.now answers.old answers.new result }
{
    let mut line = SelfClocked::new(ready);
    run_self_clocked(&mut line, calls, answers)
}

// Makes the calls on any new self-clocked line. Besides, they are a run from that very line.
fn run_new<D: SelfClockedDiscipline>(
    line: &mut D,
    calls: &[Call],
    answers: &mut [Answer],
) -> Result<usize, Refusal>
    requires { D.Discipline.fresh line.old }
    ensures answer { result ≡ run_answer calls.now answers.old }
    ensures effect { WholeRun ClockedStep calls.now answers.old answers.new result }
    ensures made { Made D.Discipline.steps calls.now answers.new line.old line.new result }
{
    run_self_clocked(line, calls, answers)
}

// A new line over this ready line, under two caps.
fn under_two_caps<R: ReadyLine + Drop>(
    ready: R,
    inner: CapNumber,
    outer: CapNumber,
) -> Cap<Cap<SelfClocked<R>>>
    ensures outer { result.cap ≡ outer }
    ensures inner { result.below.cap ≡ inner }
    ensures new { Fresh (R.ReadyLine.tags result.below.below.ready) (state result.below.below) }
{
    Cap::over(Cap::over(SelfClocked::new(ready), inner), outer)
}

// The same as `run_on` under two caps, one over the other: each answer is that of the exact rule, or of the cap that refused the call.
pub fn run_on_capped<R: ReadyLine + Drop>(
    ready: R,
    inner: CapNumber,
    outer: CapNumber,
    calls: &[Call],
    answers: &mut [Answer],
) -> Result<usize, Refusal>
    ensures answer { result ≡ run_answer calls.now answers.old }
    ensures effect { WholeRun ClockedStep calls.now answers.old answers.new result }
    ensures capped { LedBy (Capped outer.number (Capped inner.number Exact)) calls.now answers.new result }
{
    let mut line = under_two_caps(ready, inner, outer);
    run_new(&mut line, calls, answers)
}
