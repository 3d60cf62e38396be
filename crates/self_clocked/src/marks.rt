// Marks, and how long a packet may be.
ghost use Rattle.std.specs.Prelude.{◌≡◌, ◌/◌, ◌<◌, min};
ghost use Rattle.self_clocked.specs.Marks.{mark_answer_from, under_ceiling, reach_answer_from};

use calls::call::LONGEST_PACKET;
use calls::refusal::Refusal;
use calls::stride::{charge, stride};

// No mark is above it.
const CEILING: u64 = 9_223_372_036_854_775_807;

// Refuses a mark above the ceiling.
fn check_ceiling(mark: u64) -> Result<u64, Refusal>
    ensures { result ≡ under_ceiling mark }
{
    if mark > CEILING {
        return Err(Refusal::OutOfReach);
    }
    Ok(mark)
}

// The mark of a packet of this length, counted from this base.
pub(crate) fn mark(base: u64, length: u32, weight: u32) -> Result<u64, Refusal>
    ensures { result ≡ mark_answer_from base length weight }
{
    let stride = stride(weight)?;
    let step = charge(length) * u64::from(stride);
    check_ceiling(base.saturating_add(step))
}

// How many octets of this stride fit into what is left below the ceiling, up to 65,535.
fn octets_within(left: u64, stride: u32) -> u32
    requires { 0 < stride }
    ensures { result ≡ min (left / stride) 65535 }
{
    (left / u64::from(stride)).min(u64::from(LONGEST_PACKET)) as u32
}

// The longest length up to 65,535 whose mark from this base is not above the ceiling, or 0.
#[tactic(auto, using(crate::proofs::Divisions::stride_positive, crate::proofs::Divisions::reach_divided))]
pub(crate) fn reach(base: u64, weight: u32) -> Result<u32, Refusal>
    ensures { result ≡ reach_answer_from base weight }
{
    let stride = stride(weight)?;
    let left = CEILING.saturating_sub(base);
    Ok(octets_within(left, stride))
}
