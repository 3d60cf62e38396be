// Weights, their strides, and what a packet is charged.
ghost use Rattle.std.specs.Prelude.{◌≡◌, ◌<◌, ◌≤◌};
ghost use Rattle.calls.specs.Strides.{charge, stride, stride_answer, ProductOfWeightAndStride};

use crate::refusal::{Refusal, check_within};

// The largest weight that a session has. The smallest is 1.
pub const LARGEST_WEIGHT: u32 = 16;

// 720,720 divided by the weights 1 to 16.
const STRIDES: [u32; LARGEST_WEIGHT as usize] = [
    720720, 360360, 240240, 180180, 144144, 120120, 102960, 90090, 80080, 72072, 65520, 60060,
    55440, 51480, 48048, 45045,
];

fn entry(weight: u32) -> u32
    requires { (0 < weight) × (weight ≤ 16) }
    ensures { result ≡ stride weight }
{
    STRIDES[(weight - 1) as usize]
}

// What an octet adds to a mark at this weight.
pub fn stride(weight: u32) -> Result<u32, Refusal>
    ensures { result ≡ stride_answer weight }
{
    check_within(weight, LARGEST_WEIGHT, Refusal::BadWeight)?;
    Ok(entry(weight))
}

// What each weight times its stride is: no stride is rounded.
pub fn scale() -> u32
    ensures { ProductOfWeightAndStride result }
{
    720_720
}

// What the link is charged for a packet of this length.
pub fn charge(length: u32) -> u64
    ensures { result ≡ charge length }
{
    u64::from(length)
}
