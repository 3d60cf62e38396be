// Words and decimal numbers, written into a caller's octets where they are to stand. A text of its own would be copied there, and what was
// just written octet by octet is slow to read back.
ghost use Rattle.std.specs.Prelude.{◌≡◌, ◌+◌, ◌<◌, ◌≤◌, ◌++◌, length, decimal};
ghost use Rattle.listing.specs.Texts.{Wrote};

use itoa::write_digits;

// Writes the piece, and answers the place behind it.
#[tactic(auto, using(crate::proofs::Writing::wrote_piece))]
pub(crate) fn put(out: &mut [u8], at: usize, piece: &[u8]) -> usize
    requires { at + length piece.now ≤ length out.old }
    ensures { Wrote out.old at piece.now out.new result }
{
    let end = at + piece.len();
    out[at..end].copy_from_slice(piece);
    end
}

// How many digits a number below 10,000 has.
fn short_len(number: u64) -> usize
    requires { number < 10000 }
    ensures { result ≡ length (decimal number) }
{
    if number < 10 {
        1
    } else if number < 100 {
        2
    } else if number < 1000 {
        3
    } else {
        4
    }
}

// How many digits the number has.
fn decimal_len(number: u64) -> usize
    ensures { result ≡ length (decimal number) }
{
    let mut len = 0;
    let mut rest = number;
    while rest >= 10_000 {
        rest /= 10_000;
        len += 4;
    }
    len + short_len(rest)
}

// Writes the number in decimal, and answers the place behind it. It is inlined, with the fields below, since many numbers are known where a
// field is written.
#[inline(always)]
#[tactic(auto, using(crate::proofs::Writing::wrote_digits))]
fn put_decimal(out: &mut [u8], at: usize, number: u64) -> usize
    requires { at + length (decimal number) ≤ length out.old }
    ensures { Wrote out.old at (decimal number) out.new result }
{
    let end = at + decimal_len(number);
    write_digits(number, out, end);
    end
}

// Writes a name, which ends in `=`, and behind it the number, which has at most ten digits.
#[inline(always)]
#[tactic(auto, using(crate::proofs::Writing::decimal_short))]
pub(crate) fn put_field(out: &mut [u8], at: usize, name: &[u8], number: u32) -> usize
    requires { at + length name.now + 10 ≤ length out.old }
    ensures wrote { Wrote out.old at (name.now ++ decimal number) out.new result }
    ensures short { result ≤ at + length name.now + 10 }
{
    let middle = put(out, at, name);
    put_decimal(out, middle, u64::from(number))
}

// The same for a number of 64 bits, which has at most twenty digits.
#[inline(always)]
#[tactic(auto, using(crate::proofs::Writing::decimal_at_most))]
pub(crate) fn put_wide_field(out: &mut [u8], at: usize, name: &[u8], number: u64) -> usize
    requires { at + length name.now + 20 ≤ length out.old }
    ensures wrote { Wrote out.old at (name.now ++ decimal number) out.new result }
    ensures short { result ≤ at + length name.now + 20 }
{
    let middle = put(out, at, name);
    put_decimal(out, middle, number)
}
