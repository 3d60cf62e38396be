// The one call for hosts in C or Rust.
#![tactic(auto)]

ghost use Rattle.std.specs.Prelude.{◌≡◌, ◌≤◌, IfOk};
ghost use Rattle.listing.specs.Listings.{list_answer, listed_over, listing};
ghost use Rattle.listing.specs.Tellings.{Tells};
ghost use Rattle.trace.specs.Streams.{readings};
ghost use Rattle.fairline_host.specs.Numbers.{signed_answer};

use calls::refusal::Refusal;
use listing::whole::list;

// A count as it is, a refusal by its number with a minus sign.
fn signed(answer: Result<usize, Refusal>) -> i64
    requires { IfOk answer (λ n. n ≤ 6297600) }
    ensures { result ≡ signed_answer answer }
{
    match answer {
        Ok(count) => count as i64,
        Err(reason) => -i64::from(reason.number()),
    }
}

// Writes the listing of the trace to the front of the buffer and answers its length. Refused by 17 where the trace is above 65,536
// octets, then by 13 where the buffer is shorter than 96 octets for each line and 6,144 more: the answer is then the number with a
// minus sign, and the buffer is as it was. Octets behind the listing are as they were.
#[unsafe(no_mangle)]
pub extern "C" fn fairline_list(trace: &[u8], out: &mut [u8]) -> i64
    ensures answer { result ≡ signed_answer (list_answer trace.now out.old) }
    ensures octets { out.new ≡ listed_over trace.now out.old }
    ensures tells { Tells (readings trace.now) (listing trace.now) }
{
    signed(list(trace, out))
}
