// A number of a trace: decimal digits, 0 to 4,294,967,295.
ghost use Rattle.std.specs.Prelude.{◌≡◌, ◌+◌, ◌-◌, ◌*◌, ◌≤◌, min, true, ◌∷◌};
ghost use Rattle.trace.specs.Numbers.{is_digit, all_digits, in_range, read_digits, read_number};

// Why an octet string is no number, in the order of the checks.
#[derive(Clone, Copy, PartialEq, Eq, Debug)]
pub enum NumberFault {
    Empty,
    StrayOctet,
    LeadingZero,
    TooLarge,
}

// One above the largest number.
const TOP: u64 = 4_294_967_296;

fn all_digits(octets: &[u8]) -> bool
    ensures { result ≡ all_digits octets.now }
{
    octets.iter().all(|octet| octet.is_ascii_digit())
}

// One digit more, held at the top once the number is too large.
fn with_digit(value: u64, digit: u8) -> u64
    requires { (value ≤ 4294967296) × (is_digit digit ≡ true) }
    ensures { result ≡ min (value * 10 + (digit - 48)) 4294967296 }
{
    (value * 10 + u64::from(digit - b'0')).min(TOP)
}

fn in_range(value: u64) -> Result<u32, NumberFault>
    ensures { result ≡ in_range value }
{
    u32::try_from(value).map_err(|_| NumberFault::TooLarge)
}

// What a first 0 and the octets behind it are: a number only if nothing follows.
fn read_after_zero(rest: &[u8]) -> Result<u32, NumberFault>
    ensures { result ≡ read_number (48 ∷ rest.now) }
{
    if rest.is_empty() {
        Ok(0)
    } else if all_digits(rest) {
        Err(NumberFault::LeadingZero)
    } else {
        Err(NumberFault::StrayOctet)
    }
}

// The number of a first digit and the digits behind it, with no regard to a leading zero.
fn read_digits(first: u8, rest: &[u8]) -> Result<u32, NumberFault>
    ensures { result ≡ read_digits (first ∷ rest.now) }
{
    if !first.is_ascii_digit() {
        return Err(NumberFault::StrayOctet);
    }
    let mut value = u64::from(first - b'0');
    for octet in rest {
        if !octet.is_ascii_digit() {
            return Err(NumberFault::StrayOctet);
        }
        value = with_digit(value, *octet);
    }
    in_range(value)
}

// The number that the text writes, or the first of the four faults that it has.
pub fn read_number(text: &[u8]) -> Result<u32, NumberFault>
    ensures { result ≡ read_number text.now }
{
    match text {
        [] => Err(NumberFault::Empty),
        [b'0', rest @ ..] => read_after_zero(rest),
        [first, rest @ ..] => read_digits(*first, rest),
    }
}
