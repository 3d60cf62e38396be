// Text that is put together from words and decimal numbers.
ghost use Rattle.std.specs.Prelude.{◌≡◌, ◌+◌, ◌≤◌, ◌++◌, length};
ghost use Rattle.arrayvec.specs.ArrayString.{array_string_len};
ghost use Rattle.trace.specs.Texts.{numbered_line};

use arrayvec::ArrayString;
use itoa::{Buffer, Integer};

// What is enough for one line of a listing.
pub const LINE_ROOM: usize = 96;

// A line of a listing.
pub type Line = ArrayString<LINE_ROOM>;

// Puts a name, which ends in `=`, and behind it the number to the end of the line.
#[inline]
pub(crate) fn push_field<I: Integer, const N: usize>(
    line: &mut ArrayString<N>,
    name: &str,
    number: I,
)
    requires { array_string_len line.old + length name.now + I.MAX_STR_LEN ≤ N }
    ensures octets { line.new.bytes ≡ line.old.bytes ++ (name.now ++ I.text number) }
    ensures short { array_string_len line.new ≤ array_string_len line.old + length name.now + I.MAX_STR_LEN }
{
    line.push_str(name);
    line.push_str(Buffer::new().format(number));
}

// Begins the line of a listing about the line of a trace with the number `at`.
pub(crate) fn begin_line(line: &mut Line, at: u32)
    ensures octets { line.new.bytes ≡ numbered_line at }
    ensures short { array_string_len line.new ≤ 13 }
{
    line.clear();
    push_field(line, "at=", at);
}
