// A field of a trace line: what stands between two spaces.
ghost use Rattle.std.specs.Prelude.{◌≡◌};
ghost use Rattle.std.specs.Str.{bytes_eq};
ghost use Rattle.trace.specs.Fields.{field_of, said_by, key_name, has_name, order_of};

use crate::cut::split_once;

// A field as it is written, its octets borrowed from the line.
#[derive(Clone, Copy)]
pub enum Field<'a> {
    // The word behind `do=`.
    Order(&'a [u8]),
    // What stands before the first `=`, and what stands behind it.
    Keyed(&'a [u8], &'a [u8]),
    // A field with no `=`.
    Other(&'a [u8]),
}

// The words that a line may begin with.
#[derive(Clone, Copy, PartialEq, Eq, Debug)]
pub enum Order {
    Open,
    Enter,
    Start,
    Finish,
}

// The names of the values.
#[derive(Clone, Copy, PartialEq, Eq, Debug)]
pub enum Key {
    Session,
    Weight,
    Limit,
    Length,
    Ticket,
}

fn same(octets: &[u8], text: &[u8]) -> bool
    ensures { result ≡ bytes_eq octets.now text.now }
{
    octets == text
}

impl Key {
    // The key as it is written before the `=`.
    pub fn name(self) -> &'static [u8]
        ensures { result.now ≡ key_name self }
    {
        match self {
            Key::Session => b"session",
            Key::Weight => b"weight",
            Key::Limit => b"limit",
            Key::Length => b"length",
            Key::Ticket => b"ticket",
        }
    }

    // Whether a field with this name before its `=` has this key.
    pub fn is_named(self, name: &[u8]) -> bool
        ensures { result ≡ has_name self name.now }
    {
        name == self.name()
    }
}

impl Order {
    // The order that the word names.
    pub fn named(word: &[u8]) -> Option<Order>
        ensures { result ≡ order_of word.now }
    {
        if same(word, b"open") {
            Some(Order::Open)
        } else if same(word, b"enter") {
            Some(Order::Enter)
        } else if same(word, b"start") {
            Some(Order::Start)
        } else if same(word, b"finish") {
            Some(Order::Finish)
        } else {
            None
        }
    }
}

pub fn read_field(text: &[u8]) -> Field<'_>
    ensures { said_by result ≡ field_of text.now }
{
    match split_once(text, b'=') {
        Some((b"do", word)) => Field::Order(word),
        Some((key, value)) => Field::Keyed(key, value),
        None => Field::Other(text),
    }
}
