// One line of a trace: a call, or what is wrong with the line.
ghost use Rattle.std.specs.Prelude.{◌≡◌, [], ◌∷◌};
ghost use Rattle.std.specs.Option.{option_map};
ghost use Rattle.trace.specs.Cuts.{split};
ghost use Rattle.trace.specs.Fields.{said_by};
ghost use Rattle.trace.specs.Numbers.{read_number};
ghost use Rattle.trace.specs.Lines.{numbered, left, first_said, without_first, value_at, nothing_at, order_at, read_values, read_call, read_line};

use crate::cut::split_once;
use crate::fault::{BadNumber, FieldFault, LineFault};
use crate::field::{Field, Key, Order, read_field};
use crate::number::read_number;
use calls::call::Call;

// The most octets that a line may have, octet 10 not counted.
pub const LONGEST: usize = 80;

// The fields of a line that are still to be read.
#[derive(Clone, Copy)]
struct Fields<'a> {
    rest: Option<&'a [u8]>,
}

impl<'a> Fields<'a> {
    fn of(line: &'a [u8]) -> Fields<'a>
        ensures { left result ≡ split 32 line.now }
    {
        Fields { rest: Some(line) }
    }

    // The next field, or nothing behind the last one.
    fn next(&mut self) -> Option<Field<'a>>
        ensures field { option_map said_by result ≡ first_said (left self.old) }
        ensures rest { left self.new ≡ without_first (left self.old) }
    {
        let text = self.rest?;
        match split_once(text, b' ') {
            Some((field, rest)) => {
                self.rest = Some(rest);
                Some(read_field(field))
            }
            None => {
                self.rest = None;
                Some(read_field(text))
            }
        }
    }
}

fn read_number_at(place: u32, text: &[u8]) -> Result<u32, BadNumber>
    ensures { result ≡ numbered place (read_number text.now) }
{
    read_number(text).map_err(|fault| BadNumber { place, fault })
}

// The order at the head of a line.
fn order_at(field: Option<Field<'_>>) -> Result<Order, FieldFault>
    ensures { result ≡ order_at (option_map said_by field.entry) }
{
    match field {
        Some(Field::Order(word)) => Order::named(word).ok_or(FieldFault::Malformed(1)),
        _ => Err(FieldFault::Malformed(1)),
    }
}

// The number under the key, which stands at this place.
fn value_at(place: u32, key: Key, field: Option<Field<'_>>) -> Result<u32, FieldFault>
    ensures { result ≡ value_at place key (option_map said_by field.entry) }
{
    match field {
        Some(Field::Keyed(name, value)) => {
            if !key.is_named(name) {
                return Err(FieldFault::Malformed(place));
            }
            Ok(read_number_at(place, value)?)
        }
        _ => Err(FieldFault::Malformed(place)),
    }
}

// No field stands at this place.
fn nothing_at(place: u32, field: Option<Field<'_>>) -> Result<(), FieldFault>
    ensures { result ≡ nothing_at place (option_map said_by field.entry) }
{
    match field {
        Some(_) => Err(FieldFault::Malformed(place)),
        None => Ok(()),
    }
}

// The numbers under three keys, which are the second to fourth field, and no fifth field.
fn read_three(
    fields: &mut Fields<'_>,
    first: Key,
    second: Key,
    third: Key,
) -> Result<[u32; 3], FieldFault>
    ensures { result ≡ read_values 2 (first ∷ second ∷ third ∷ []) (left fields.old) }
{
    let a = value_at(2, first, fields.next())?;
    let b = value_at(3, second, fields.next())?;
    let c = value_at(4, third, fields.next())?;
    nothing_at(5, fields.next())?;
    Ok([a, b, c])
}

fn read_call(fields: &mut Fields<'_>) -> Result<Call, FieldFault>
    ensures { result ≡ read_call (left fields.old) }
{
    match order_at(fields.next())? {
        Order::Open => {
            let [session, weight, limit] = read_three(
                fields,
                Key::Session,
                Key::Weight,
                Key::Limit,
            )?;
            Ok(Call::Open {
                session,
                weight,
                limit,
            })
        }
        Order::Enter => {
            let [session, length, ticket] = read_three(
                fields,
                Key::Session,
                Key::Length,
                Key::Ticket,
            )?;
            Ok(Call::Enter {
                session,
                length,
                ticket,
            })
        }
        Order::Start => {
            nothing_at(2, fields.next())?;
            Ok(Call::Start)
        }
        Order::Finish => {
            nothing_at(2, fields.next())?;
            Ok(Call::Finish)
        }
    }
}

// The call that the line writes, or the first fault that it has.
pub fn read_line(line: &[u8]) -> Result<Call, LineFault>
    ensures { result ≡ read_line line.now }
{
    if line.len() > LONGEST {
        return Err(LineFault::TooLong);
    }
    let mut fields = Fields::of(line);
    Ok(read_call(&mut fields)?)
}
