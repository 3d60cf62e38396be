// Why a line of a trace is not understood: a number's fault stands in a field's, and that in a line's.
ghost use Rattle.std.specs.Prelude.{◌≡◌, unwrap_or};
ghost use Rattle.trace.specs.Faults.{fault_number, faulty_field, fault_field};
ghost use Rattle.trace.specs.declared.fault.FieldFault.TheVariants.{Number};
ghost use Rattle.trace.specs.declared.fault.LineFault.TheVariants.{Field};

use crate::number::NumberFault;

// A value that is no number, with the place of its field in the line, counted from 1.
#[derive(Clone, Copy, PartialEq, Eq, Debug)]
pub struct BadNumber {
    pub place: u32,
    pub fault: NumberFault,
}

#[derive(Clone, Copy, PartialEq, Eq, Debug)]
pub enum FieldFault {
    // The field at this place is absent, is not the one that belongs there, or is one too many.
    Malformed(u32),
    Number(BadNumber),
}

impl From<BadNumber> for FieldFault {
    ghost from_gives = { λ bad fault. fault ≡ Number bad };

    fn from(bad: BadNumber) -> FieldFault {
        FieldFault::Number(bad)
    }
}

#[derive(Clone, Copy, PartialEq, Eq, Debug)]
pub enum LineFault {
    // More than 80 octets.
    TooLong,
    Field(FieldFault),
}

impl From<FieldFault> for LineFault {
    ghost from_gives = { λ field line. line ≡ Field field };

    fn from(fault: FieldFault) -> LineFault {
        LineFault::Field(fault)
    }
}

impl LineFault {
    // The fault's number: 14, 15 or 16.
    pub fn number(&self) -> u32
        ensures { result ≡ fault_number self.now }
    {
        match self {
            LineFault::Field(FieldFault::Malformed(_)) => 14,
            LineFault::Field(FieldFault::Number(_)) => 15,
            LineFault::TooLong => 16,
        }
    }

    // The place of the faulty field, counted from 1; none where the line as a whole is at fault.
    pub fn field(&self) -> Option<u32>
        ensures place { result ≡ faulty_field self.now }
        ensures number { unwrap_or result 0 ≡ fault_field self.now }
    {
        match self {
            LineFault::Field(FieldFault::Malformed(place)) => Some(*place),
            LineFault::Field(FieldFault::Number(bad)) => Some(bad.place),
            LineFault::TooLong => None,
        }
    }
}
