// What the reader says of a file that it does not take.
ghost use Rattle.std.specs.Prelude.{◌≡◌, Some};
ghost use Rattle.sitefile.specs.Faults.{cause_number, layer_number, layer_of, told_at, fault_line};

use std::fmt;

#[derive(Clone, Copy, Debug, PartialEq, Eq)]
pub enum Cause {
    // No byte where one is needed.
    MissingByte = 21,
    // A number that is not in its shortest form, or too great.
    MalformedNumber = 22,
    // The first byte is of no known kind.
    UnknownKind = 23,
    // A number outside its range.
    OutOfRange = 24,
    // A lane that breaks a rule of lanes.
    BrokenRule = 25,
    // A table of the customer's with too few entries.
    SmallTable = 26,
    // Something follows the last record.
    BytesLeft = 27,
}

impl Cause {
    pub fn number(self) -> u8
        ensures { result ≡ cause_number self }
    {
        self as u8
    }

    // The layer that finds it.
    fn layer(self) -> Layer
        ensures { result ≡ layer_of self }
    {
        match self {
            Cause::MissingByte | Cause::MalformedNumber => Layer::Number,
            Cause::OutOfRange | Cause::BrokenRule => Layer::Record,
            Cause::UnknownKind | Cause::SmallTable | Cause::BytesLeft => Layer::Site,
        }
    }

    // The fault of this cause at a byte.
    pub(crate) fn at(self, byte: usize) -> Fault
        ensures { result ≡ told_at self byte }
    {
        Fault {
            cause: self,
            byte,
            layer: self.layer(),
        }
    }
}

// The layer of the reader that found the fault.
#[derive(Clone, Copy, Debug, PartialEq, Eq)]
pub enum Layer {
    Number = 1,
    Record = 2,
    Site = 3,
}

impl Layer {
    pub fn number(self) -> u8
        ensures { result ≡ layer_number self }
    {
        self as u8
    }
}

#[derive(Clone, Copy, Debug, PartialEq, Eq)]
pub struct Fault {
    pub cause: Cause,
    // Where in the file, counted from 0.
    pub byte: usize,
    pub layer: Layer,
}

impl fmt::Display for Fault {
    ghost output = { λ fault. Some (fault_line fault) };

    fn fmt<W: fmt::Write>(&self, f: &mut fmt::Formatter<W>) -> fmt::Result {
        let cause = self.cause.number();
        let byte = self.byte;
        let layer = self.layer.number();
        write!(f, "fault {cause} at {byte} layer {layer}")
    }
}
