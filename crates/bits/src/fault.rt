// What is wrong with a record: the refusal, the layer that saw it, and the record and the field that it lies in.
ghost use Rattle.std.specs.Prelude.{◌≡◌};
ghost use Rattle.bits.specs.Faults.{bits_fault, field_fault, year_fault};

use crate::refusal::Refusal;

#[derive(Clone, Copy, Debug, PartialEq, Eq)]
pub enum Layer {
    Bits,
    Record,
    Year,
}

// The header or a bill is record 0. Fields count from 1, the kind and the spare bits too. A fault that lies in no record or
// field names 0, as the rules want it; an `Option` would say that 0 another way.
#[derive(Clone, Copy, Debug, PartialEq, Eq)]
pub struct Fault {
    pub refusal: Refusal,
    pub layer: Layer,
    pub record: u16,
    pub field: u8,
}

impl Fault {
    // The bytes end too soon, bytes follow the last record, or a buffer has no room for what is to be written.
    pub fn bits(refusal: Refusal) -> Fault
        ensures { result ≡ bits_fault refusal }
    {
        Fault {
            refusal,
            layer: Layer::Bits,
            record: 0,
            field: 0,
        }
    }

    // A field is out of its range.
    pub fn outside(record: u16, field: u8) -> Fault
        ensures { result ≡ field_fault «record» field }
    {
        Fault {
            refusal: Refusal::FieldOutOfRange,
            layer: Layer::Record,
            record,
            field,
        }
    }

    // The records of a year do not agree with each other.
    pub fn year(refusal: Refusal, record: u16) -> Fault
        ensures { result ≡ year_fault refusal «record» }
    {
        Fault {
            refusal,
            layer: Layer::Year,
            record,
            field: 0,
        }
    }
}

// What a fault is refused for, where its place is not told.
impl From<Fault> for Refusal {
    ghost from_gives = { λ f r. r ≡ f.refusal };

    fn from(fault: Fault) -> Refusal {
        fault.refusal
    }
}
