//! Why a table file is refused: a field's fault, the record's fault that it becomes, and the load's fault, with its layer.
//! The number, layer and text of each cause are in specs/Causes.antt.

#![tactic(auto)]

ghost use Rattle.std.specs.Prelude.{◌≡◌, Some};
ghost use Rattle.faults.specs.Causes.{number, layer as layer_of, cause as cause_of, layer_text, refusal_text};

use std::fmt;

mod limits;

pub use limits::limited;

/// What is wrong, in the order of the checks, by the number that is told of it.
#[derive(Clone, Copy, PartialEq, Eq, Debug)]
pub enum Cause {
    Length = 1,
    Opening = 2,
    Header = 3,
    Sections = 4,
    StateField = 5,
    ActionField = 6,
    OutcomeField = 7,
    Counts = 8,
    Weights = 9,
    Consistency = 10,
}

/// How deep a check looks: at the file as a whole, at its records one by one, or at the rules of the model.
#[derive(Clone, Copy, PartialEq, Eq, Debug)]
pub enum Layer {
    File,
    Record,
    Rule,
}

/// Where a field stands.
#[derive(Clone, Copy, PartialEq, Eq, Debug)]
pub enum Place {
    InHeader,
    InState,
    InAction,
    InOutcome,
}

// Two types where a generic one would do: contracts read by the names `place` and `cause`. The record and the byte are no type
// of their own: they are told apart wherever a fault is told.

/// A field is outside its limits.
#[derive(Clone, Copy, PartialEq, Eq, Debug)]
pub struct FieldFault {
    pub place: Place,
    pub record: u32,
    pub byte: u32,
}

/// A check fails at a record, or at the file as a whole (record 0), and at a byte.
#[derive(Clone, Copy, PartialEq, Eq, Debug)]
pub struct RecordFault {
    pub cause: Cause,
    pub record: u32,
    pub byte: u32,
}

/// A load is refused: the first fault, whole, and its layer.
#[derive(Clone, Copy, PartialEq, Eq, Debug)]
pub struct LoadFault {
    pub layer: Layer,
    pub fault: RecordFault,
}

impl Cause {
    pub fn fault(self, record: u32, byte: u32) -> RecordFault
        ensures { result ≡ record { cause = self; «record» = «record»; byte = byte } }
    {
        RecordFault {
            cause: self,
            record,
            byte,
        }
    }

    /// The number that is told of a cause.
    pub fn code(self) -> u8
        ensures { result ≡ number self }
    {
        self as u8
    }

    pub fn layer(self) -> Layer
        ensures { result ≡ layer_of self }
    {
        match self {
            Cause::Length | Cause::Opening | Cause::Header | Cause::Sections => Layer::File,
            Cause::StateField | Cause::ActionField | Cause::OutcomeField | Cause::Counts =>
                Layer::Record,
            Cause::Weights | Cause::Consistency => Layer::Rule,
        }
    }
}

impl Place {
    pub fn fault(self, record: u32, byte: u32) -> FieldFault
        ensures { result ≡ record { place = self; «record» = «record»; byte = byte } }
    {
        FieldFault {
            place: self,
            record,
            byte,
        }
    }

    /// The cause of a fault in a field of this place.
    pub fn cause(self) -> Cause
        ensures { result ≡ cause_of self }
    {
        match self {
            Place::InHeader => Cause::Header,
            Place::InState => Cause::StateField,
            Place::InAction => Cause::ActionField,
            Place::InOutcome => Cause::OutcomeField,
        }
    }
}

impl From<FieldFault> for RecordFault {
    ghost from_gives = { λ e r. r ≡ record { cause = cause_of e.place; «record» = e.«record»; byte = e.byte } };

    fn from(e: FieldFault) -> RecordFault {
        RecordFault {
            cause: e.place.cause(),
            record: e.record,
            byte: e.byte,
        }
    }
}

impl From<RecordFault> for LoadFault {
    ghost from_gives = { λ e r. r ≡ record { layer = layer_of e.cause; fault = e } };

    fn from(e: RecordFault) -> LoadFault {
        LoadFault {
            layer: e.cause.layer(),
            fault: e,
        }
    }
}

impl fmt::Display for Layer {
    ghost output = { λ l. Some (layer_text l) };

    fn fmt<W: fmt::Write>(&self, f: &mut fmt::Formatter<W>) -> fmt::Result {
        match self {
            Layer::File => f.write_str("file"),
            Layer::Record => f.write_str("record"),
            Layer::Rule => f.write_str("rule"),
        }
    }
}

/// `refused`, the cause's number, the layer, the record and the byte.
impl fmt::Display for LoadFault {
    ghost output = { λ e. Some (refusal_text e) };

    fn fmt<W: fmt::Write>(&self, f: &mut fmt::Formatter<W>) -> fmt::Result {
        let number = self.fault.cause.code();
        let layer = self.layer;
        let record = self.fault.record;
        let byte = self.fault.byte;
        write!(f, "refused {number} {layer} {record} {byte}")
    }
}
