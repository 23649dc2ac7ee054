// The faults that a run of a module can end with.
ghost use Rattle.std.specs.Prelude.{◌≡◌};
ghost use Rattle.atl_base.specs.Fault.{number_of, word_of};

use crate::place::Place;
use crate::text::Text;

/// The kind of a fault. The kept value, by kind, is named beside it.
#[derive(Clone, Copy, Debug, PartialEq, Eq)]
pub enum FaultKind {
    /// An operation on OclUndefined: its name.
    Undefined,
    /// A value of another kind than is needed: the operation's name, or `condition`.
    WrongKind,
    /// No such feature: its name.
    NoFeature,
    /// A result outside 64 bits: the operation.
    IntegerRange,
    /// A zero divisor: the operation.
    DivideByZero,
    /// A place outside a text or a collection: the number.
    BadPlace,
    /// A value that can't be written: the feature.
    BadBinding,
    /// Two rules match one tuple: both names.
    DoubleMatch,
    /// A resolution before matching has ended: the operation or the feature.
    ResolveEarly,
    /// A link without a target of that name: the name.
    ResolveName,
    /// A read of a target object: the feature.
    TargetAccess,
    /// A text or a collection above 2^24: the operation.
    TooLong,
    /// A cycle of containment in a target: the class of the first object on it.
    Cycle,
}

impl FaultKind {
    /// The kind's number, from 1 to 13.
    pub fn number(self) -> u8
        ensures { result ≡ number_of self }
    {
        match self {
            FaultKind::Undefined => 1,
            FaultKind::WrongKind => 2,
            FaultKind::NoFeature => 3,
            FaultKind::IntegerRange => 4,
            FaultKind::DivideByZero => 5,
            FaultKind::BadPlace => 6,
            FaultKind::BadBinding => 7,
            FaultKind::DoubleMatch => 8,
            FaultKind::ResolveEarly => 9,
            FaultKind::ResolveName => 10,
            FaultKind::TargetAccess => 11,
            FaultKind::TooLong => 12,
            FaultKind::Cycle => 13,
        }
    }

    /// The kind's word, as a printed line has it.
    pub fn word(self) -> &'static str
        ensures { result.now ≡ word_of self }
    {
        match self {
            FaultKind::Undefined => "Undefined",
            FaultKind::WrongKind => "WrongKind",
            FaultKind::NoFeature => "NoFeature",
            FaultKind::IntegerRange => "IntegerRange",
            FaultKind::DivideByZero => "DivideByZero",
            FaultKind::BadPlace => "BadPlace",
            FaultKind::BadBinding => "BadBinding",
            FaultKind::DoubleMatch => "DoubleMatch",
            FaultKind::ResolveEarly => "ResolveEarly",
            FaultKind::ResolveName => "ResolveName",
            FaultKind::TargetAccess => "TargetAccess",
            FaultKind::TooLong => "TooLong",
            FaultKind::Cycle => "Cycle",
        }
    }
}

/// A fault: its kind, the kept value, and the place in the module's text. The place is 0:0 where none is known.
#[derive(Debug, Drop)]
pub struct Fault {
    pub kind: FaultKind,
    pub value: Text,
    pub place: Place,
}
