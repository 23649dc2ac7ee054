// Why a document is no model of a metamodel.
ghost use Rattle.std.specs.Prelude.{Some};
ghost use Rattle.xmi_models.specs.FoundFaults.{fault_of};
ghost use Rattle.xmi_links.specs.Answers.{IsTold};

use atl_base::place::Place;
use atl_base::text::Text;
use doc_text::refusal::DocRefusal;
use std::alloc::AllocError;
use xmi_models::fault::{FoundFault, Kind};

/// Why a document is no model of a metamodel: a value and the place of the element, the first in document order, all that is wrong
/// before references are followed first. Of two kinds at one element the earlier here is answered.
#[derive(Debug, Drop)]
pub enum ModelRefusal {
    /// A class that is none: the text of the type, or else the local name of the element.
    NoClass(Text, Place),
    /// An abstract class, told in the same way.
    Abstract(Text, Place),
    /// No feature of the class: its local name.
    NoFeature(Text, Place),
    /// Text beside elements, or in an object: the local name of the element.
    StrayText(Text, Place),
    /// What is no value of a feature: its text, empty for `xsi:nil` and for a second contained object.
    BadValue(Text, Place),
    /// A reference to another file: its text.
    Href(Text, Place),
    /// An object of a class that does not fit: the local name of the child, or the token.
    BadType(Text, Place),
    /// More than 1,000,000 objects.
    Full(Place),
    /// A path that names nothing: the token.
    BadPath(Text, Place),
    /// An id that no object bears: the token.
    NoId(Text, Place),
    /// An id that several objects bear: the token.
    TwiceId(Text, Place),
    /// A container reference that names what is not the container: the name of the feature.
    TwoContainers(Text, Place),
    /// A single-valued end that gets two objects: the name of the feature that gives the second.
    TwoEnds(Text, Place),
    /// The bytes are no document.
    Document(DocRefusal),
    /// Memory was refused.
    Memory,
}

impl From<AllocError> for ModelRefusal {
    ghost use Rattle.std.specs.Prelude.{◌≡◌};
    ghost use Rattle.xmi_links.specs.declared.refusal.ModelRefusal.TheVariants.{Memory};

    ghost from_gives = { λ _ e. e ≡ Memory };

    fn from(_e: AllocError) -> ModelRefusal {
        ModelRefusal::Memory
    }
}

/// The refusal that a fault is.
pub(crate) fn refused(found: FoundFault) -> ModelRefusal
    ensures { IsTold (Some (fault_of found.fault, found.place)) result }
{
    let FoundFault { fault, place } = found;
    let value = fault.value;
    match fault.kind {
        Kind::NoClass => ModelRefusal::NoClass(value, place),
        Kind::Abstract => ModelRefusal::Abstract(value, place),
        Kind::NoFeature => ModelRefusal::NoFeature(value, place),
        Kind::StrayText => ModelRefusal::StrayText(value, place),
        Kind::BadValue => ModelRefusal::BadValue(value, place),
        Kind::Href => ModelRefusal::Href(value, place),
        Kind::BadType => ModelRefusal::BadType(value, place),
        Kind::Full => ModelRefusal::Full(place),
        Kind::BadPath => ModelRefusal::BadPath(value, place),
        Kind::NoId => ModelRefusal::NoId(value, place),
        Kind::TwiceId => ModelRefusal::TwiceId(value, place),
        Kind::TwoContainers => ModelRefusal::TwoContainers(value, place),
        Kind::TwoEnds => ModelRefusal::TwoEnds(value, place),
    }
}
