// Why a document is no metamodel.
use atl_base::place::Place;
use atl_base::text::Text;
use doc_text::refusal::DocRefusal;
use std::alloc::AllocError;

/// Why a document is no metamodel: a value and the place of the element, the first in document order. Of two kinds at one
/// element the earlier here is answered.
#[derive(Debug, Drop)]
pub enum MetaRefusal {
    /// An element that is not of the form: its local name.
    NotEcore(Text, Place),
    /// A package in a package: the element's local name.
    SubPackage(Text, Place),
    /// Type parameters or arguments: the local name of the first element or attribute.
    Generic(Text, Place),
    /// An element without a name: its local name.
    NoName(Text, Place),
    /// A name that stands twice.
    TwiceName(Text, Place),
    /// A reference to a class of another file: its text.
    OtherFile(Text, Place),
    /// A reference that names nothing of the needed sort: its text, empty where there is none.
    NoType(Text, Place),
    /// A class that inherits from itself: its name.
    SuperCycle(Text, Place),
    /// A reference whose opposite does not fit: its name.
    BadOpposite(Text, Place),
    /// A bound or a default that is none: its text.
    BadNumber(Text, Place),
    /// The bytes are no document.
    Document(DocRefusal),
    /// Memory was refused.
    Memory,
}

impl From<AllocError> for MetaRefusal {
    ghost use Rattle.std.specs.Prelude.{◌≡◌};
    ghost use Rattle.xmi_read.specs.declared.refusal.MetaRefusal.TheVariants.{Memory};

    ghost from_gives = { λ _ e. e ≡ Memory };

    fn from(_e: AllocError) -> MetaRefusal {
        MetaRefusal::Memory
    }
}
