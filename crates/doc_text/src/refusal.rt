// Why bytes are no document.
use atl_base::place::Place;
use std::alloc::AllocError;

/// Why a document is refused.
#[derive(Clone, Copy, Debug, PartialEq, Eq)]
pub enum Fault {
    BadEncoding,
    BadByte,
    Expected,
    MismatchedEnd,
    TwiceAttribute,
    Entity,
    Prefix,
    TooDeep,
    Trailing,
    Unsupported,
}

/// Why bytes are no document, and where. Of two kinds at one place the earlier here is answered, `Expected` after all
/// others.
#[derive(Clone, Copy, Debug, PartialEq, Eq)]
pub enum DocRefusal {
    /// A mark of UTF-16, or a declared encoding other than UTF-8, ASCII, US-ASCII and ISO-8859-1.
    BadEncoding(Place),
    /// A byte or a character that the encoding or XML text does not have.
    BadByte(Place),
    /// The first character, or the end, with which no text of the form goes on.
    Expected(Place),
    /// The name of an end tag that is not its start tag's.
    MismatchedEnd(Place),
    /// An attribute, or a declaration of a prefix, that stands twice.
    TwiceAttribute(Place),
    /// A reference to an entity other than the five.
    Entity(Place),
    /// A name whose prefix is not declared.
    Prefix(Place),
    /// The 201st open element.
    TooDeep(Place),
    /// What follows the root and is no blank, comment or instruction.
    Trailing(Place),
    /// A document type declaration or CDATA.
    Unsupported(Place),
    /// Memory was refused.
    Memory,
}

impl From<AllocError> for DocRefusal {
    ghost use Rattle.std.specs.Prelude.{◌≡◌};
    ghost use Rattle.doc_text.specs.declared.refusal.DocRefusal.TheVariants.{Memory};

    ghost from_gives = { λ _ e. e ≡ Memory };

    fn from(_e: AllocError) -> DocRefusal {
        DocRefusal::Memory
    }
}
