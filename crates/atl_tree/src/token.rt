// The tokens of a text.
use atl_base::place::Place;
use atl_base::text::Text;
use sqlite_items::Items;
use std::alloc::AllocError;

/// What a token is.
#[derive(Clone, Copy, Debug, PartialEq, Eq)]
pub enum TokenSort {
    /// A name of letters, digits and `_`, or a keyword.
    Plain,
    /// A name in double quotes.
    Quoted,
    /// A text in single quotes.
    Words,
    Number,
    /// Any other token, as `->`.
    Mark,
}

/// A token: the slice of the text from the byte `begin` to before the byte `end`, and the place where it begins.
#[derive(Debug, Drop)]
pub struct Token {
    pub sort: TokenSort,
    pub text: Text,
    pub begin: usize,
    pub end: usize,
    pub place: Place,
}

/// The tokens of a text in their order, and the place after its last character.
#[derive(Debug, Drop)]
pub struct Tokens {
    pub list: Items<Token>,
    pub end: Place,
}

/// Why a text has no tokens.
#[derive(Clone, Copy, Debug, PartialEq, Eq)]
pub enum LexRefusal {
    /// A character that begins no token.
    BadByte(Place),
    /// A text or a quoted name that has no end on its line, or a text with a bad escape; the place is its first character's.
    OpenText(Place),
    /// A number above 9223372036854775807.
    WideNumber(Place),
    /// A number with a fraction, a division sign, or the type `Real`.
    RealNumber(Place),
    /// Memory was refused.
    Memory,
}

impl From<AllocError> for LexRefusal {
    ghost use Rattle.std.specs.Prelude.{◌≡◌};
    ghost use Rattle.atl_tree.specs.declared.token.LexRefusal.TheVariants.{Memory};

    ghost from_gives = { λ _ e. e ≡ Memory };

    fn from(_e: AllocError) -> LexRefusal {
        LexRefusal::Memory
    }
}
