// Why a text has no expression or no module.
use atl_base::place::Place;
use atl_tree::token::LexRefusal;
use std::alloc::AllocError;

/// Why a text is refused. Each place is that of a token, or of the text's end.
#[derive(Clone, Copy, Debug, PartialEq, Eq)]
pub enum ParseRefusal {
    /// The text has no tokens.
    Lex(LexRefusal),
    /// The text is a unit of another sort.
    OtherUnit(Place),
    /// The first token that the grammar doesn't have there.
    Expected(Place),
    /// Where an expression begins in more than 200 others.
    TooDeep(Place),
    /// Memory was refused.
    Memory,
}

impl From<AllocError> for ParseRefusal {
    ghost use Rattle.std.specs.Prelude.{◌≡◌};
    ghost use Rattle.ocl_parse.specs.declared.refusal.ParseRefusal.TheVariants.{Memory};

    ghost from_gives = { λ _ e. e ≡ Memory };

    fn from(_e: AllocError) -> ParseRefusal {
        ParseRefusal::Memory
    }
}
