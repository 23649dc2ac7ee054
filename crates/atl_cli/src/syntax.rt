// Why a text is no module, and where.
ghost use Rattle.std.specs.Prelude.{◌≡◌, ◌≤◌, ◌<◌, ◌∷◌, [], length};
ghost use Rattle.std.specs.Option.{option_map};
ghost use Rattle.std.specs.Str.{chars};
ghost use Rattle.atl_base.specs.XmlText.{IsXmlText};
ghost use Rattle.atl_tree.specs.Tokens.{place as place_of, past as past_of, after};
ghost use Rattle.atl_cli.specs.Source.{behind};
ghost use Rattle.atl_cli.specs.Format.{without_mark as without_mark_of, place_behind as place_behind_of, lex_status as lex_status_of, syntax_status as syntax_status_of};

use crate::status::Status;
use atl_base::place::Place;
use atl_tree::token::LexRefusal;
use ocl_parse::refusal::ParseRefusal;

/// Why bytes are no module.
#[derive(Clone, Copy, Debug, PartialEq, Eq)]
pub enum SyntaxKind {
    /// A byte that is not of a text, or a character that begins no token.
    BadByte,
    /// A text or a quoted name without an end, or a text with a bad escape.
    OpenText,
    /// A number above 9223372036854775807.
    WideNumber,
    /// A number with a fraction, a division sign, or the type `Real`.
    RealNumber,
    /// The text is a unit of another sort.
    OtherUnit,
    /// A token that the grammar doesn't have there.
    Expected,
    /// An expression within more than 200 others.
    TooDeep,
}

// How a refusal of the tokens ends a call.
fn lex_status(refusal: LexRefusal) -> Status
    ensures { result ≡ lex_status_of refusal }
{
    match refusal {
        LexRefusal::BadByte(at) => Status::Syntax(SyntaxKind::BadByte, at),
        LexRefusal::OpenText(at) => Status::Syntax(SyntaxKind::OpenText, at),
        LexRefusal::WideNumber(at) => Status::Syntax(SyntaxKind::WideNumber, at),
        LexRefusal::RealNumber(at) => Status::Syntax(SyntaxKind::RealNumber, at),
        LexRefusal::Memory => Status::Memory,
    }
}

/// How a refusal of a module's text ends a call.
pub fn syntax_status(refusal: ParseRefusal) -> Status
    ensures { result ≡ syntax_status_of refusal }
{
    match refusal {
        ParseRefusal::Lex(refusal) => lex_status(refusal),
        ParseRefusal::OtherUnit(at) => Status::Syntax(SyntaxKind::OtherUnit, at),
        ParseRefusal::Expected(at) => Status::Syntax(SyntaxKind::Expected, at),
        ParseRefusal::TooDeep(at) => Status::Syntax(SyntaxKind::TooDeep, at),
        ParseRefusal::Memory => Status::Memory,
    }
}

// The bytes behind a byte order mark.
#[tactic(auto, using(crate::proofs::SourceFronts::behind_is))]
fn behind_mark(bytes: &[u8]) -> Option<&[u8]>
    ensures { option_map (λ rest. rest.now) result ≡ behind (239 ∷ 187 ∷ 191 ∷ []) bytes.now }
{
    bytes.strip_prefix([239, 187, 191].as_slice())
}

/// The bytes behind a byte order mark, if they begin with one.
pub fn without_mark(bytes: &[u8]) -> &[u8]
    ensures { result.now ≡ without_mark_of bytes.now }
{
    match behind_mark(bytes) {
        Some(rest) => rest,
        None => bytes,
    }
}

// The place after a character.
fn past(place: Place, c: char) -> Place
    requires line { place.line < 4294967295 }
    requires column { place.column < 4294967295 }
    ensures { result ≡ past_of place c }
{
    if c == '\n' {
        Place {
            line: place.line + 1,
            column: 1,
        }
    } else {
        Place {
            line: place.line,
            column: place.column + 1,
        }
    }
}

// The place after a text.
fn place_after(text: &str) -> Place
    requires { length text.now ≤ 67108864 }
    ensures { result ≡ after (place_of 1 1) (chars text.now) }
{
    let mut place = Place { line: 1, column: 1 };
    for c in text.chars() {
        place = past(place, c);
    }
    place
}

/// The place behind a front part that is a text.
pub fn place_behind(front: &[u8]) -> Place
    requires text { IsXmlText front.now }
    requires short { length front.now ≤ 67108864 }
    ensures { result ≡ place_behind_of front.now }
{
    match str::from_utf8(without_mark(front)) {
        Ok(text) => place_after(text),
        Err(_) => unreachable!(),
    }
}
