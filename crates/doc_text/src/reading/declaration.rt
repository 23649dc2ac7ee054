// The declaration of XML.
ghost use Rattle.std.specs.Prelude.{◌≡◌, ◌+◌, ◌<◌, ℕ, List, codes, drop, length, IfOk, IsTrue, true, if◌then◌else◌};
ghost use Rattle.doc_text.specs.Symbols.{IsSound, is_quote as is_quote_of, is_decimal as is_decimal_of};
ghost use Rattle.doc_text.specs.Conditions.{is_encoding as is_encoding_of};
ghost use Rattle.doc_text.specs.Form.{answer as answer_of, place_or as place_or_of};
ghost use Rattle.doc_text.specs.Nexts.{declaration_of, state_of, step_of};
ghost use Rattle.doc_text.specs.Spellings.{spelt_on};
ghost use Rattle.doc_text.specs.State.{State, Step, Goes, Stated, Numbered, Stops};
ghost use Rattle.doc_text.specs.Steps.{clause_begins as clause_begins_of, declaration_ends as declaration_ends_of, clause_goes as clause_goes_of, clause_value as clause_value_of, clause_quote as clause_quote_of, encoded as encoded_of, word_of as codes_of, spelling as spelling_of};
ghost use Rattle.doc_text.specs.Steps.{step as stepped};
ghost use Rattle.doc_text.specs.declared.reading.next.Declaration.TheVariants as D;

use crate::encoding::is_word;
use crate::reading::kinds::{is_code, is_decimal, is_good, is_quote, push};
use crate::reading::next::{Content, Declaration, Move, Next};
use crate::refusal::Fault;
use crate::state::{Clause, Stage};
use crate::symbol::{Kind, Symbol};
use atl_base::place::Place;
use atl_base::text::Text;
use std::alloc::{AllocError, Global};

/// What a character is for a word that has been read up to some place.
#[derive(Clone, Copy, Debug, PartialEq, Eq)]
pub enum Spelling {
    /// The word is over before it.
    Over,
    /// The word goes on with it.
    More,
    /// The word has another one there.
    Wrong,
}

fn spelled(word: &[u8], read: usize, kind: Kind) -> Spelling
    ensures spelling { (s : List ℕ → State) (over : Step) → spelling_of (drop read word.now) kind s over ≡ spelt_on result (s (drop (read + 1) word.now)) over }
    ensures more { result ≡ Spelling.More → read < length word.now }
{
    if read >= word.len() {
        return Spelling::Over;
    }
    if is_code(char::from(word[read]), kind) {
        return Spelling::More;
    }
    Spelling::Wrong
}

// The word that a clause begins with.
fn word_of(clause: Clause) -> &'static [u8]
    ensures { result.now ≡ codes_of clause }
{
    match clause {
        Clause::OfVersion => b"version",
        Clause::OfEncoding => b"encoding",
        Clause::OfStanding => b"standalone",
    }
}

fn version_begins(kind: Kind) -> Move
    ensures { clause_begins_of Stage.Untold kind ≡ step_of result }
{
    if is_code('v', kind) {
        return Move::Goes(Next::InDeclaration(Declaration::Wording(Clause::OfVersion, 1)));
    }
    Move::Stops
}

fn standing_begins(kind: Kind) -> Move
    ensures { clause_begins_of Stage.ToldEncoding kind ≡ step_of result }
{
    if is_code('s', kind) {
        return Move::Goes(Next::InDeclaration(Declaration::Wording(Clause::OfStanding, 1)));
    }
    Move::Stops
}

fn encoding_begins(kind: Kind) -> Move
    ensures { clause_begins_of Stage.ToldVersion kind ≡ step_of result }
{
    if is_code('e', kind) {
        return Move::Goes(Next::InDeclaration(Declaration::Wording(Clause::OfEncoding, 1)));
    }
    standing_begins(kind)
}

// The first letter of a clause, by what stands before it.
fn clause_begins(stage: Stage, kind: Kind) -> Move
    ensures { clause_begins_of stage kind ≡ step_of result }
{
    match stage {
        Stage::Untold => version_begins(kind),
        Stage::ToldVersion => encoding_begins(kind),
        Stage::ToldEncoding => standing_begins(kind),
        Stage::ToldStanding => Move::Stops,
    }
}

// `?`
fn declaration_ends(stage: Stage) -> Move
    ensures { declaration_ends_of stage ≡ step_of result }
{
    match stage {
        Stage::Untold => Move::Stops,
        _ => Move::Goes(Next::InDeclaration(Declaration::DeclEnd)),
    }
}

fn declaring(stage: Stage, symbol: Symbol) -> Move
    ensures { stepped true (declaration_of (D.Declaring stage)) symbol.kind symbol.at ≡ step_of result }
{
    match symbol.kind {
        Kind::Blank(_) => Move::Goes(Next::InDeclaration(Declaration::Declaring(stage))),
        Kind::Question => declaration_ends(stage),
        _ => clause_begins(stage, symbol.kind),
    }
}

// After a value.
fn stated(stage: Stage, symbol: Symbol) -> Move
    ensures { stepped true (declaration_of (D.Stated stage)) symbol.kind symbol.at ≡ step_of result }
{
    match symbol.kind {
        Kind::Blank(_) => Move::Goes(Next::InDeclaration(Declaration::Declaring(stage))),
        Kind::Question => declaration_ends(stage),
        _ => Move::Stops,
    }
}

// After a clause's word.
fn clause_goes(clause: Clause, kind: Kind) -> Move
    ensures { clause_goes_of clause kind ≡ step_of result }
{
    match kind {
        Kind::Blank(_) => Move::Goes(Next::InDeclaration(Declaration::Equating(clause))),
        Kind::Equals => Move::Goes(Next::InDeclaration(Declaration::Quoting(clause))),
        _ => Move::Stops,
    }
}

fn wording(clause: Clause, read: usize, symbol: Symbol) -> Move
    ensures { stepped true (declaration_of (D.Wording clause read)) symbol.kind symbol.at ≡ step_of result }
{
    match spelled(word_of(clause), read, symbol.kind) {
        Spelling::Over => clause_goes(clause, symbol.kind),
        Spelling::More => Move::Goes(Next::InDeclaration(Declaration::Wording(clause, read + 1))),
        Spelling::Wrong => Move::Stops,
    }
}

// Where a value begins.
fn value_begins(alloc: Global, clause: Clause, double: bool) -> Next
    ensures { state_of result ≡ clause_value_of clause double }
{
    match clause {
        Clause::OfVersion => Next::InDeclaration(Declaration::Numbering(double, 0)),
        Clause::OfEncoding => {
            Next::InDeclaration(Declaration::Encoding(double, None, Text::new(alloc)))
        }
        Clause::OfStanding => Next::InDeclaration(Declaration::Answer(double)),
    }
}

fn quoting(alloc: Global, clause: Clause, kind: Kind) -> Move
    ensures { clause_quote_of clause kind ≡ step_of result }
{
    match kind {
        Kind::Quote => Move::Goes(value_begins(alloc, clause, true)),
        Kind::Apostrophe => Move::Goes(value_begins(alloc, clause, false)),
        Kind::Blank(_) => Move::Goes(Next::InDeclaration(Declaration::Quoting(clause))),
        _ => Move::Stops,
    }
}

// A value of this clause ends with its quote.
fn closes(double: bool, stage: Stage, kind: Kind) -> Move
    ensures { (if is_quote_of double kind then Goes (Stated stage) else Stops) ≡ step_of result }
{
    if is_quote(double, kind) {
        return Move::Goes(Next::InDeclaration(Declaration::Stated(stage)));
    }
    Move::Stops
}

// In `1.`, or at the first digit after it.
fn numbering(double: bool, read: usize, symbol: Symbol) -> Move
    ensures { stepped true (declaration_of (D.Numbering double read)) symbol.kind symbol.at ≡ step_of result }
{
    match spelled(b"1.", read, symbol.kind) {
        Spelling::Over => first_digit(double, symbol.kind),
        Spelling::More => Move::Goes(Next::InDeclaration(Declaration::Numbering(double, read + 1))),
        Spelling::Wrong => Move::Stops,
    }
}

fn first_digit(double: bool, kind: Kind) -> Move
    ensures { (if is_decimal_of kind then Goes (Numbered double) else Stops) ≡ step_of result }
{
    if is_decimal(kind) {
        return Move::Goes(Next::InDeclaration(Declaration::Numbered(double)));
    }
    Move::Stops
}

fn numbered(double: bool, symbol: Symbol) -> Move
    ensures { stepped true (declaration_of (D.Numbered double)) symbol.kind symbol.at ≡ step_of result }
{
    if is_decimal(symbol.kind) {
        return Move::Goes(Next::InDeclaration(Declaration::Numbered(double)));
    }
    closes(double, Stage::ToldVersion, symbol.kind)
}

fn is_encoding(name: &Text) -> bool
    ensures { result ≡ is_encoding_of name.now }
{
    let name = name.bytes();
    is_word(name, b"utf-8")
        || is_word(name, b"ascii")
        || is_word(name, b"us-ascii")
        || is_word(name, b"iso-8859-1")
}

fn place_or(first: Option<Place>, at: Place) -> Place
    ensures { result ≡ place_or_of first at }
{
    match first {
        Some(place) => place,
        None => at,
    }
}

// An encoding is judged at its closing quote.
fn encoding(
    double: bool,
    first: Option<Place>,
    name: Text,
    symbol: Symbol,
) -> Result<Move, AllocError>
    requires { IsSound symbol.kind }
    ensures { IfOk result (λ m. encoded_of true double first name symbol.kind symbol.at ≡ step_of m) }
{
    let begins = place_or(first, symbol.at);
    if is_quote(double, symbol.kind) {
        if is_encoding(&name) {
            return Ok(Move::Goes(Next::InDeclaration(Declaration::Stated(Stage::ToldEncoding))));
        }
        return Ok(Move::Breaks(Fault::BadEncoding, begins));
    }
    if !is_good(symbol.kind) {
        return Ok(Move::Stops);
    }
    let longer = push(name, symbol.kind)?;
    Ok(Move::Goes(Next::InDeclaration(Declaration::Encoding(double, Some(begins), longer))))
}

// The first letter of `yes` or `no`.
fn answer(double: bool, symbol: Symbol) -> Move
    ensures { stepped true (declaration_of (D.Answer double)) symbol.kind symbol.at ≡ step_of result }
{
    if is_code('y', symbol.kind) {
        return Move::Goes(Next::InDeclaration(Declaration::Answering(double, true, 1)));
    }
    if is_code('n', symbol.kind) {
        return Move::Goes(Next::InDeclaration(Declaration::Answering(double, false, 1)));
    }
    Move::Stops
}

fn answer_word(agreed: bool) -> &'static [u8]
    ensures { result.now ≡ answer_of agreed }
{
    if agreed { b"yes" } else { b"no" }
}

fn answering(double: bool, agreed: bool, read: usize, symbol: Symbol) -> Move
    ensures { stepped true (declaration_of (D.Answering double agreed read)) symbol.kind symbol.at ≡ step_of result }
{
    match spelled(answer_word(agreed), read, symbol.kind) {
        Spelling::Over => closes(double, Stage::ToldStanding, symbol.kind),
        Spelling::More => {
            Move::Goes(Next::InDeclaration(Declaration::Answering(double, agreed, read + 1)))
        }
        Spelling::Wrong => Move::Stops,
    }
}

fn declaration_end(symbol: Symbol) -> Move
    ensures { stepped true (declaration_of D.DeclEnd) symbol.kind symbol.at ≡ step_of result }
{
    match symbol.kind {
        Kind::Greater => Move::Goes(Next::InContent(Content::InProlog)),
        _ => Move::Stops,
    }
}

/// One character in the declaration.
pub fn step(alloc: Global, declaration: Declaration, symbol: Symbol) -> Result<Move, AllocError>
    requires { IsSound symbol.kind }
    ensures { IfOk result (λ m. stepped true (declaration_of declaration) symbol.kind symbol.at ≡ step_of m) }
{
    match declaration {
        Declaration::Declaring(stage) => Ok(declaring(stage, symbol)),
        Declaration::Wording(clause, read) => Ok(wording(clause, read, symbol)),
        Declaration::Equating(clause) => Ok(clause_goes(clause, symbol.kind)),
        Declaration::Quoting(clause) => Ok(quoting(alloc, clause, symbol.kind)),
        Declaration::Numbering(double, read) => Ok(numbering(double, read, symbol)),
        Declaration::Numbered(double) => Ok(numbered(double, symbol)),
        Declaration::Encoding(double, first, name) => encoding(double, first, name, symbol),
        Declaration::Answer(double) => Ok(answer(double, symbol)),
        Declaration::Answering(double, agreed, read) => Ok(answering(double, agreed, read, symbol)),
        Declaration::Stated(stage) => Ok(stated(stage, symbol)),
        Declaration::DeclEnd => Ok(declaration_end(symbol)),
    }
}
