// References: to entities by their names, to characters by their numbers.
ghost use Rattle.std.specs.Prelude.{◌≡◌, ◌≤◌, IfOk, IsTrue, MatchOption, true, false, encode_utf8};
ghost use Rattle.atl_base.specs.XmlText.{is_xml_character as is_xml_character_of};
ghost use Rattle.doc_text.specs.Symbols.{IsSound, is_hexadecimal as is_hexadecimal_of};
ghost use Rattle.doc_text.specs.Conditions.{is_entity};
ghost use Rattle.doc_text.specs.Markup.{ByName, ByNumber, character_of, one_more as one_more_of};
ghost use Rattle.doc_text.specs.Nexts.{citing_of, state_of, step_of};
ghost use Rattle.doc_text.specs.Steps.{cite as cite_of, cited as cited_of, known as known_of};
ghost use Rattle.doc_text.specs.declared.state.Cited.TheVariants as W;
ghost use Rattle.doc_text.specs.declared.reading.next.Citing.TheVariants as R;

use crate::characters::is_xml_character;
use crate::reading::kinds::{
    digit, is_decimal, is_ex, is_hexadecimal, is_name, is_semicolon, push, text_of,
};
use crate::reading::next::{Citing, Content, Move, Next, Tag, Valuing};
use crate::reading::open::grow;
use crate::refusal::Fault;
use crate::state::Cited;
use crate::symbol::Kind;
use atl_base::place::Place;
use atl_base::text::Text;
use std::alloc::{AllocError, Global};

// A reference in a value is read.
fn cited_in_value(valuing: Valuing, c: char) -> Result<Next, AllocError>
    requires { IsTrue (is_xml_character_of c) }
    ensures { IfOk result (λ n. cited_of (citing_of (R.InValue valuing)) (encode_utf8 c) ≡ state_of n) }
{
    let mut valuing = valuing;
    valuing.value.push_char(c)?;
    Ok(Next::InTag(Tag::Valuing(valuing)))
}

// A reference is read.
fn cited(alloc: Global, citing: Citing, c: char) -> Result<Next, AllocError>
    requires { IsTrue (is_xml_character_of c) }
    ensures { IfOk result (λ n. cited_of (citing_of citing) (encode_utf8 c) ≡ state_of n) }
{
    match citing {
        Citing::InText(innermost, outer) => {
            let innermost = grow(alloc, innermost, c)?;
            Ok(Next::InContent(Content::Inside(0, innermost, outer)))
        }
        Citing::InValue(valuing) => cited_in_value(valuing, c),
    }
}

// The character of one of the five entities.
fn entity(name: &Text) -> Option<char>
    ensures { MatchOption result (is_entity name.now ≡ false) (λ c. (is_entity name.now ≡ true) × (character_of (ByName name.now) ≡ c) × IsTrue (is_xml_character_of c)) }
{
    match name.as_str() {
        "amp" => Some('&'),
        "lt" => Some('<'),
        "gt" => Some('>'),
        "quot" => Some('"'),
        "apos" => Some('\''),
        _ => None,
    }
}

// An entity's reference is read.
fn known_entity(alloc: Global, citing: Citing, at: Place, name: &Text) -> Result<Move, AllocError>
    ensures { IfOk result (λ m. known_of true (citing_of citing) at (ByName name.now) ≡ step_of m) }
{
    match entity(name) {
        Some(c) => Ok(Move::Goes(cited(alloc, citing, c)?)),
        None => Ok(Move::Breaks(Fault::Entity, at)),
    }
}

// The character of XML text with this number.
fn numbered(number: u32) -> Option<char>
    ensures { MatchOption result (is_xml_character_of number ≡ false) (λ c. (is_xml_character_of number ≡ true) × (c ≡ number)) }
{
    match char::from_u32(number) {
        Some(c) => {
            if is_xml_character(c) {
                return Some(c);
            }
            None
        }
        None => None,
    }
}

// A number's reference is read.
fn known_number(alloc: Global, citing: Citing, at: Place, number: u32) -> Result<Move, AllocError>
    ensures { IfOk result (λ m. known_of true (citing_of citing) at (ByNumber number) ≡ step_of m) }
{
    match numbered(number) {
        Some(c) => Ok(Move::Goes(cited(alloc, citing, c)?)),
        None => Ok(Move::Breaks(Fault::BadByte, at)),
    }
}

// A digit more; all numbers above the last character are one.
fn one_more(base: u64, number: u32, kind: Kind) -> u32
    requires base { base ≤ 16 }
    requires digit { is_hexadecimal_of kind ≡ true }
    ensures { result ≡ one_more_of base number kind }
{
    let longer = u64::from(number) * base + digit(kind);
    if longer >= 1114112 {
        return 1114112;
    }
    longer as u32
}

// After `&`.
fn nameless(alloc: Global, citing: Citing, at: Place, kind: Kind) -> Result<Move, AllocError>
    requires { IsSound kind }
    ensures { IfOk result (λ m. cite_of true (citing_of citing) at W.Nameless kind ≡ step_of m) }
{
    match kind {
        Kind::Letter(_) => {
            let name = text_of(alloc, kind)?;
            Ok(Move::Goes(Next::InReference(citing, at, Cited::ByEntity(name))))
        }
        Kind::Hash => Ok(Move::Goes(Next::InReference(citing, at, Cited::Hashed))),
        _ => Ok(Move::Stops),
    }
}

// In an entity's name.
fn by_entity(
    alloc: Global,
    citing: Citing,
    at: Place,
    name: Text,
    kind: Kind,
) -> Result<Move, AllocError>
    requires { IsSound kind }
    ensures { IfOk result (λ m. cite_of true (citing_of citing) at (W.ByEntity name) kind ≡ step_of m) }
{
    if is_semicolon(kind) {
        return known_entity(alloc, citing, at, &name);
    }
    if !is_name(kind) {
        return Ok(Move::Stops);
    }
    let longer = push(name, kind)?;
    Ok(Move::Goes(Next::InReference(citing, at, Cited::ByEntity(longer))))
}

// After `&#`.
fn hashed(citing: Citing, at: Place, kind: Kind) -> Move
    ensures { cite_of true (citing_of citing) at W.Hashed kind ≡ step_of result }
{
    if is_decimal(kind) {
        return Move::Goes(Next::InReference(citing, at, Cited::Decimal(one_more(10, 0, kind))));
    }
    if is_ex(kind) {
        return Move::Goes(Next::InReference(citing, at, Cited::Hexed));
    }
    Move::Stops
}

// In decimal digits.
fn decimal(
    alloc: Global,
    citing: Citing,
    at: Place,
    number: u32,
    kind: Kind,
) -> Result<Move, AllocError>
    ensures { IfOk result (λ m. cite_of true (citing_of citing) at (W.Decimal number) kind ≡ step_of m) }
{
    if is_semicolon(kind) {
        return known_number(alloc, citing, at, number);
    }
    if !is_decimal(kind) {
        return Ok(Move::Stops);
    }
    Ok(Move::Goes(Next::InReference(citing, at, Cited::Decimal(one_more(10, number, kind)))))
}

// After `&#x`.
fn hexed(citing: Citing, at: Place, kind: Kind) -> Move
    ensures { cite_of true (citing_of citing) at W.Hexed kind ≡ step_of result }
{
    if is_hexadecimal(kind) {
        return Move::Goes(Next::InReference(citing, at, Cited::Hexadecimal(one_more(16, 0, kind))));
    }
    Move::Stops
}

// In hexadecimal digits.
fn hexadecimal(
    alloc: Global,
    citing: Citing,
    at: Place,
    number: u32,
    kind: Kind,
) -> Result<Move, AllocError>
    ensures { IfOk result (λ m. cite_of true (citing_of citing) at (W.Hexadecimal number) kind ≡ step_of m) }
{
    if is_semicolon(kind) {
        return known_number(alloc, citing, at, number);
    }
    if !is_hexadecimal(kind) {
        return Ok(Move::Stops);
    }
    Ok(Move::Goes(Next::InReference(citing, at, Cited::Hexadecimal(one_more(16, number, kind)))))
}

/// One character in a reference.
pub fn step(
    alloc: Global,
    citing: Citing,
    at: Place,
    cited: Cited,
    kind: Kind,
) -> Result<Move, AllocError>
    requires { IsSound kind }
    ensures { IfOk result (λ m. cite_of true (citing_of citing) at cited kind ≡ step_of m) }
{
    match cited {
        Cited::Nameless => nameless(alloc, citing, at, kind),
        Cited::ByEntity(name) => by_entity(alloc, citing, at, name, kind),
        Cited::Hashed => Ok(hashed(citing, at, kind)),
        Cited::Decimal(number) => decimal(alloc, citing, at, number, kind),
        Cited::Hexed => Ok(hexed(citing, at, kind)),
        Cited::Hexadecimal(number) => hexadecimal(alloc, citing, at, number, kind),
    }
}
