// What characters are for the grammar, and the bytes that they stand for.
ghost use Rattle.std.specs.Prelude.{◌≡◌, ◌++◌, ◌≤◌, IfOk, OnOk, IsTrue, true};
ghost use Rattle.doc_text.specs.Symbols.{code_of, utf8, IsSound, is_good as is_good_of, is_name as is_name_of, is_colon as is_colon_of, is_semicolon as is_semicolon_of, is_and as is_and_of, is_text as is_text_of, is_value as is_value_of, is_quote as is_quote_of};
ghost use Rattle.doc_text.specs.Symbols.{is_decimal as is_decimal_of, is_ex as is_ex_of, is_hexadecimal as is_hexadecimal_of, digit as digit_of, is_code as is_code_of};
ghost use Rattle.doc_text.specs.Markup.{value_bytes};

use crate::reading::raw::text_of as text_of_char;
use crate::symbol::Kind;
use atl_base::text::Text;
use std::alloc::{AllocError, Global};

/// The character that it stands for.
pub fn char_of(kind: Kind) -> char
    ensures { result ≡ code_of kind }
{
    match kind {
        Kind::Less => '<',
        Kind::Greater => '>',
        Kind::Slash => '/',
        Kind::And => '&',
        Kind::Semicolon => ';',
        Kind::Quote => '"',
        Kind::Apostrophe => '\'',
        Kind::Equals => '=',
        Kind::Bang => '!',
        Kind::Question => '?',
        Kind::Bracket => ']',
        Kind::Hash => '#',
        Kind::Colon => ':',
        Kind::Dash => '-',
        Kind::Blank(c) => c,
        Kind::Letter(c) => c,
        Kind::Joint(c) => c,
        Kind::Other(c) => c,
        Kind::Bad => '\0',
    }
}

pub fn is_good(kind: Kind) -> bool
    ensures { result ≡ is_good_of kind }
{
    !matches!(kind, Kind::Bad)
}

pub fn is_name(kind: Kind) -> bool
    ensures { result ≡ is_name_of kind }
{
    matches!(kind, Kind::Letter(_) | Kind::Joint(_) | Kind::Dash)
}

pub fn is_colon(kind: Kind) -> bool
    ensures { result ≡ is_colon_of kind }
{
    matches!(kind, Kind::Colon)
}

pub fn is_semicolon(kind: Kind) -> bool
    ensures { result ≡ is_semicolon_of kind }
{
    matches!(kind, Kind::Semicolon)
}

pub fn is_and(kind: Kind) -> bool
    ensures { result ≡ is_and_of kind }
{
    matches!(kind, Kind::And)
}

/// It may stand in text as it is.
pub fn is_text(kind: Kind) -> bool
    ensures { result ≡ is_text_of kind }
{
    !matches!(kind, Kind::Less | Kind::And | Kind::Bad)
}

/// It is the quote that was opened.
pub fn is_quote(double: bool, kind: Kind) -> bool
    ensures { result ≡ is_quote_of double kind }
{
    match kind {
        Kind::Quote => double,
        Kind::Apostrophe => !double,
        _ => false,
    }
}

/// It may stand in a value as it is.
pub fn is_value(double: bool, kind: Kind) -> bool
    ensures { result ≡ is_value_of double kind }
{
    match kind {
        Kind::Quote => !double,
        Kind::Apostrophe => double,
        _ => is_text(kind),
    }
}

pub fn is_decimal(kind: Kind) -> bool
    ensures { result ≡ is_decimal_of kind }
{
    matches!(kind, Kind::Joint('0'..='9'))
}

/// It is the `x` before hexadecimal digits.
pub fn is_ex(kind: Kind) -> bool
    ensures { result ≡ is_ex_of kind }
{
    matches!(kind, Kind::Letter('x'))
}

pub fn is_hexadecimal(kind: Kind) -> bool
    ensures { result ≡ is_hexadecimal_of kind }
{
    matches!(
        kind,
        Kind::Joint('0'..='9') | Kind::Letter('A'..='F' | 'a'..='f')
    )
}

/// It is this letter, digit or point.
pub fn is_code(code: char, kind: Kind) -> bool
    ensures { result ≡ is_code_of code kind }
{
    match kind {
        Kind::Letter(c) => c == code,
        Kind::Joint(c) => c == code,
        _ => false,
    }
}

/// What a hexadecimal digit counts.
pub fn digit(kind: Kind) -> u64
    requires { is_hexadecimal_of kind ≡ true }
    ensures digit { result ≡ digit_of kind }
    ensures small { result ≤ 15 }
{
    let code = u64::from(char_of(kind) as u32);
    if code <= 57 {
        return code - 48;
    }
    if code <= 70 {
        return code - 55;
    }
    code - 87
}

/// Adds a character at the end.
pub fn push(text: Text, kind: Kind) -> Result<Text, AllocError>
    requires sound { IsSound kind }
    requires good { is_good_of kind ≡ true }
    ensures { IfOk result (λ t. t ≡ text ++ utf8 kind) }
{
    let mut text = text;
    text.push_char(char_of(kind))?;
    Ok(text)
}

/// The text of one character.
pub fn text_of(alloc: Global, kind: Kind) -> Result<Text, AllocError>
    requires sound { IsSound kind }
    requires good { is_good_of kind ≡ true }
    ensures { IfOk result (λ t. t ≡ utf8 kind) }
{
    text_of_char(alloc, char_of(kind))
}

/// Adds what a character means in a value: a blank is a space.
pub fn push_value(text: Text, kind: Kind) -> Result<Text, AllocError>
    requires sound { IsSound kind }
    requires good { is_good_of kind ≡ true }
    ensures { IfOk result (λ t. t ≡ text ++ value_bytes kind) }
{
    let mut text = text;
    match kind {
        Kind::Blank(_) => text.push_ascii(" ")?,
        _ => text.push_char(char_of(kind))?,
    }
    Ok(text)
}
