// What a token is to the grammar.
ghost use Rattle.std.specs.Prelude.{◌≡◌, ◌++◌, ℕ, List, pos, IfOk, OnOk, IsTrue, encode_utf8};
ghost use Rattle.std.specs.List.{flat_map};
ghost use Rattle.atl_base.specs.XmlText.{is_xml_character};
ghost use Rattle.ocl_parse.specs.Symbols.{value_of, unquoted as unquoted_of, resolved as resolved_of, resolved_char, resolved_from, plain as plain_of, symbol_of};

use crate::sign::{Sign, mark, word};
use atl_base::text::Text;
use atl_tree::token::{Token, TokenSort};
use std::alloc::{AllocError, Global};

/// What a token is to the grammar.
#[derive(Drop)]
pub enum Symbol {
    Number(i64),
    /// A text, with its escapes resolved.
    Words(Text),
    /// A name, without its double quotes.
    Name(Text),
    /// A keyword or a mark.
    Fixed(Sign),
}

/// The greatest number.
const GREATEST: u64 = 9223372036854775807;

// The value of the digits that a text begins with, or the greatest number where that is greater.
fn value(text: &[u8]) -> u64
    ensures { result ≡ value_of text.now }
{
    let mut value: u64 = 0;
    for byte in text {
        if !byte.is_ascii_digit() {
            return value;
        }
        let digit = u64::from(*byte - b'0');
        if value > (GREATEST - digit) / 10 {
            return GREATEST;
        }
        value = value * 10 + digit;
    }
    value
}

fn number(text: &[u8]) -> i64
    ensures { result ≡ pos (value_of text.now) }
{
    value(text) as i64
}

fn push_unquoted(name: &mut Text, c: char) -> Result<(), AllocError>
    requires { IsTrue (is_xml_character c) }
    ensures { OnOk result (name.new ≡ name.old ++ flat_map unquoted_of (encode_utf8 c)) }
{
    if c == '"' {
        return Ok(());
    }
    name.push_char(c)
}

/// The text without its double quotes.
pub(crate) fn unquoted(alloc: Global, text: &Text) -> Result<Text, AllocError>
    ensures { IfOk result (λ t. t ≡ flat_map unquoted_of text.now) }
{
    let mut name = Text::new(alloc);
    for c in text.as_str().chars() {
        push_unquoted(&mut name, c)?;
    }
    Ok(name)
}

// What the character behind a backslash stands for.
fn escaped(c: char) -> char
    ensures { result ≡ resolved_char c }
{
    match c {
        'n' => '\n',
        't' => '\t',
        'r' => '\r',
        other => other,
    }
}

// One character of a text, and whether the next one is behind a backslash.
fn push_resolved(words: &mut Text, behind: bool, c: char) -> Result<bool, AllocError>
    requires { IsTrue (is_xml_character c) }
    ensures { IfOk result (λ next. (rest : List ℕ) → words.old ++ resolved_from behind (encode_utf8 c ++ rest) ≡ words.new ++ resolved_from next rest) }
{
    if behind {
        words.push_char(escaped(c))?;
        return Ok(false);
    }
    if c == '\\' {
        return Ok(true);
    }
    if c != '\'' {
        words.push_char(c)?;
    }
    Ok(false)
}

// The text without its single quotes, and with its escapes resolved.
fn resolved(alloc: Global, text: &Text) -> Result<Text, AllocError>
    ensures { IfOk result (λ t. t ≡ resolved_of text.now) }
{
    let mut words = Text::new(alloc);
    let mut behind = false;
    for c in text.as_str().chars() {
        behind = push_resolved(&mut words, behind, c)?;
    }
    Ok(words)
}

fn plain(alloc: Global, text: &Text, named: bool) -> Result<Symbol, AllocError>
    ensures { IfOk result (λ s. s ≡ plain_of text.now named) }
{
    if named {
        return Ok(Symbol::Name(text.copy(alloc)?));
    }
    match word(text.as_str()) {
        Some(sign) => Ok(Symbol::Fixed(sign)),
        None => Ok(Symbol::Name(text.copy(alloc)?)),
    }
}

/// What the token is to the grammar; `named` says that a plain word there is read as a name.
pub fn read_symbol(alloc: Global, token: &Token, named: bool) -> Result<Symbol, AllocError>
    ensures { IfOk result (λ s. s ≡ symbol_of token.now.sort token.now.text named) }
{
    match token.sort {
        TokenSort::Plain => plain(alloc, &token.text, named),
        TokenSort::Quoted => Ok(Symbol::Name(unquoted(alloc, &token.text)?)),
        TokenSort::Words => Ok(Symbol::Words(resolved(alloc, &token.text)?)),
        TokenSort::Number => Ok(Symbol::Number(number(token.text.bytes()))),
        TokenSort::Mark => Ok(Symbol::Fixed(mark(token.text.as_str()))),
    }
}
