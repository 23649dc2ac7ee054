// One token of canonical text, and the blank behind it.
ghost use Rattle.std.specs.Prelude.{◌≡◌, ◌++◌, ◌∷◌, [], ◌&&◌, ◌||◌, ◌<◌, not, is_some, decimal, IsTrue, IfOk, OnOk, MatchOption, encode_utf8};
ghost use Rattle.std.specs.List.{flat_map, list_all};
ghost use Rattle.atl_base.specs.XmlText.{is_ascii_text, is_xml_character};
ghost use Rattle.ocl_parse.specs.Signs.{word as sign_of};
ghost use Rattle.atl_tree.specs.Pieces.{is_letter as is_letter_of, is_digit as is_digit_of};
ghost use Rattle.module_print.specs.Printed.{is_plain as is_plain_of, name_text, escaped as escaped_of, words_text, sign_text as sign_text_of, keyword_text as keyword_text_of};

use crate::print::text::{keyword_text, sign_text};
use atl_base::place::Place;
use atl_base::text::Text;
use atl_tree::token::{Token, TokenSort};
use itoa::Buffer;
use module_grammar::keyword::Keyword;
use ocl_parse::sign::Sign;
use ocl_parse::symbol::{Symbol, read_symbol};
use std::alloc::{AllocError, Global};

/// Adds a keyword or a mark of expressions.
pub(crate) fn push_sign(out: &mut Text, sign: Sign) -> Result<(), AllocError>
    ensures { OnOk result (out.new ≡ out.old ++ (sign_text_of sign ++ 32 ∷ [])) }
{
    out.push_ascii(sign_text(sign))?;
    out.push_ascii(" ")
}

/// Adds a mark that ends a line, and the line's end.
pub(crate) fn push_last(out: &mut Text, sign: Sign) -> Result<(), AllocError>
    ensures { OnOk result (out.new ≡ out.old ++ (sign_text_of sign ++ 10 ∷ [])) }
{
    out.push_ascii(sign_text(sign))?;
    out.push_ascii("\n")
}

/// Adds a keyword of modules.
pub(crate) fn push_keyword(out: &mut Text, keyword: Keyword) -> Result<(), AllocError>
    ensures { OnOk result (out.new ≡ out.old ++ (keyword_text_of keyword ++ 32 ∷ [])) }
{
    out.push_ascii(keyword_text(keyword))?;
    out.push_ascii(" ")
}

/// Adds a number.
pub(crate) fn push_number(out: &mut Text, number: u64) -> Result<(), AllocError>
    ensures { OnOk result (out.new ≡ out.old ++ (decimal number ++ 32 ∷ [])) }
{
    let mut buffer = Buffer::new();
    out.push_ascii(buffer.format(number))?;
    out.push_ascii(" ")
}

#[tactic(auto, unfolding(atl_tree::specs::Pieces::is_letter))]
fn is_letter(byte: u8) -> bool
    ensures { result ≡ is_letter_of byte }
{
    matches!(byte, b'a'..=b'z' | b'A'..=b'Z' | b'_')
}

#[tactic(auto, unfolding(atl_tree::specs::Pieces::is_digit))]
fn is_digit(byte: u8) -> bool
    ensures { result ≡ is_digit_of byte }
{
    matches!(byte, b'0'..=b'9')
}

fn are_plain(bytes: &[u8]) -> bool
    ensures { result ≡ list_all (λ d. is_letter_of d || is_digit_of d) bytes.now }
{
    bytes.iter().all(|byte| is_letter(*byte) || is_digit(*byte))
}

fn is_plain(text: &[u8]) -> bool
    ensures { result ≡ is_plain_of text.now }
{
    match text.split_first() {
        None => false,
        Some((first, others)) => is_letter(*first) && are_plain(others),
    }
}

// Whether a plain word is read as something else than a name.
fn is_keyword(alloc: Global, text: &Text) -> Result<bool, AllocError>
    ensures { IfOk result (λ k. k ≡ is_some (sign_of text.now)) }
{
    let token = Token {
        sort: TokenSort::Plain,
        text: text.copy(alloc)?,
        begin: 0,
        end: 0,
        place: Place { line: 0, column: 0 },
    };
    let symbol = read_symbol(alloc, &token, false)?;
    Ok(matches!(symbol, Symbol::Fixed(_)))
}

/// Adds a name, in double quotes exactly where it is a keyword or not of the plain form.
pub(crate) fn push_name(alloc: Global, out: &mut Text, name: &Text) -> Result<(), AllocError>
    ensures { OnOk result (out.new ≡ out.old ++ (name_text name.now ++ 32 ∷ [])) }
{
    if is_plain(name.bytes()) && !is_keyword(alloc, name)? {
        out.push_text(name)?;
        return out.push_ascii(" ");
    }
    out.push_ascii("\"")?;
    out.push_text(name)?;
    out.push_ascii("\" ")
}

// The escape of a character that has one.
fn escape(c: char) -> Option<&'static str>
    ensures { MatchOption result (c < 128 → escaped_of c ≡ c ∷ []) (λ e. (e.now ≡ escaped_of c) × (c < 128) × IsTrue (list_all is_ascii_text e.now)) }
{
    match c {
        '\n' => Some("\\n"),
        '\t' => Some("\\t"),
        '\r' => Some("\\r"),
        '\\' => Some("\\\\"),
        '\'' => Some("\\'"),
        _ => None,
    }
}

fn push_escaped(out: &mut Text, c: char) -> Result<(), AllocError>
    requires { IsTrue (is_xml_character c) }
    ensures { OnOk result (out.new ≡ out.old ++ flat_map escaped_of (encode_utf8 c)) }
{
    match escape(c) {
        Some(escape) => out.push_ascii(escape),
        None => out.push_char(c),
    }
}

fn push_all_escaped(out: &mut Text, words: &Text) -> Result<(), AllocError>
    ensures { OnOk result (out.new ≡ out.old ++ flat_map escaped_of words.now) }
{
    for c in words.as_str().chars() {
        push_escaped(out, c)?;
    }
    Ok(())
}

/// Adds a text in single quotes, with its escapes.
pub(crate) fn push_words(out: &mut Text, words: &Text) -> Result<(), AllocError>
    ensures { OnOk result (out.new ≡ out.old ++ (words_text words.now ++ 32 ∷ [])) }
{
    out.push_ascii("'")?;
    push_all_escaped(out, words)?;
    out.push_ascii("' ")
}
