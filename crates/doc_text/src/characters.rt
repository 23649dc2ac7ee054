// What characters may be.
ghost use Rattle.std.specs.Prelude.{◌≡◌};
ghost use Rattle.atl_base.specs.XmlText.{is_xml_character as is_xml_character_of};
ghost use Rattle.doc_text.specs.Symbols.{kind_of as kind_of_code};

use crate::symbol::Kind;

pub(crate) fn is_xml_character(c: char) -> bool
    ensures { result ≡ is_xml_character_of c }
{
    matches!(c, '\t' | '\n' | '\r' | '\u{20}'..='\u{D7FF}' | '\u{E000}'..='\u{FFFD}' | '\u{10000}'..='\u{10FFFF}')
}

/// What a character may be.
pub fn kind_of(c: char) -> Kind
    ensures { result ≡ kind_of_code c }
{
    if !is_xml_character(c) {
        return Kind::Bad;
    }
    match c {
        'A'..='Z' | 'a'..='z' | '_' | '\u{80}'..='\u{10FFFF}' => Kind::Letter(c),
        '0'..='9' | '.' => Kind::Joint(c),
        '\t' | '\n' | '\r' | ' ' => Kind::Blank(c),
        '<' => Kind::Less,
        '>' => Kind::Greater,
        '/' => Kind::Slash,
        '&' => Kind::And,
        ';' => Kind::Semicolon,
        '"' => Kind::Quote,
        '\'' => Kind::Apostrophe,
        '=' => Kind::Equals,
        '!' => Kind::Bang,
        '?' => Kind::Question,
        ']' => Kind::Bracket,
        '#' => Kind::Hash,
        ':' => Kind::Colon,
        '-' => Kind::Dash,
        _ => Kind::Other(c),
    }
}
