// Characters that are written as references (XML 1.0, section 4.1 and 4.6).
ghost use Rattle.std.specs.Prelude.{◌≡◌, ◌++◌, [], ◌∷◌, ◌<◌, IsTrue, OnOk, MatchOption, encode_utf8};
ghost use Rattle.std.specs.List.{flat_map, list_all};
ghost use Rattle.atl_base.specs.XmlText.{is_ascii_text, is_xml_character};
ghost use Rattle.doc_text.specs.Escapes.{escaped};

use atl_base::text::Text;
use std::alloc::AllocError;

/// Where characters are written: in an attribute's value or in an element's text.
#[derive(Clone, Copy, Debug, PartialEq, Eq)]
pub enum Escapes {
    Value,
    Text,
}

// How a character is written that can't stand for itself.
fn reference_of(place: Escapes, c: char) -> Option<&'static str>
    ensures { MatchOption result (c < 128 → escaped place c ≡ c ∷ []) (λ r. (r.now ≡ escaped place c) × (c < 128) × IsTrue (list_all is_ascii_text r.now)) }
{
    match (place, c) {
        (_, '&') => Some("&amp;"),
        (_, '<') => Some("&lt;"),
        (_, '\r') => Some("&#xD;"),
        (Escapes::Value, '"') => Some("&quot;"),
        (Escapes::Value, '\t') => Some("&#x9;"),
        (Escapes::Value, '\n') => Some("&#xA;"),
        (Escapes::Text, '>') => Some("&gt;"),
        _ => None,
    }
}

fn push_escaped_char(out: &mut Text, place: Escapes, c: char) -> Result<(), AllocError>
    requires { IsTrue (is_xml_character c) }
    ensures { OnOk result (out.new ≡ out.old ++ flat_map (escaped place) (encode_utf8 c)) }
{
    match reference_of(place, c) {
        Some(reference) => out.push_ascii(reference),
        None => out.push_char(c),
    }
}

/// Adds a text at the end, escaped for its place.
pub fn push_escaped(out: &mut Text, place: Escapes, text: &Text) -> Result<(), AllocError>
    ensures { OnOk result (out.new ≡ out.old ++ flat_map (escaped place) text.now) }
{
    for c in text.as_str().chars() {
        push_escaped_char(out, place, c)?;
    }
    Ok(())
}
