// The forms of names, prefixes and namespaces.
ghost use Rattle.std.specs.Prelude.{◌≡◌, Some};
ghost use Rattle.std.specs.List.{list_all};
ghost use Rattle.ecore_meta.specs.Names.{begins_name as begins_name_of, continues_name as continues_name_of, is_plain_name as is_plain_name_of};
ghost use Rattle.xmi_text.specs.Markup.{given as given_of};
ghost use Rattle.ecore_outline.specs.Outline.{name_of as name_of_entry};
ghost use Rattle.ecore_outline.specs.Forms.{is_name as is_name_of, is_bad_name as is_bad_name_of, has_point as has_point_of, is_prefix as is_prefix_of, is_bad_prefix as is_bad_prefix_of, is_kept_uri as is_kept_uri_of, or_name, uri_of as uri_of_entry, prefix_of as prefix_of_entry};
ghost use Rattle.ecore_outline.specs.Entries.{entry_of};

use crate::outline::Entry;
use crate::role::name_of;
use doc_text::XMI;
use xmi_text::markup::{XSI, given};

fn begins_name(b: u8) -> bool
    ensures { result ≡ begins_name_of b }
{
    matches!(b, b'A'..=b'Z') || matches!(b, b'a'..=b'z') || b == b'_' || 128 <= b
}

fn continues_name(b: u8) -> bool
    ensures { result ≡ continues_name_of b }
{
    begins_name(b) || matches!(b, b'0'..=b'9') || b == b'-' || b == b'.'
}

fn all_continue(text: &[u8]) -> bool
    ensures { result ≡ list_all continues_name_of text.now }
{
    text.iter().all(|b| continues_name(*b))
}

fn is_plain_name(text: &[u8]) -> bool
    ensures { result ≡ is_plain_name_of text.now }
{
    if text.is_empty() {
        return false;
    }
    begins_name(text[0]) && all_continue(&text[1..])
}

fn is_name(text: &str) -> bool
    ensures { result ≡ is_name_of text.now }
{
    is_plain_name(text.as_bytes()) && !(text == "xmlns")
}

/// Whether a name stands there and is none.
pub fn is_bad_name(text: &str) -> bool
    ensures { result ≡ is_bad_name_of text.now }
{
    if text.is_empty() {
        return false;
    }
    !is_name(text)
}

/// Whether a point stands in a name. No feature may have such a name.
pub fn has_point(text: &[u8]) -> bool
    ensures { result ≡ has_point_of text.now }
{
    text.iter().any(|b| *b == b'.')
}

fn is_prefix(text: &str) -> bool
    ensures { result ≡ is_prefix_of text.now }
{
    is_name(text) && !(text == "xml" || text == "xmi" || text == "xsi")
}

/// Whether a prefix stands there and is none.
pub fn is_bad_prefix(text: &str) -> bool
    ensures { result ≡ is_bad_prefix_of text.now }
{
    if text.is_empty() {
        return false;
    }
    !is_prefix(text)
}

/// Whether XMI or XSI keep a namespace for themselves.
pub fn is_kept_uri(text: &str) -> bool
    ensures { result ≡ is_kept_uri_of text.now }
{
    text == XMI || text == XSI
}

// The value of an attribute, or the name where it is not given or empty.
fn given_or_name<'a>(attribute: &str, entry: &Entry<'a>) -> &'a str
    ensures { result.now ≡ or_name (name_of_entry (entry_of entry.now)) (given_of attribute.now entry.now.element.now) }
{
    match given(attribute, entry.element) {
        Some(text) => or_else(text.as_str(), name_of(entry)),
        None => name_of(entry),
    }
}

fn or_else<'a>(text: &'a str, name: &'a str) -> &'a str
    ensures { result.now ≡ or_name name.now (Some text.now) }
{
    if text.is_empty() {
        return name;
    }
    text
}

/// The namespace of a package.
pub fn uri_of<'a>(entry: &Entry<'a>) -> &'a str
    ensures { result.now ≡ uri_of_entry (entry_of entry.now) }
{
    given_or_name("nsURI", entry)
}

/// The prefix of a package.
pub fn prefix_of<'a>(entry: &Entry<'a>) -> &'a str
    ensures { result.now ≡ prefix_of_entry (entry_of entry.now) }
{
    given_or_name("nsPrefix", entry)
}
