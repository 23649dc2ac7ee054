// Texts of their own: of attributes, and of elements by name.
ghost use Rattle.std.specs.Prelude.{◌≡◌, IfOk, Some};
ghost use Rattle.std.specs.Option.{option_copied};
ghost use Rattle.atl_base.specs.XmlText.{IsXmlText};
ghost use Rattle.xmi_text.specs.Markup.{given as given_of, or_empty};
ghost use Rattle.ecore_outline.specs.Outline.{name_of as name_of_entry};
ghost use Rattle.ecore_outline.specs.Enumerations.{literal_text as literal_text_of};
ghost use Rattle.ecore_outline.specs.Forms.{or_name, uri_of as uri_of_entry, prefix_of as prefix_of_entry};
ghost use Rattle.ecore_outline.specs.Entries.{entry_of};

use crate::outline::Entry;
use atl_base::text::{Text, TextRefusal};
use std::alloc::{AllocError, Global};
use xmi_text::markup::given;

// A copy, and an empty text where there is none.
fn copy_of(alloc: Global, text: Option<&Text>) -> Result<Text, AllocError>
    ensures { IfOk result (λ t. t ≡ or_empty (option_copied text.entry)) }
{
    match text {
        Some(text) => text.copy(alloc),
        None => Ok(Text::new(alloc)),
    }
}

/// A text of these bytes, which are one.
pub fn text_of(alloc: Global, bytes: &[u8]) -> Result<Text, AllocError>
    requires { IsXmlText bytes.now }
    ensures { IfOk result (λ t. t ≡ bytes.now) }
{
    match Text::from_bytes(alloc, bytes) {
        Ok(text) => Ok(text),
        Err(TextRefusal::Memory) => Err(AllocError),
        Err(TextRefusal::BadByte(_)) => unreachable!(),
    }
}

/// The name of an element, and an empty text where it has none.
pub fn name_text(alloc: Global, entry: &Entry<'_>) -> Result<Text, AllocError>
    ensures { IfOk result (λ t. t ≡ name_of_entry (entry_of entry.now)) }
{
    copy_of(alloc, given("name", entry.element))
}

// A text, or the name where it is empty.
fn text_or_name(alloc: Global, text: &Text, entry: &Entry<'_>) -> Result<Text, AllocError>
    ensures { IfOk result (λ t. t ≡ or_name (name_of_entry (entry_of entry.now)) (Some text.now)) }
{
    if text.bytes().is_empty() {
        return name_text(alloc, entry);
    }
    text.copy(alloc)
}

// The value of an attribute, or the name where it is not given or empty.
fn given_or_name(alloc: Global, attribute: &str, entry: &Entry<'_>) -> Result<Text, AllocError>
    ensures { IfOk result (λ t. t ≡ or_name (name_of_entry (entry_of entry.now)) (given_of attribute.now entry.now.element.now)) }
{
    match given(attribute, entry.element) {
        Some(text) => text_or_name(alloc, text, entry),
        None => name_text(alloc, entry),
    }
}

/// The namespace of a package.
pub fn uri_text(alloc: Global, entry: &Entry<'_>) -> Result<Text, AllocError>
    ensures { IfOk result (λ t. t ≡ uri_of_entry (entry_of entry.now)) }
{
    given_or_name(alloc, "nsURI", entry)
}

/// The prefix of a package.
pub fn prefix_text(alloc: Global, entry: &Entry<'_>) -> Result<Text, AllocError>
    ensures { IfOk result (λ t. t ≡ prefix_of_entry (entry_of entry.now)) }
{
    given_or_name(alloc, "nsPrefix", entry)
}

/// The text of a literal: its own, else its name.
pub fn literal_text(alloc: Global, entry: &Entry<'_>) -> Result<Text, AllocError>
    ensures { IfOk result (λ t. t ≡ literal_text_of (entry_of entry.now)) }
{
    match given("literal", entry.element) {
        Some(text) => text.copy(alloc),
        None => name_text(alloc, entry),
    }
}
