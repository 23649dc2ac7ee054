// Texts of elements and attributes as values of features.
ghost use Rattle.std.specs.Prelude.{◌≡◌, ◌<◌, IfOk, slice_index_or, map, length, [], Some, None, if◌then◌else◌};
ghost use Rattle.model_store.specs.Contents.{refers as refers_in, is_many as is_many_in};
ghost use Rattle.atl_base.specs.XmlText.{IsXmlText};
ghost use Rattle.xmi_models.specs.Faults.{is_text_of as is_text_in, is_value_of as is_value_in, text_in, second, bad_text as bad_text_in, attribute_value as attribute_value_in};
ghost use Rattle.xmi_models.specs.Entries.{tag_of, part_in};
ghost use Rattle.xmi_text.specs.Markup.{words_of};

use crate::attribute::{attribute_feature, is_nil};
use crate::part::Part;
use atl_base::numbers::FeatId;
use atl_base::text::{Text, TextRefusal};
use doc_text::tree::{Attribute, Child, Element};
use ecore_meta::parts::FeatKind;
use std::alloc::{AllocError, Global};
use xmi_names::lookups::{contains, is_many, refers};
use xmi_names::vocabulary::Vocabulary;
use xmi_text::numbers::is_int_text;
use xmi_text::words::words;

/// The text that an element has.
pub fn element_text(alloc: Global, element: &Element) -> Result<Text, AllocError>
    ensures { IfOk result (λ t. t ≡ text_in (tag_of element.now)) }
{
    let mut text = Text::new(alloc);
    let children = element.children.as_slice();
    for i in 0..children.len() {
        if let Child::Words(more) = &children[i] {
            text.push_text(more)?;
        }
    }
    Ok(text)
}

// Whether a text is one of an attribute's type.
fn is_text_of(meta: &Vocabulary<'_>, kind: FeatKind, text: &[u8]) -> bool
    ensures { result ≡ is_text_in meta.now kind text.now }
{
    match kind {
        FeatKind::Int => is_int_text(text),
        FeatKind::Truth => text == "true".as_bytes() || text == "false".as_bytes(),
        FeatKind::Enum(enumeration) => meta.has_literal(enumeration as usize, text),
        _ => true,
    }
}

/// Whether a text is a value of an attribute.
pub(crate) fn is_value_of(meta: &Vocabulary<'_>, feature: FeatId, text: &[u8]) -> bool
    ensures { result ≡ is_value_in meta.now feature text.now }
{
    match meta.metamodel().all_features().get(feature.0 as usize) {
        Some(feature) => is_text_of(meta, feature.kind, text),
        None => false,
    }
}

/// A text of these bytes, which are one.
pub fn text_of(alloc: Global, bytes: &[u8]) -> Result<Text, AllocError>
    requires { IsXmlText bytes.now }
    ensures { IfOk result (λ t. t ≡ bytes.now) }
{
    match Text::from_bytes(alloc, bytes) {
        Ok(text) => Ok(text),
        Err(TextRefusal::Memory) => Err(AllocError),
        Err(TextRefusal::BadByte(_)) => unreachable!(),
    }
}

/// One of the words of a text.
pub(crate) fn word_text(
    alloc: Global,
    text: &[u8],
    words: &[&[u8]],
    at: usize,
) -> Result<Text, AllocError>
    requires text { IsXmlText text.now }
    requires words { map (λ w. w.now) words.now ≡ words_of text.now }
    requires at { at < length words.now }
    ensures { IfOk result (λ t. t ≡ slice_index_or (words_of text.now) at []) }
{
    text_of(alloc, words[at])
}

// The second word of a text.
fn second_word(alloc: Global, text: &Text) -> Result<Option<Text>, AllocError>
    ensures { IfOk result (λ w. w ≡ second (words_of text.now)) }
{
    let bytes = text.bytes();
    let words = words(alloc, bytes)?;
    if words.len() < 2 {
        return Ok(None);
    }
    let word = word_text(alloc, bytes, &words, 1)?;
    Ok(Some(word))
}

// What is no value of an attribute, or of a single-valued reference.
fn bad_plain(
    alloc: Global,
    meta: &Vocabulary<'_>,
    feature: FeatId,
    text: &Text,
) -> Result<Option<Text>, AllocError>
    ensures { IfOk result (λ t. t ≡ (if refers_in meta.now feature
        then (if is_many_in meta.now feature then None else second (words_of text.now))
        else (if is_value_in meta.now feature text.now then None else Some text.now))) }
{
    if refers(meta, feature) {
        if is_many(meta, feature) {
            return Ok(None);
        }
        return second_word(alloc, text);
    }
    if is_value_of(meta, feature, text.bytes()) {
        return Ok(None);
    }
    Ok(Some(text.copy(alloc)?))
}

// What is no value of a feature, where an attribute gives it.
fn bad_text(
    alloc: Global,
    meta: &Vocabulary<'_>,
    feature: FeatId,
    text: &Text,
) -> Result<Option<Text>, AllocError>
    ensures { IfOk result (λ t. t ≡ bad_text_in meta.now feature text.now) }
{
    if contains(meta, feature) {
        return Ok(Some(text.copy(alloc)?));
    }
    bad_plain(alloc, meta, feature, text)
}

/// What is no value in an attribute: the text that shows it, empty where it says that there is none.
pub(crate) fn attribute_value(
    alloc: Global,
    meta: &Vocabulary<'_>,
    part: Part,
    attribute: &Attribute,
) -> Result<Option<Text>, AllocError>
    ensures { IfOk result (λ t. t ≡ attribute_value_in meta.now (part_in part) attribute.now) }
{
    if is_nil(attribute) {
        return Ok(Some(Text::new(alloc)));
    }
    match attribute_feature(meta.metamodel(), part, attribute) {
        Some(feature) => bad_text(alloc, meta, feature, &attribute.value),
        None => Ok(None),
    }
}
