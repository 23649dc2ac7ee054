// References to other files, children of classes that do not fit, and the limit of objects.
ghost use Rattle.std.specs.Prelude.{◌≡◌, IfOk, find};
ghost use Rattle.xmi_text.specs.Markup.{words_of};
ghost use Rattle.xmi_text.specs.Fragments.{names_file as names_file_of};
ghost use Rattle.xmi_models.specs.Faults.{foreign_in, all_foreign, is_misplaced as is_misplaced_in};
ghost use Rattle.xmi_models.specs.FoundFaults.{first_value};
ghost use Rattle.xmi_models.specs.Entries.{part_in};

use crate::attribute::{attribute_feature, is_foreign};
use crate::part::Part;
use crate::value::word_text;
use atl_base::text::Text;
use doc_text::tree::Attribute;
use std::alloc::{AllocError, Global};
use xmi_names::lookups::{class_said, contains, is_sub, refers};
use xmi_names::vocabulary::Vocabulary;
use xmi_text::references::names_file;
use xmi_text::words::words;

// The first word of a text that names another file.
fn foreign_word(alloc: Global, text: &Text) -> Result<Option<Text>, AllocError>
    ensures { IfOk result (λ w. w ≡ find names_file_of (words_of text.now)) }
{
    let bytes = text.bytes();
    let words = words(alloc, bytes)?;
    for i in 0..words.len() {
        if names_file(words[i]) {
            let word = word_text(alloc, bytes, &words, i)?;
            return Ok(Some(word));
        }
    }
    Ok(None)
}

// What in an attribute refers to another file.
fn foreign_text(
    alloc: Global,
    meta: &Vocabulary<'_>,
    part: Part,
    attribute: &Attribute,
) -> Result<Option<Text>, AllocError>
    ensures { IfOk result (λ t. t ≡ first_value (foreign_in meta.now (part_in part) attribute.now)) }
{
    if is_foreign(meta, part, attribute) {
        return Ok(Some(attribute.value.copy(alloc)?));
    }
    match attribute_feature(meta.metamodel(), part, attribute) {
        Some(feature) => {
            if refers(meta, feature) && !contains(meta, feature) {
                return foreign_word(alloc, &attribute.value);
            }
            Ok(None)
        }
        None => Ok(None),
    }
}

/// The first reference to another file in the attributes of an element.
pub(crate) fn first_foreign(
    alloc: Global,
    meta: &Vocabulary<'_>,
    part: Part,
    attributes: &[Attribute],
) -> Result<Option<Text>, AllocError>
    ensures { IfOk result (λ t. t ≡ first_value (all_foreign meta.now (part_in part) attributes.now)) }
{
    for i in 0..attributes.len() {
        if let Some(text) = foreign_text(alloc, meta, part, &attributes[i])? {
            return Ok(Some(text));
        }
    }
    Ok(None)
}

/// Whether an element is a child of a class that does not fit its feature.
pub(crate) fn is_misplaced(meta: &Vocabulary<'_>, part: Part) -> bool
    ensures { result ≡ is_misplaced_in meta.now (part_in part) }
{
    let Part::Content(_, feature, Some(class)) = part else {
        return false;
    };
    match class_said(meta.metamodel(), feature) {
        Some(said) => !is_sub(meta.metamodel(), class, said),
        None => false,
    }
}
