// Values that are none, and second values of what takes one.
ghost use Rattle.std.specs.Prelude.{◌≡◌, IfOk, List, filter_map};
ghost use Rattle.xmi_models.specs.Outline.{Entry as SomeEntry};
ghost use Rattle.xmi_models.specs.Faults.{BadValue, of_kind, attribute_value as attribute_value_in, bad_value as bad_value_in, bad_values, is_second as is_second_in, second_object};
ghost use Rattle.xmi_models.specs.FoundFaults.{fault_in, first_value};
ghost use Rattle.xmi_models.specs.Entries.{part_in, entry_of, object_no};
ghost use Rattle.xmi_models.specs.SeenFeatures.{AreSeen};

use crate::fault::{Fault, Kind};
use crate::part::{Entry, Part};
use crate::seen::{Seen, has};
use crate::value::{attribute_value, element_text, is_value_of};
use atl_base::numbers::FeatId;
use atl_base::text::Text;
use doc_text::tree::Attribute;
use std::alloc::{AllocError, Global};
use xmi_names::lookups::is_many;
use xmi_names::vocabulary::Vocabulary;

// Whether a feature takes one value, and has it.
fn is_second(meta: &Vocabulary<'_>, seen: &Seen, object: usize, feature: FeatId) -> bool
    ensures { (before : List SomeEntry) → AreSeen meta.now before seen.now → result ≡ is_second_in meta.now before (object_no object) feature }
{
    !is_many(meta, feature) && has(seen, object, feature)
}

// A second object in a reference that takes one.
fn second_child(alloc: Global, meta: &Vocabulary<'_>, seen: &Seen, part: Part) -> Option<Text>
    ensures { (before : List SomeEntry) → AreSeen meta.now before seen.now → result ≡ first_value (second_object meta.now before (part_in part)) }
{
    if let Part::Content(object, feature, _) = part {
        if is_second(meta, seen, object, feature) {
            return Some(Text::new(alloc));
        }
    }
    None
}

// The first value in attributes that is none.
fn bad_attribute(
    alloc: Global,
    meta: &Vocabulary<'_>,
    part: Part,
    attributes: &[Attribute],
) -> Result<Option<Text>, AllocError>
    ensures { IfOk result (λ t. t ≡ first_value (filter_map (attribute_value_in meta.now (part_in part)) attributes.now)) }
{
    for i in 0..attributes.len() {
        if let Some(text) = attribute_value(alloc, meta, part, &attributes[i])? {
            return Ok(Some(text));
        }
    }
    Ok(None)
}

// The text of an element that is no value of its attribute, or a second one.
fn bad_text(
    alloc: Global,
    meta: &Vocabulary<'_>,
    seen: &Seen,
    entry: &Entry<'_>,
) -> Result<Option<Text>, AllocError>
    ensures { (before : List SomeEntry) → AreSeen meta.now before seen.now → IfOk result (λ t. t ≡ first_value (bad_value_in meta.now before (entry_of entry.now))) }
{
    let Part::Value(object, feature) = entry.part else {
        return Ok(None);
    };
    let text = element_text(alloc, entry.element)?;
    if is_second(meta, seen, object, feature) || !is_value_of(meta, feature, text.bytes()) {
        return Ok(Some(text));
    }
    Ok(None)
}

// The first value at an element that is none.
fn first_bad(
    alloc: Global,
    meta: &Vocabulary<'_>,
    seen: &Seen,
    entry: &Entry<'_>,
) -> Result<Option<Text>, AllocError>
    ensures { (before : List SomeEntry) → AreSeen meta.now before seen.now → IfOk result (λ t. t ≡ first_value (bad_values meta.now before (entry_of entry.now))) }
{
    if let Some(text) = second_child(alloc, meta, seen, entry.part) {
        return Ok(Some(text));
    }
    let attributes = entry.element.attributes.as_slice();
    if let Some(text) = bad_attribute(alloc, meta, entry.part, attributes)? {
        return Ok(Some(text));
    }
    bad_text(alloc, meta, seen, entry)
}

/// A value that is none, or a second one of what takes one, where these were seen.
pub(crate) fn value_fault(
    alloc: Global,
    meta: &Vocabulary<'_>,
    seen: &Seen,
    entry: &Entry<'_>,
) -> Result<Option<Fault>, AllocError>
    ensures { (before : List SomeEntry) → AreSeen meta.now before seen.now → IfOk result (λ f. fault_in f ≡ of_kind BadValue (bad_values meta.now before (entry_of entry.now))) }
{
    match first_bad(alloc, meta, seen, entry)? {
        Some(value) => Ok(Some(Fault {
            kind: Kind::BadValue,
            value,
        })),
        None => Ok(None),
    }
}
