// Elements and attributes that are no features.
ghost use Rattle.std.specs.Prelude.{◌≡◌, IfOk, find, filter_map, Some, None, if◌then◌else◌};
ghost use Rattle.std.specs.Option.{option_copied};
ghost use Rattle.std.specs.List.{list_any};
ghost use Rattle.xmi_models.specs.Faults.{is_no_feature as is_no_feature_of, is_foreign as is_foreign_of, is_no_child as is_no_child_of, feature_values, of_kind, NoFeature};
ghost use Rattle.xmi_models.specs.Entries.{part_in, entry_of};
ghost use Rattle.xmi_models.specs.FoundFaults.{fault_in};

use crate::attribute::{is_foreign, is_no_feature};
use crate::fault::{Fault, Kind, told};
use crate::part::{Entry, Part};
use doc_text::tree::Attribute;
use std::alloc::{AllocError, Global};
use xmi_names::vocabulary::Vocabulary;

fn has_foreign(meta: &Vocabulary<'_>, part: Part, attributes: &[Attribute]) -> bool
    ensures { result ≡ list_any (is_foreign_of meta.now (part_in part)) attributes.now }
{
    attributes.iter().any(|a| is_foreign(meta, part, a))
}

// Whether an element is no feature. One of a reference that contains nothing may still lead to another file.
fn is_no_child(meta: &Vocabulary<'_>, entry: &Entry<'_>) -> bool
    ensures { result ≡ is_no_child_of meta.now (entry_of entry.now) }
{
    match entry.part {
        Part::Cross(_, _) => { !has_foreign(meta, entry.part, entry.element.attributes.as_slice()) }
        Part::Unknown(_) => true,
        Part::Inner => true,
        _ => false,
    }
}

fn first_no_feature<'a>(
    meta: &Vocabulary<'_>,
    part: Part,
    attributes: &'a [Attribute],
) -> Option<&'a Attribute>
    ensures { option_copied result ≡ find (is_no_feature_of meta.now (part_in part)) attributes.now }
{
    attributes.iter().find(|a| is_no_feature(meta, part, a))
}

// An attribute that is no feature.
fn attribute_fault(
    alloc: Global,
    meta: &Vocabulary<'_>,
    part: Part,
    attributes: &[Attribute],
) -> Result<Option<Fault>, AllocError>
    ensures { IfOk result (λ f. fault_in f ≡ of_kind NoFeature (filter_map (λ a. if is_no_feature_of meta.now (part_in part) a then Some a.name else None) attributes.now)) }
{
    match first_no_feature(meta, part, attributes) {
        Some(attribute) => told(alloc, Kind::NoFeature, &attribute.name),
        None => Ok(None),
    }
}

/// An element or an attribute that is no feature.
pub(crate) fn feature_fault(
    alloc: Global,
    meta: &Vocabulary<'_>,
    entry: &Entry<'_>,
) -> Result<Option<Fault>, AllocError>
    ensures { IfOk result (λ f. fault_in f ≡ of_kind NoFeature (feature_values meta.now (entry_of entry.now))) }
{
    if is_no_child(meta, entry) {
        return told(alloc, Kind::NoFeature, &entry.element.name);
    }
    let attributes = entry.element.attributes.as_slice();
    attribute_fault(alloc, meta, entry.part, attributes)
}
