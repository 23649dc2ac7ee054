// Which features of which objects have a value so far.
ghost use Rattle.std.specs.Prelude.{◌≡◌, ◌==◌, ◌&&◌, ◌||◌, ℕ, OnOk, false};
ghost use Rattle.std.specs.List.{list_any};
ghost use Rattle.std.specs.Option.{option_map_or};
ghost use Rattle.xmi_models.specs.Faults.{attribute_feature as attribute_feature_of};
ghost use Rattle.xmi_models.specs.Entries.{part_in};
ghost use Rattle.xmi_models.specs.SeenFeatures.{is_given};

use crate::attribute::attribute_feature;
use crate::part::Part;
use atl_base::numbers::FeatId;
use doc_text::tree::Attribute;
use std::alloc::{AllocError, Global};
use std::collections::HashSet;
use xmi_names::vocabulary::Vocabulary;

/// The features that have a value, each with the number of its object.
#[derive(Drop)]
pub(crate) struct Seen {
    pub given: HashSet<(usize, u32)>,
}

/// Nothing so far.
pub(crate) fn nothing(alloc: Global) -> Seen
    ensures { (o f : ℕ) → is_given result o f ≡ false }
{
    Seen {
        given: HashSet::new(alloc),
    }
}

/// Whether a feature of an object has a value.
pub(crate) fn has(seen: &Seen, object: usize, feature: FeatId) -> bool
    ensures { result ≡ is_given seen.now object feature.0 }
{
    seen.given.contains(&(object, feature.0))
}

/// Notes that it has one.
pub(crate) fn note(seen: &mut Seen, object: usize, feature: FeatId) -> Result<(), AllocError>
    ensures { OnOk result ((o f : ℕ) → is_given seen.new o f ≡ (is_given seen.old o f || (object == o && feature.0 == f))) }
{
    seen.given.insert((object, feature.0))?;
    Ok(())
}

// Notes the feature that an attribute gives.
fn note_attribute(
    meta: &Vocabulary<'_>,
    seen: &mut Seen,
    object: usize,
    part: Part,
    attribute: &Attribute,
) -> Result<(), AllocError>
    ensures { OnOk result ((o f : ℕ) → is_given seen.new o f ≡ (is_given seen.old o f
        || (object == o && option_map_or (λ g. g.0 == f) (attribute_feature_of meta.now (part_in part) attribute.now) false))) }
{
    match attribute_feature(meta.metamodel(), part, attribute) {
        Some(feature) => note(seen, object, feature),
        None => Ok(()),
    }
}

/// Notes the features that the attributes of an object give.
pub(crate) fn note_attributes(
    meta: &Vocabulary<'_>,
    seen: &mut Seen,
    object: usize,
    part: Part,
    attributes: &[Attribute],
) -> Result<(), AllocError>
    ensures { OnOk result ((o f : ℕ) → is_given seen.new o f ≡ (is_given seen.old o f
        || (object == o && list_any (λ a. option_map_or (λ g. g.0 == f) (attribute_feature_of meta.now (part_in part) a) false) attributes.now))) }
{
    for i in 0..attributes.len() {
        note_attribute(meta, seen, object, part, &attributes[i])?;
    }
    Ok(())
}
