// What the attributes of an element are: features of its class, or what any element may bear.
ghost use Rattle.std.specs.Prelude.{◌≡◌};
ghost use Rattle.xmi_models.specs.Faults.{is_passed as is_passed_of, is_type as is_type_of, is_nil as is_nil_of, is_href as is_href_of, own_class as own_class_of, may_have_type as may_have_type_of, attribute_feature as attribute_feature_of, is_skipped_attribute as is_skipped_attribute_of, is_no_feature as is_no_feature_of, is_foreign as is_foreign_of};
ghost use Rattle.xmi_models.specs.Entries.{part_in};

use crate::part::Part;
use atl_base::numbers::{ClassId, FeatId};
use doc_text::XMI;
use doc_text::tree::Attribute;
use ecore_meta::metamodel::Metamodel;
use xmi_names::lookups::{feature_named, is_skipped};
use xmi_names::vocabulary::Vocabulary;
use xmi_text::markup::{XSI, is_called};

// What any element may bear and means nothing here.
fn is_passed(attribute: &Attribute) -> bool
    ensures { result ≡ is_passed_of attribute.now }
{
    is_called(XMI, "version", attribute)
        || is_called(XMI, "id", attribute)
        || is_called(XSI, "schemaLocation", attribute)
}

fn is_type(attribute: &Attribute) -> bool
    ensures { result ≡ is_type_of attribute.now }
{
    is_called(XSI, "type", attribute) || is_called(XMI, "type", attribute)
}

/// Whether an attribute says that an element has no value.
pub(crate) fn is_nil(attribute: &Attribute) -> bool
    ensures { result ≡ is_nil_of attribute.now }
{
    is_called(XSI, "nil", attribute)
}

fn is_href(attribute: &Attribute) -> bool
    ensures { result ≡ is_href_of attribute.now }
{
    is_called("", "href", attribute)
}

/// The class whose features an element's attributes are.
pub fn own_class(part: Part) -> Option<ClassId>
    ensures { result ≡ own_class_of (part_in part) }
{
    match part {
        Part::Root(class) => class,
        Part::Content(_, _, class) => class,
        Part::Cross(_, class) => class,
        _ => None,
    }
}

/// Whether an element may say its class.
pub(crate) fn may_have_type(part: Part) -> bool
    ensures { result ≡ may_have_type_of (part_in part) }
{
    matches!(
        part,
        Part::Content(_, _, _) | Part::Cross(_, _) | Part::Unknown(_)
    )
}

/// The feature that an attribute gives.
pub fn attribute_feature(meta: &Metamodel, part: Part, attribute: &Attribute) -> Option<FeatId>
    ensures { result ≡ attribute_feature_of meta.now (part_in part) attribute.now }
{
    if !attribute.space.bytes().is_empty() {
        return None;
    }
    match own_class(part) {
        Some(class) => feature_named(meta, class, &attribute.name),
        None => None,
    }
}

// Whether an attribute gives a feature that is skipped.
fn is_skipped_attribute(meta: &Vocabulary<'_>, part: Part, attribute: &Attribute) -> bool
    ensures { result ≡ is_skipped_attribute_of meta.now (part_in part) attribute.now }
{
    if !attribute.space.bytes().is_empty() {
        return false;
    }
    match own_class(part) {
        Some(class) => is_skipped(meta, class, &attribute.name),
        None => false,
    }
}

/// Whether an attribute is none of the element's class.
pub(crate) fn is_no_feature(meta: &Vocabulary<'_>, part: Part, attribute: &Attribute) -> bool
    ensures { result ≡ is_no_feature_of meta.now (part_in part) attribute.now }
{
    !(is_passed(attribute)
        || is_nil(attribute)
        || is_href(attribute)
        || (is_type(attribute) && may_have_type(part))
        || attribute_feature(meta.metamodel(), part, attribute).is_some()
        || is_skipped_attribute(meta, part, attribute))
}

/// Whether an attribute refers to another file by its name alone.
pub(crate) fn is_foreign(meta: &Vocabulary<'_>, part: Part, attribute: &Attribute) -> bool
    ensures { result ≡ is_foreign_of meta.now (part_in part) attribute.now }
{
    is_href(attribute)
        && !(attribute_feature(meta.metamodel(), part, attribute).is_some()
            || is_skipped_attribute(meta, part, attribute))
}
