// What is wrong at an element by itself: its form, its flags, its name, generics.
ghost use Rattle.std.specs.Prelude.{◌≡◌, ◌&&◌, ◌||◌, [], bytes_eq, find};
ghost use Rattle.std.specs.Option.{option_copied};
ghost use Rattle.std.specs.List.{list_any};
ghost use Rattle.xmi_text.specs.Markup.{is_bad_flag as is_bad_flag_of};
ghost use Rattle.ecore_outline.specs.Outline.{is_generic as is_generic_of, is_package_role, name_of as name_of_entry};
ghost use Rattle.ecore_outline.specs.Forms.{is_bad_name as is_bad_name_of, is_bad_prefix as is_bad_prefix_of, is_kept_uri as is_kept_uri_of, uri_of as uri_of_entry, prefix_of as prefix_of_entry};
ghost use Rattle.ecore_faults.specs.Faults.{feature_flags, flags_of, is_misnamed as is_misnamed_of, is_stray as is_stray_of, is_empty_type as is_empty_type_of, is_not_ecore as is_not_ecore_of, is_named_role as is_named_role_of, generic_attribute as generic_attribute_of, generic_child as generic_child_of};
ghost use Rattle.ecore_outline.specs.Entries.{entry_of, entries_of};

use atl_base::text::Text;
use doc_text::tree::{Attribute, Child, Element};
use ecore_outline::form::{has_point, is_bad_name, is_bad_prefix, is_kept_uri, prefix_of, uri_of};
use ecore_outline::outline::{Entry, Role, is_generic};
use ecore_outline::role::{is_classifier, is_feature, is_package, name_of};
use xmi_text::markup::{given, has_text, is_bad_flag};

fn has_bad_feature_flag(element: &Element) -> bool
    ensures { result ≡ list_any (is_bad_flag_of element.now) feature_flags }
{
    is_bad_flag(element, "derived")
        || is_bad_flag(element, "volatile")
        || is_bad_flag(element, "transient")
}

// Whether a flag that means something at the element is none.
fn has_bad_flag(role: Role, element: &Element) -> bool
    ensures { result ≡ list_any (is_bad_flag_of element.now) (flags_of role) }
{
    match role {
        Role::Class => is_bad_flag(element, "abstract") || is_bad_flag(element, "interface"),
        Role::Attribute | Role::SkippedAttribute => {
            is_bad_flag(element, "iD")
                || is_bad_flag(element, "unique")
                || has_bad_feature_flag(element)
        }
        Role::Reference | Role::SkippedReference => {
            is_bad_flag(element, "containment") || has_bad_feature_flag(element)
        }
        _ => false,
    }
}

fn is_misnamed_package(entry: &Entry<'_>) -> bool
    ensures { result ≡ (is_bad_name_of (name_of_entry (entry_of entry.now)) || is_bad_prefix_of (prefix_of_entry (entry_of entry.now)) || is_kept_uri_of (uri_of_entry (entry_of entry.now))) }
{
    is_bad_name(name_of(entry)) || is_bad_prefix(prefix_of(entry)) || is_kept_uri(uri_of(entry))
}

// Whether a name stands there that is not of the form.
fn is_misnamed(entry: &Entry<'_>) -> bool
    ensures { result ≡ is_misnamed_of (entry_of entry.now) }
{
    match entry.role {
        Role::Package => is_misnamed_package(entry),
        Role::Class | Role::Enum | Role::Literal => is_bad_name(name_of(entry)),
        Role::Attribute | Role::Reference => {
            is_bad_name(name_of(entry)) || has_point(name_of(entry).as_bytes())
        }
        _ => false,
    }
}

fn has_package(behind: &[Entry<'_>]) -> bool
    ensures { result ≡ list_any (λ e. is_package_role e.role) (entries_of behind.now) }
{
    for i in 0..behind.len() {
        if is_package(behind[i].role) {
            return true;
        }
    }
    false
}

// Whether an element is not of the form as a whole.
fn is_stray(role: Role, behind: &[Entry<'_>]) -> bool
    ensures { result ≡ is_stray_of role (entries_of behind.now) }
{
    match role {
        Role::Stray => true,
        Role::Around => !has_package(behind),
        _ => false,
    }
}

// Whether a child that stands for the type of a feature names none.
fn is_empty_type(entry: &Entry<'_>) -> bool
    ensures { result ≡ is_empty_type_of (entry_of entry.now) }
{
    match entry.role {
        Role::TypeOf | Role::SkippedType => given("href", entry.element).is_none(),
        _ => false,
    }
}

/// Whether an element is not of Ecore's form, where these stand behind it.
pub(crate) fn is_not_ecore(entry: &Entry<'_>, behind: &[Entry<'_>]) -> bool
    ensures { result ≡ is_not_ecore_of (entry_of entry.now) (entries_of behind.now) }
{
    is_stray(entry.role, behind)
        || is_empty_type(entry)
        || has_text(entry.element)
        || has_bad_flag(entry.role, entry.element)
        || is_misnamed(entry)
}

/// Whether what has this part has to have a name.
pub(crate) fn is_named_role(role: Role) -> bool
    ensures { result ≡ is_named_role_of role }
{
    matches!(role, Role::Package | Role::Literal) || is_classifier(role) || is_feature(role)
}

fn is_generic_attribute(attribute: &Attribute) -> bool
    ensures { result ≡ (bytes_eq attribute.now.space [] && is_generic_of attribute.now.name) }
{
    attribute.space.as_str() == "" && is_generic(attribute.name.as_str())
}

fn first_generic_attribute(element: &Element) -> Option<&Attribute>
    ensures { option_copied result ≡ find (λ a. bytes_eq a.space [] && is_generic_of a.name) element.now.attributes }
{
    element
        .attributes
        .as_slice()
        .iter()
        .find(|a| is_generic_attribute(a))
}

/// The name of the first attribute that makes an element generic.
pub(crate) fn generic_attribute(element: &Element) -> Option<&Text>
    ensures { option_copied result ≡ generic_attribute_of element.now }
{
    match first_generic_attribute(element) {
        Some(attribute) => Some(&attribute.name),
        None => None,
    }
}

/// The name of the first child that makes an element generic.
pub(crate) fn generic_child(element: &Element) -> Option<&Text>
    ensures { option_copied result ≡ generic_child_of element.now }
{
    let children = element.children.as_slice();
    for i in 0..children.len() {
        if let Child::Sub(child) = &children[i] {
            if is_generic(child.name.as_str()) {
                return Some(&child.name);
            }
        }
    }
    None
}
