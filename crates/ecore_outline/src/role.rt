// Entries by their parts.
ghost use Rattle.std.specs.Prelude.{◌≡◌};
ghost use Rattle.ecore_outline.specs.Outline.{is_package_role as is_package_of, is_class_role as is_class_of, is_enum_role as is_enum_of, is_classifier_role as is_classifier_of, is_feature_role as is_feature_of, is_skipped_role as is_skipped_of, name_of as name_of_entry};
ghost use Rattle.ecore_outline.specs.Entries.{entry_of};

use crate::outline::{Entry, Role};
use xmi_text::markup::given_text;

/// Packages at the root or in `xmi:XMI`; one in a package is none of them.
pub fn is_package(role: Role) -> bool
    ensures { result ≡ is_package_of role }
{
    matches!(role, Role::Package)
}

/// Classes, interfaces among them.
pub fn is_class(role: Role) -> bool
    ensures { result ≡ is_class_of role }
{
    matches!(role, Role::Class)
}

/// Enumerations, without their literals.
pub fn is_enum(role: Role) -> bool
    ensures { result ≡ is_enum_of role }
{
    matches!(role, Role::Enum)
}

/// Classes, enumerations and data types of the file's own.
pub fn is_classifier(role: Role) -> bool
    ensures { result ≡ is_classifier_of role }
{
    matches!(role, Role::Class | Role::Enum | Role::Data)
}

/// Attributes and references that a metamodel keeps.
pub fn is_feature(role: Role) -> bool
    ensures { result ≡ is_feature_of role }
{
    matches!(role, Role::Attribute | Role::Reference)
}

/// Attributes and references that are derived, volatile or transient.
pub fn is_skipped(role: Role) -> bool
    ensures { result ≡ is_skipped_of role }
{
    matches!(role, Role::SkippedAttribute | Role::SkippedReference)
}

/// The name of an element, and empty where it has none.
pub fn name_of<'a>(entry: &Entry<'a>) -> &'a str
    ensures { result.now ≡ name_of_entry (entry_of entry.now) }
{
    given_text("name", entry.element)
}
