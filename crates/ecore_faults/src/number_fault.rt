// Bounds and defaults that are none.
ghost use Rattle.std.specs.Prelude.{◌≡◌, ◌&&◌, not, bytes_eq, codes, [], find, option_map};
ghost use Rattle.std.specs.Option.{option_copied};
ghost use Rattle.ecore_rows.specs.Rows.{typed as typed_in};
ghost use Rattle.ecore_faults.specs.Faults.{is_attribute_role, is_text_of as is_text_in, is_bad_default as is_bad_default_in, is_bad_number as is_bad_number_in, number_fault as number_fault_in};
ghost use Rattle.ecore_outline.specs.Entries.{entry_of, entries_of};
ghost use Rattle.ecore_names.specs.DataTypes.{kind_of};
ghost use Rattle.ecore_rows.specs.CodeRows.{typed_of};
ghost use Rattle.ecore_faults.specs.FoundFaults.{fault_in};

use crate::fault::{Fault, Kind};
use doc_text::tree::{Attribute, Element};
use ecore_names::data_type::DataKind;
use ecore_names::file::File;
use ecore_outline::outline::{Entry, Role};
use ecore_outline::role::is_feature;
use ecore_rows::typed::Typed;
use xmi_text::numbers::{is_int_text, is_upper};

pub(crate) fn is_attribute(role: Role) -> bool
    ensures { result ≡ is_attribute_role role }
{
    matches!(role, Role::Attribute)
}

// Whether a text is one of an attribute's type.
fn is_text_of(file: &File<'_>, kind: DataKind, text: &[u8]) -> bool
    ensures { result ≡ is_text_in (entries_of file.now) (kind_of kind) text.now }
{
    match kind {
        DataKind::Int => is_int_text(text),
        DataKind::Truth => text == "true".as_bytes() || text == "false".as_bytes(),
        DataKind::Enum(enumeration) => file.has_literal(enumeration, text),
        DataKind::Str => true,
        DataKind::Opaque => true,
    }
}

fn is_bad_default(file: &File<'_>, typed: &Typed<'_>, text: &[u8]) -> bool
    ensures { result ≡ is_bad_default_in (entries_of file.now) (typed_of typed.now) text.now }
{
    match typed {
        Typed::Data(found) => !is_text_of(file, found.kind, text),
        Typed::Class(_) => false,
        Typed::Foreign(_) => false,
        Typed::Untyped(_) => false,
    }
}

fn is_called(attribute: &Attribute, name: &str) -> bool
    ensures { result ≡ (bytes_eq attribute.now.space [] && bytes_eq attribute.now.name name.now) }
{
    attribute.space.as_str() == "" && attribute.name.as_str() == name
}

// Whether an attribute of an element is a bad bound or a bad default.
fn is_bad_number(file: &File<'_>, role: Role, typed: &Typed<'_>, attribute: &Attribute) -> bool
    ensures { result ≡ is_bad_number_in (entries_of file.now) role (typed_of typed.now) attribute.now }
{
    if is_called(attribute, "upperBound") {
        return is_feature(role) && !is_upper(attribute.value.bytes());
    }
    is_called(attribute, "defaultValueLiteral")
        && is_attribute(role)
        && is_bad_default(file, typed, attribute.value.bytes())
}

/// The first bound or default of an element that is none.
pub(crate) fn number_fault<'a>(
    file: &File<'a>,
    role: Role,
    typed: &Typed<'a>,
    element: &'a Element,
) -> Option<Fault<'a>>
    ensures { fault_in result ≡ number_fault_in (entries_of file.now) role (typed_of typed.now) element.now }
{
    let attributes = element.attributes.as_slice();
    for i in 0..attributes.len() {
        if is_bad_number(file, role, typed, &attributes[i]) {
            return Some(Fault {
                kind: Kind::BadNumber,
                value: attributes[i].value.bytes(),
            });
        }
    }
    None
}
